// Theorems on what the stream without its unused strings shows: the sheets and cells of the old one, and each text cell names the string that it named. No code.
#![tactic(auto)]
