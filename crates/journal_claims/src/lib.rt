// Theorems on a journal and its replay. No code.
#![tactic(auto)]
