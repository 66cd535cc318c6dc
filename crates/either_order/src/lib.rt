// Two corrections of one stream: theorems, no code.
#![tactic(auto)]
