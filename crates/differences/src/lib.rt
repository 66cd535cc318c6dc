// Two readings compared: what the differences are, in what order, and what holds of the list of them. No code.
#![tactic(auto)]
