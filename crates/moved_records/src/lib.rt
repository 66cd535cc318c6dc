// Theorems on records that are moved: what a record says depends on its bytes and not on where it stands. No code.
#![tactic(auto)]
