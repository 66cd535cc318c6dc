// Theorems on the check of a stream: which bytes it depends on, and that a stream passes still after a granted correction. No code.
#![tactic(auto)]
