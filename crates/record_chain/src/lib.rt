// Theorems on the records of a stream, one after the other: where the walks go, and that the sheets of a stream that passes stand apart. No code.
#![tactic(auto)]
