// The strings of a table with all that stands with them, and the bytes of a table of given strings. No code.
#![tactic(auto)]
