// A stream compared with itself without its unused strings. No code.
#![tactic(auto)]
