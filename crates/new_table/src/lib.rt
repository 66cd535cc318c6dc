// The new string table of a stream whose unused strings are dropped: definitions and theorems only.
#![tactic(auto)]
