// What holds of every comparison of two revisions. No code.
#![tactic(auto)]
