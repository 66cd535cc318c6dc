// Theorems on a cell record: which bytes its reading depends on, where its value fields lie, and what a new value in one of them leaves. No code.
#![tactic(auto)]
