// Theorems on the reading of a stream after a granted correction, and on the value fields of listed cells: where they lie, and what the correction leaves
// of the cells. No code.
#![tactic(auto)]
