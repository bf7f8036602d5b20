// Permutations of variables (01: exchanges), what they do to points and clauses, and that they keep distances. No
// code.
#![tactic(auto)]
