// Lemmas on the places of arrays, which the proofs of functions over a slice of slots share, and steps for walks by hand.
// No code: its proofs/ are cited.
#![tactic(auto)]
