// What the product promises as one claim, which files the checker accepts, and document 01's worked cases, over the
// definitions of the crates below. No code: its specs/ are their statements, and specs/Laws the proofs.
#![tactic(auto)]
