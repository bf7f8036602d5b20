// The text format, DIMACS CNF: which texts are accepted, what they say, and what the reader answers. No function: its
// specs/ are cited by the reader.
#![tactic(auto)]

// What the problem line says: n and C.
#[derive(Clone, Copy)]
pub struct Sizes {
    pub variables: u32,
    pub total: u32,
}
