// The entry points for programs in other languages: a formula as numbers and slices, an answer as words in a lent
// slice.
#![tactic(auto)]

mod checking;
mod printing;
mod reading;
mod searching;
mod sheets;
mod solving;
mod writing;
