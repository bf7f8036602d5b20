// The text of a formula, as it is written: what it is, and that it reads back. No function: its specs/ are cited by the
// writer.
#![tactic(auto)]
