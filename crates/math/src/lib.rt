// Lists, bits and counting, without any notion of formulas. No code: its specs/ are cited by the other crates.
#![tactic(auto)]
