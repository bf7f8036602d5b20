// Distance, maps that keep it, and why a closed set of points refutes, over points of any size. No code: its specs/
// are cited by search and checker.
#![tactic(auto)]
