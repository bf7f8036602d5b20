// Stable sets of points, in document 01's form and as published, and why they refute the clauses. No code.
#![tactic(auto)]
