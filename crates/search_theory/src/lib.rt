// The search (01: walk), as a sentence and computed, and its theory. No code, so that an edit of the definition is
// refused by the theory alone.
#![tactic(auto)]
