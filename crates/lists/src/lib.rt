// Lists under a test: definitions and laws alone, for the specs and proofs of every crate.
#![tactic(auto)]
