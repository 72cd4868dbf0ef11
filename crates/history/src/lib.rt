// Demand 3 for a whole table: any calls from an empty one, saving and restoring among them. This crate has no code: read specs/Theorem.antt.
#![tactic(auto)]
