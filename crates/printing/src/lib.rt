// The printed sheet of a book: its definition in `specs/` and what is known of it in `proofs/Laws`. The code that prints one is in the crate `sheet`.
#![tactic(auto)]
