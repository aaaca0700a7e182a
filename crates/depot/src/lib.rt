// What the plan of a closed book has to do with the book's own: the definition in `specs/` and the theorem in `proofs/Laws`. There is no code here; the
// operations are in the crates `plan` and `closing`.
#![tactic(auto)]
