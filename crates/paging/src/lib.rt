// All the queries of a page in one go: the definition in `specs/` and what is known of it in `proofs/Laws`. The code that answers a page is in the crate
// `page`.
#![tactic(auto)]
