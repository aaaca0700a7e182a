// Single records, and the bytes and marks that they are made of: `field` reads them byte by byte, `turn` says whose turn it is where one may begin; `fault` has
// the faults found on the way, and `arities` what is known of the predicates. Each reads from the bytes that are left. Runs of records, and the book, are in the
// crate `reading`.
#![tactic(auto)]

pub mod arities;
pub mod fault;
pub mod field;
pub mod turn;
