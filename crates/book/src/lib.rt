// A rule book: what it says, and how it is held. A call is a word (`call`), and a set of masks or of predicates is one, as in the crate `masks`. A whole
// book is held in flat arrays of numbers (`held`), made once by an operation and lent by it; `clause` and `mode` say how they are laid out, and `reading`
// fills them. What can be wrong with a book is in `fault`, and why an operation refuses it in `refusal`; marks, their turn and the ranges of bytes are in
// `mark` and `range`; the numbers are in `limits`. Reading and writing are crates of their own.
#![tactic(auto)]

pub mod call;
pub mod clause;
pub mod fault;
pub mod held;
pub mod limits;
pub mod mark;
pub mod mode;
pub mod range;
pub mod refusal;
