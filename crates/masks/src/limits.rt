// The numbers of document 01, "Numbers", that constraints are made of.

// The positions of a predicate.
pub const MAX_ARITY: u8 = 6;

// As many as the greatest arity, as a length: the arguments of a call.
pub const MAX_ARGUMENTS: usize = 6;

// The masks of a constraint: no 21 subsets of six positions avoid containing one another.
pub const MAX_MASKS: usize = 20;
