// The numbers of document 01, "Numbers", that a book keeps to, and the sizes that follow for the arrays that hold one. The arity's and the
// alternatives' limits are in `masks::limits`.
pub const MAX_PREDICATES: usize = 64;

// The same as a byte: the number of a predicate is below it.
pub const PREDICATES: u8 = 64;

pub const MAX_CLAUSES: usize = 64;

// In a body or query.
pub const MAX_SUBGOALS: usize = 8;

// Of a page.
pub const MAX_QUERIES: usize = 256;

// Arguments: variables are 0 to 15.
pub const LAST_VARIABLE: u8 = 15;

pub const VARIABLES: usize = 16;

pub const WILDCARD: u8 = 254;

pub const LITERAL: u8 = 255;

// In the byte of a word that holds the number of a subgoal's arguments: the subgoal is negated.
pub const NEGATED: u8 = 8;

// What a predicate takes among the modes: whether it has `MO`, the number of its masks, and 20 masks.
pub const MODE_SIZE: usize = 22;

// The modes of 64 predicates.
pub const MODES_SIZE: usize = 1408;

// What a clause takes, in words: the number of its subgoals, its head, and eight subgoals.
pub const CLAUSE_SIZE: usize = 10;

// The room of 64 clauses and of the query, which stands after them.
pub const RULES_SIZE: usize = 650;

// The longest book, plan, image of a table, answer to a page and printed sheet.
pub const LONGEST: usize = 6986;

pub const LONGEST_PLAN: usize = 53259;

pub const LONGEST_TABLE: usize = 1600;

pub const LONGEST_PAGE: usize = 3072;

pub const LONGEST_SHEET: usize = 164584;

// The word of a call of predicate 0 with no arguments. It is 0 as the bytes of a cleared book are, so that all of it is cleared in one go (`held`).
pub const NO_CALL: u64 = 0;
