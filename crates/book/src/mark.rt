// Marks, and whose turn it is: document 01, "What a rule book says".
use crate::fault::Fault;

// What stands where a record may begin: one of the six marks, two other bytes, one byte, or nothing.
#[derive(Clone, Copy)]
pub enum Mark {
    Pr,
    Mo,
    Cl,
    Sg,
    Ng,
    Qu,
    Other,
    Half,
    End,
}

// The runs of records of a book: its predicates, modes and clauses, the body of a clause, and that of the query. Of a page: its queries, and the body of
// one of them.
#[derive(Clone, Copy)]
pub enum Phase {
    Predicates,
    Modes,
    Clauses,
    Body,
    Query,
    Queries,
    PageQuery,
}

// What a mark means in a run: a record of the run, the end of the run, or a fault.
#[derive(Clone, Copy)]
pub enum Turn {
    Mine,
    Over,
    No(Fault),
}
