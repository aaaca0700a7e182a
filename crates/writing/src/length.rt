// How many bytes a book has, and its parts. Each part also says how many it has at most, so that the sums fit.
ghost use Rattle.std.specs.Prelude.{◌≡◌, ◌+◌, ◌*◌, ◌≤◌, length};
ghost use Rattle.masks.specs.Limits.{max_arity, max_masks};
ghost use Rattle.book.specs.Limits.{max_predicates, max_clauses, max_subgoals};
ghost use Rattle.book.specs.Encode.{run, enc_mode, enc_subgoal, enc_clause, encode};
ghost use Rattle.book.specs.Held.{HaveMode, modes_of, book_of};

use book::clause::Clause;
use book::held::RuleBook;
use book::limits::{MAX_CLAUSES, MAX_PREDICATES, MODES_SIZE};
use book::mode::masks_at;
use masks::members::Members;

// How many bytes a book has: three a predicate, its modes and clauses, two for `QU`, and its query.
pub fn book_length(book: &RuleBook, given: u64) -> usize
    requires { HaveMode book.now.modes given }
    ensures { result ≡ length (encode (book_of book.now)) }
{
    let n = (book.preds as usize).min(MAX_PREDICATES);
    3 * n + modes_length(&book.modes, given) + clauses_length(book) + 2 + body_length(&book.query())
}

// Of each `MO`: its mark, its predicate, the number of its masks, and the masks.
fn modes_length(modes: &[u8; MODES_SIZE], given: u64) -> usize
    requires { HaveMode modes.now given }
    ensures value { result ≡ length (run enc_mode (modes_of modes.now max_predicates)) }
    ensures upper_bound { result ≤ max_predicates * (4 + max_masks) }
{
    let mut total = 0;
    for p in Members::of(given) {
        let masks = masks_at(modes, p);
        total += 4 + masks.len();
    }
    total
}

// Of each clause: its mark, its predicate, its arguments, and its subgoals.
fn clauses_length(book: &RuleBook) -> usize
    ensures value { result ≡ length (run enc_clause (book_of book.now).clauses) }
    ensures upper_bound { result ≤ max_clauses * (3 + max_arity + max_subgoals * (3 + max_arity)) }
{
    let n = (book.clauses as usize).min(MAX_CLAUSES);
    let mut total = 0;
    for k in 0..n {
        let clause = book.clause(k);
        total += 3 + clause.head().arguments() + body_length(&clause);
    }
    total
}

// Of each subgoal: its mark, its predicate, and its arguments.
fn body_length(clause: &Clause) -> usize
    ensures value { result ≡ length (run enc_subgoal clause.now.body) }
    ensures upper_bound { result ≤ max_subgoals * (3 + max_arity) }
{
    let mut total = 0;
    for j in 0..clause.subgoals() {
        total += 3 + clause.subgoal(j).arguments();
    }
    total
}
