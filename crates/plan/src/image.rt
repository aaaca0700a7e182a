// The image of a plan: its length first, then its bytes. Each predicate's clauses and its reached patterns are lent in words.
ghost use Rattle.std.specs.Prelude.{◌≡◌, true, ◌∷◌, ◌+◌, ◌*◌, ◌<◌, ◌≤◌, length};
ghost use Rattle.book.specs.Limits.{max_predicates, max_clauses, max_subgoals};
ghost use Rattle.book.specs.Held.{clause_at};
ghost use Rattle.book.specs.Sets.{callable, Callable};
ghost use Rattle.writing.specs.Wrote.{Room, Wrote};
ghost use Rattle.choices.specs.Plan.{enc_query, enc_row};
ghost use Rattle.plan.specs.Lent.{EachCallable, row_by, clause_rows, pattern_rows, plan_bytes, rows_length, plan_length};

use book::held::RuleBook;
use book::limits::MAX_PREDICATES;
use masks::constraint::count;
use masks::members::Members;
use ordering::admits::Admits;
use ordering::{first_order, head_bound};
use writing::put::{put_byte, put_bytes, put_mark};

// How many bytes the plan has: each predicate's clauses have a row for each of its patterns.
pub fn plan_length(
    book: &RuleBook,
    own: &[u64; MAX_PREDICATES],
    reached: &[u64; MAX_PREDICATES],
) -> usize
    requires { book.now.preds ≤ max_predicates }
    ensures { result ≡ plan_length book.now.preds book.now.rules own.now reached.now }
{
    let mut total = 3 + book.query().subgoals();
    for p in 0..book.preds as usize {
        if own[p] != 0 {
            total += rows_length(book, own[p]) * count(reached[p]);
        }
    }
    total
}

// How many bytes a row of each clause of a set has, all together.
fn rows_length(book: &RuleBook, own: u64) -> usize
    ensures value { result ≡ rows_length book.now.rules own }
    ensures upper_bound { result ≤ max_clauses * (5 + max_subgoals) }
{
    let mut total = 0;
    for k in Members::of(own) {
        total += 5 + book.clause(k as usize).subgoals();
    }
    total
}

// "`QO`, n, n places; then for each reached predicate with clauses, ascending by predicate and then pattern", from the output's start.
pub fn put_plan(
    out: &mut [u8],
    query: &[u8],
    book: &RuleBook,
    own: &[u64; MAX_PREDICATES],
    table: &Admits,
    reached: &[u64; MAX_PREDICATES],
) -> usize
    requires few { (length query.now ≤ max_subgoals) × (book.now.preds ≤ max_predicates) × EachCallable book.now.rules own.now }
    requires room { Room out.old 0 (plan_bytes query.now book.now.preds book.now.rules table.now own.now reached.now) }
    ensures { Wrote out.old out.new 0 result (plan_bytes query.now book.now.preds book.now.rules table.now own.now reached.now) }
{
    let mut at = put_query(out, 0, query);
    for p in 0..book.preds as usize {
        at = put_patterns(out, at, book, own[p], reached[p], table);
    }
    at
}

// "`QO`, n, n places".
pub fn put_query(out: &mut [u8], at: usize, places: &[u8]) -> usize
    requires few { length places.now ≤ max_subgoals }
    requires room { Room out.old at (enc_query places.now) }
    ensures { Wrote out.old out.new at result (enc_query places.now) }
{
    let p = put_mark(out, at, b"QO");
    put_places(out, p, places)
}

// The rows of the clauses of a set, under each pattern of a set.
fn put_patterns(
    out: &mut [u8],
    at: usize,
    book: &RuleBook,
    own: u64,
    patterns: u64,
    table: &Admits,
) -> usize
    requires { Callable book.now.rules own × Room out.old at (pattern_rows book.now.rules table.now own patterns) }
    ensures { Wrote out.old out.new at result (pattern_rows book.now.rules table.now own patterns) }
{
    let mut p = at;
    for a in Members::of(patterns) {
        p = put_clauses(out, p, book, own, a, table);
    }
    p
}

// The rows of the clauses of a set under a head pattern: "for each of its clauses in turn".
fn put_clauses(out: &mut [u8], at: usize, book: &RuleBook, own: u64, a: u8, table: &Admits) -> usize
    requires { Callable book.now.rules own × Room out.old at (clause_rows book.now.rules table.now own a) }
    ensures { Wrote out.old out.new at result (clause_rows book.now.rules table.now own a) }
{
    let mut p = at;
    for k in Members::of(own) {
        p = put_row(out, p, book, k, a, table);
    }
    p
}

// "`CO`, clause, pattern, n, n places": clause k in its first good order under a head pattern.
fn put_row(out: &mut [u8], at: usize, book: &RuleBook, k: u8, a: u8, table: &Admits) -> usize
    requires { (k < max_clauses) × (callable (clause_at book.now.rules k).body ≡ true) × Room out.old at (enc_row (row_by book.now.rules table.now k a)) }
    ensures { Wrote out.old out.new at result (enc_row (row_by book.now.rules table.now k a)) }
{
    let clause = book.clause(k as usize);
    let bound = head_bound(clause.head(), a);
    let order = first_order(&clause, table, bound);
    let p = put_mark(out, at, b"CO");
    let q = put_byte(out, p, k);
    let r = put_byte(out, q, a);
    match &order {
        Some(o) => put_places(out, r, o.places()),
        None => put_places(out, r, &[]),
    }
}

// n and the n places.
fn put_places(out: &mut [u8], at: usize, places: &[u8]) -> usize
    requires few { length places.now ≤ max_subgoals }
    requires room { Room out.old at (length places.now ∷ places.now) }
    ensures { Wrote out.old out.new at result (length places.now ∷ places.now) }
{
    let p = put_byte(out, at, places.len() as u8);
    put_bytes(out, p, places)
}
