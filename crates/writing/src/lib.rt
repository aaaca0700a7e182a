// A book's bytes. Whatever writes a book goes through `write_given`; `write_book` turns its answer into a reply. It measures first (`length`), so that a room
// that is too short is left as it was; then it writes record by record. Bytes and marks are in `put`.
#![tactic(auto)]

pub mod length;
pub mod put;

ghost use Rattle.std.specs.Prelude.{min, ◌≤◌, length, take};
ghost use Rattle.masks.specs.Limits.{max_masks};
ghost use Rattle.masks.specs.Outcome.{Answers, done, nine, reply_of};
ghost use Rattle.book.specs.Limits.{max_clauses, max_predicates};
ghost use Rattle.book.specs.Encode.{run, enc_predicate, enc_mode, enc_head, enc_subgoal, enc_clause, encode};
ghost use Rattle.book.specs.Held.{head_in, call_in, clauses_of, HaveMode, modes_of, book_of};
ghost use Rattle.writing.specs.Wrote.{Room, Wrote};

use crate::length::book_length;
use crate::put::{put_byte, put_bytes, put_mark};
use book::call::Call;
use book::clause::Clause;
use book::held::RuleBook;
use book::limits::{MAX_CLAUSES, MAX_PREDICATES, MODES_SIZE};
use book::mode::{masks_at, with_mode};
use masks::members::Members;
use masks::reply::{Reply, TooShort};

// Writes the bytes of a book from the output's start, or answers 9 where the output is too short.
pub fn write_book(book: &RuleBook, out: &mut [u8]) -> Reply
    ensures { Answers (done 0 (encode (book_of book.now))) out.old result out.new }
{
    write_given(book, with_mode(&book.modes), out).unwrap_or_else(Reply::from)
}

// The same, with the predicates that have `MO` told as a set.
pub fn write_given(book: &RuleBook, given: u64, out: &mut [u8]) -> Result<Reply, TooShort>
    requires { HaveMode book.now.modes given }
    ensures { Answers (done 0 (encode (book_of book.now))) out.old (reply_of nine result) out.new }
{
    let r = Reply::in_room(book_length(book, given), 0, out.len())?;
    put_book(out, book, given);
    Ok(r)
}

// "all `PR`, then all `MO`, then clauses, then one `QU`".
fn put_book(out: &mut [u8], book: &RuleBook, given: u64) -> usize
    requires { HaveMode book.now.modes given × Room out.old 0 (encode (book_of book.now)) }
    ensures { Wrote out.old out.new 0 result (encode (book_of book.now)) }
{
    let a = put_predicates(out, 0, book.preds, &book.arities);
    let b = put_modes(out, a, &book.modes, given);
    let c = put_clauses(out, b, book);
    let d = put_mark(out, c, b"QU");
    put_body(out, d, &book.query())
}

// "`PR`: arity", for each predicate.
fn put_predicates(out: &mut [u8], at: usize, preds: u8, arities: &[u8; MAX_PREDICATES]) -> usize
    requires { Room out.old at (run enc_predicate (take preds arities.now)) }
    ensures { Wrote out.old out.new at result (run enc_predicate (take preds arities.now)) }
{
    let n = (preds as usize).min(MAX_PREDICATES);
    let mut p = at;
    for &arity in &arities[..n] {
        let q = put_mark(out, p, b"PR");
        p = put_byte(out, q, arity);
    }
    p
}

// The `MO` of each predicate that has one, rising.
fn put_modes(out: &mut [u8], at: usize, modes: &[u8; MODES_SIZE], given: u64) -> usize
    requires { HaveMode modes.now given × Room out.old at (run enc_mode (modes_of modes.now max_predicates)) }
    ensures { Wrote out.old out.new at result (run enc_mode (modes_of modes.now max_predicates)) }
{
    let mut q = at;
    for p in Members::of(given) {
        q = put_mode(out, q, p, masks_at(modes, p));
    }
    q
}

// "`MO`: predicate, n, n masks".
fn put_mode(out: &mut [u8], at: usize, p: u8, masks: &[u8]) -> usize
    requires { (length masks.now ≤ max_masks) × Room out.old at (enc_mode (record { pred = p; masks = masks.now })) }
    ensures { Wrote out.old out.new at result (enc_mode (record { pred = p; masks = masks.now })) }
{
    let q = put_mark(out, at, b"MO");
    let r = put_byte(out, q, p);
    let t = put_byte(out, r, masks.len() as u8);
    put_bytes(out, t, masks)
}

// Each clause with its subgoals.
fn put_clauses(out: &mut [u8], at: usize, book: &RuleBook) -> usize
    requires { Room out.old at (run enc_clause (book_of book.now).clauses) }
    ensures { Wrote out.old out.new at result (run enc_clause (book_of book.now).clauses) }
{
    let n = (book.clauses as usize).min(MAX_CLAUSES);
    let mut p = at;
    for k in 0..n {
        p = put_clause(out, p, &book.clause(k));
    }
    p
}

// "`CL`: predicate, one argument per position", then its subgoals.
fn put_clause(out: &mut [u8], at: usize, clause: &Clause) -> usize
    requires { Room out.old at (enc_clause clause.now) }
    ensures { Wrote out.old out.new at result (enc_clause clause.now) }
{
    let p = put_mark(out, at, b"CL");
    let q = put_call(out, p, clause.head());
    put_body(out, q, clause)
}

// The subgoals of a clause.
fn put_body(out: &mut [u8], at: usize, clause: &Clause) -> usize
    requires { Room out.old at (run enc_subgoal clause.now.body) }
    ensures { Wrote out.old out.new at result (run enc_subgoal clause.now.body) }
{
    let mut p = at;
    for j in 0..clause.subgoals() {
        p = put_subgoal(out, p, clause.subgoal(j));
    }
    p
}

// "`SG`", or "`NG`", with the same fields.
fn put_subgoal(out: &mut [u8], at: usize, call: Call) -> usize
    requires { Room out.old at (enc_subgoal (call_in call.word)) }
    ensures { Wrote out.old out.new at result (enc_subgoal (call_in call.word)) }
{
    let mark = if call.is_negated() { b"NG" } else { b"SG" };
    let p = put_mark(out, at, mark);
    put_call(out, p, call)
}

// "predicate, one argument per position".
fn put_call(out: &mut [u8], at: usize, call: Call) -> usize
    requires { Room out.old at (enc_head (head_in call.word)) }
    ensures { Wrote out.old out.new at result (enc_head (head_in call.word)) }
{
    let mut p = put_byte(out, at, call.predicate());
    for i in 0..call.arguments() {
        p = put_byte(out, p, call.argument(i));
    }
    p
}
