// Closed books: chosen predicates lose their clauses and are given what they need instead. A set of predicates is held in a word: predicate p is in
// it where bit p is set.
#![tactic(auto)]

ghost use Rattle.std.specs.Prelude.{◌≡◌, ◌+◌, ◌≤◌};
ghost use Rattle.masks.specs.Outcome.{Answers, reply_of};
ghost use Rattle.masks.specs.Set.{bit_at, Holds};
ghost use Rattle.book.specs.Limits.{max_clauses};
ghost use Rattle.book.specs.Refusal.{reply};
ghost use Rattle.book.specs.Sets.{Known};
ghost use Rattle.closing.specs.Close.{lacked, closing};
ghost use Rattle.closing.specs.Held.{unless_lacking, Few, ModesClosed, ClausesKept};

use book::clause::{Clause, move_clause};
use book::held::RuleBook;
use book::limits::{MAX_PREDICATES, MODES_SIZE, RULES_SIZE};
use book::mode::put_mode;
use book::refusal::Refusal;
use masks::constraint::has_member;
use masks::members::Members;
use masks::reply::Reply;
use needs::{Needs, settle};
use reading::{read_book, read_only};
use writing::write_given;

// The closed book, written into the output: the chosen predicates without their clauses, each with its final constraint as `MO`. 8 with the lowest
// chosen number that the book lacks; where it seems to lack one, no room is lent for its clauses.
pub fn close(book: &[u8], set: u64, out: &mut [u8]) -> Reply
    ensures { Answers (closing set book.now) out.old result out.new }
{
    closed(book, set, out).unwrap_or_else(Reply::from)
}

fn closed(book: &[u8], set: u64, out: &mut [u8]) -> Result<Reply, Refusal>
    ensures { Answers (closing set book.now) out.old (reply_of reply result) out.new }
{
    if !lists(book, set) {
        let b = read_only(book)?;
        lacking(set, b.preds)?;
    }
    close_over(book, set, out)
}

// The highest chosen predicate has its record where a book lists it: predicates come first, three bytes each. It is a hint, which no promise rests on.
fn lists(book: &[u8], set: u64) -> bool {
    let at = 3 * (set | 1).ilog2() as usize;
    book.get(at) == Some(&b'P')
}

// What is wrong with a set of chosen predicates, of so many: "8: the chosen set names a predicate that the book lacks".
fn lacking(set: u64, preds: u8) -> Result<(), Refusal>
    ensures { result ≡ unless_lacking (lacked set preds) }
{
    let beyond = chosen_from(set, preds);
    if beyond != 0 {
        return Err(Refusal::Lacks(preds + u64::trailing_zeros(beyond) as u8));
    }
    Ok(())
}

// What `closed` answers, with room for all of the book.
fn close_over(bytes: &[u8], set: u64, out: &mut [u8]) -> Result<Reply, Refusal>
    ensures { Answers (closing set bytes.now) out.old (reply_of reply result) out.new }
{
    let mut book = RuleBook::new();
    let given = read_book(bytes, &mut book)?;
    lacking(set, book.preds)?;
    let mut needs = Needs::new();
    settle(&book, &mut needs);
    close_modes(&mut book.modes, set, &needs.table.masks);
    book.clauses = keep_clauses(&mut book.rules, book.clauses, set);
    let r = write_given(&book, given | set, out)?;
    Ok(r)
}

// The chosen numbers from n on, counted from n.
fn chosen_from(set: u64, n: u8) -> u64
    ensures { Holds result (λ k. bit_at set (n + k)) }
{
    set.checked_shr(n as u32).unwrap_or(0)
}

// Gives each chosen predicate `MO` with its constraint in a table, of at most 20 masks.
fn close_modes(modes: &mut [u8; MODES_SIZE], set: u64, table: &[u64; MAX_PREDICATES])
    requires { Few (bit_at set) table.now }
    ensures { ModesClosed (bit_at set) table.now modes.old modes.new }
{
    for p in Members::of(set) {
        put_mode(modes, p, table[p as usize]);
    }
}

// Drops the clauses of the chosen predicates, so that the others stand from the start on; how many they are.
fn keep_clauses(rules: &mut [u64; RULES_SIZE], clauses: u8, set: u64) -> u8
    requires { (clauses ≤ max_clauses) × Known rules.old clauses }
    ensures { ClausesKept (bit_at set) rules.old clauses rules.new result }
{
    let mut n = 0;
    for k in 0..clauses as usize {
        let p = Clause::at(rules, k).head().predicate();
        if !has_member(set, p) {
            move_clause(rules, k, n as usize);
            n += 1;
        }
    }
    n
}
