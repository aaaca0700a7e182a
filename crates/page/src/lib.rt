// All the queries of a page in one go: document 02, W1. The book is read and settled once. The run is read once, too: each query is ordered against the
// final table as it is read, and its answer waits in an image of a page's full length; only a run without a fault, whose answers have room, is copied to the
// output. The run's tally goes through by value and is lent to one step for each query; the caller's tally comes back changed only where the call is not
// refused.
#![tactic(auto)]

ghost use Rattle.std.specs.Prelude.{◌≡◌, true, ◌+◌, ◌≤◌, length};
ghost use Rattle.masks.specs.Outcome.{reply_of};
ghost use Rattle.book.specs.Limits.{max_subgoals};
ghost use Rattle.book.specs.Refusal.{reply};
ghost use Rattle.book.specs.Sets.{callable};
ghost use Rattle.ordering.specs.Held.{order_of};
ghost use Rattle.writing.specs.Wrote.{Room, Wrote};
ghost use Rattle.tally.specs.Tallied.{Tallies};
ghost use Rattle.paging.specs.Page.{answered, answer, accepts, paging, verdicts};
ghost use Rattle.page.specs.Lent.{SomeLent, Gives, RunAnswered, QueryRead};

use book::clause::Clause;
use book::fault::Fault;
use book::held::RuleBook;
use book::limits::{LONGEST_PAGE, MAX_CLAUSES, MAX_QUERIES, RULES_SIZE};
use book::mark::Phase;
use book::refusal::Refusal;
use masks::reply::Reply;
use needs::{Needs, settle};
use ordering::admits::Admits;
use ordering::{Order, first_order};
use plan::image::put_query;
use reading::{ended, read_body, read_book};
use records::arities::Arities;
use records::fault::{FaultFromEnd, wrong};
use records::turn::{is_mark, run_end};
use tally::{Tally, stepped};
use writing::put::{put_byte, put_bytes};

// What a page comes to: the reply, and the tally that it leaves, also where it is refused.
#[derive(Clone, Copy)]
pub struct Paged {
    pub reply: Reply,
    pub tally: Tally,
}

// What a run without a fault comes to: how many bytes its answers have, and their tally.
#[derive(Clone, Copy)]
struct Answered {
    size: usize,
    tally: Tally,
}

// What a query comes to: the place after its answer, and whether it is accepted. A query that is not has an answer, too, so this is no `Option`.
#[derive(Clone, Copy)]
struct Verdict {
    next: usize,
    accepted: bool,
}

// The answers to the queries of a run, written into the output. A call that is refused gives the tally back as it was.
pub fn page(book: &[u8], run: &[u8], out: &mut [u8], tally: Tally) -> Paged
    ensures { Tallies (paging book.now run.now) (verdicts book.now run.now) out.old tally result.reply out.new result.tally }
{
    let mut left = tally;
    let reply = answer_page(book, run, out, &mut left).unwrap_or_else(Reply::from);
    Paged { reply, tally: left }
}

// The same, with the tally lent: a refusal leaves it as it was.
fn answer_page(
    bytes: &[u8],
    run: &[u8],
    out: &mut [u8],
    tally: &mut Tally,
) -> Result<Reply, Refusal>
    ensures { Tallies (paging bytes.now run.now) (verdicts bytes.now run.now) out.old tally.old (reply_of reply result) out.new tally.new }
{
    let mut book = RuleBook::new();
    read_book(bytes, &mut book)?;
    let mut needs = Needs::new();
    settle(&book, &mut needs);
    let table = Admits::of(&needs.table.admits);
    give(run, &mut book, &table, out, tally)
}

// The page of a valid book, against its final table: written from the output's start, or the run's first fault, or 9 where the output is too short. Each
// query is read over the book's own.
fn give(
    run: &[u8],
    book: &mut RuleBook,
    table: &Admits,
    out: &mut [u8],
    tally: &mut Tally,
) -> Result<Reply, Refusal>
    requires { SomeLent book.old table.now }
    ensures { Gives book.old table.now run.now out.old tally.old (reply_of reply result) out.new tally.new }
{
    let ar = Arities {
        list: &book.arities[..book.preds as usize],
    };
    let mut image = [0u8; LONGEST_PAGE];
    // By `map_err` and `?` the proof did not close.
    let a = match answer_run(run, ar, table, &mut book.rules, &mut image) {
        Ok(a) => a,
        Err(f) => return Err(Refusal::Fault(f.within(run))),
    };
    let r = Reply::in_room(a.size, 0, out.len())?;
    put_bytes(out, 0, &image[..a.size]);
    *tally = a.tally;
    Ok(r)
}

// The answers to the queries of a run, one after the other, and their tally from zero.
fn answer_run(
    run: &[u8],
    ar: Arities,
    table: &Admits,
    rules: &mut [u64; RULES_SIZE],
    image: &mut [u8; LONGEST_PAGE],
) -> Result<Answered, FaultFromEnd>
    ensures { RunAnswered ar.entry.list.now run.now table.now result image.new }
{
    let mut tally = Tally {
        accepted: 0,
        turned_away: 0,
    };
    let mut left = run;
    let mut n: usize = 0;
    let mut size: usize = 0;
    while is_mark(left, b"QU") {
        if MAX_QUERIES <= n {
            return Err(wrong(Fault::TooMany, left));
        }
        left = read_page_query(left, ar, rules)?;
        let v = answer_query(&Clause::at(rules, MAX_CLAUSES), table, image, size);
        tally = stepped(tally, v.accepted);
        size = v.next;
        n += 1;
    }
    run_end(left, Phase::Queries)?;
    Ok(Answered { size, tally })
}

// The query whose record these bytes of the run begin with, stored where the book's own is.
fn read_page_query<'a>(
    s: &'a [u8],
    ar: Arities,
    rules: &mut [u64; RULES_SIZE],
) -> Result<&'a [u8], FaultFromEnd>
    requires { 2 ≤ length s.now }
    ensures { QueryRead ar.entry.list.now s.now result rules.new }
{
    let left = read_body(&s[2..], ar, rules, MAX_CLAUSES)?;
    ended(left, Phase::PageQuery, b"QU")?;
    Ok(left)
}

// The answer to a query, from a place on. It depends on the table and the query alone, and has at most 12 bytes: 0, a mark, n and eight places.
fn answer_query(query: &Clause, table: &Admits, out: &mut [u8], at: usize) -> Verdict
    requires { (callable query.now.body ≡ true) × (length query.now.body ≤ max_subgoals) × (at + 12 ≤ length out.old) }
    ensures wrote { Wrote out.old out.new at result.next (answer table.now query.now.body) }
    ensures accepted_value { (result.accepted ≡ accepts table.now query.now.body) × (result.next ≤ at + 12) }
{
    let order = first_order(query, table, 0);
    let next = put_answer(out, at, order);
    Verdict {
        next,
        accepted: order.is_some(),
    }
}

// "a byte 0 or 7 and, after 0, its `QO` record"
fn put_answer(out: &mut [u8], at: usize, order: Option<Order>) -> usize
    requires { Room out.old at (answered (order_of order)) }
    ensures { Wrote out.old out.new at result (answered (order_of order)) }
{
    match order {
        Some(o) => {
            let p = put_byte(out, at, 0);
            put_query(out, p, o.places())
        }
        None => put_byte(out, at, 7),
    }
}
