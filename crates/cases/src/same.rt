// The kind `same`: the plan of a book, and that of the book closed over a set. Document 02, W10: where the set is self-contained, the second is what is left
// of the first, the record of the query and those of the clauses that stay, under their new numbers. Where it is not that, the word `differs` is added.
ghost use Rattle.std.specs.Prelude.{◌<◌, length};
ghost use Rattle.io.specs.Counts.{IsPrefixLen};

use crate::show;
use book::held::RuleBook;
use book::limits::MAX_CLAUSES;
use lines::STDOUT_FILENO;
use masks::constraint;

// The plan of the book of a line, the book closed over its set, and the plan of that; where it cannot be closed, the closing's reply.
pub fn results(line: &[u8]) {
    show::closed(line, |bytes, set, r, out| {
        if r.number != 0 {
            show::reply(r, 2);
            show::spoiled(r, out);
            return;
        }
        let mut full = show::fresh();
        let f = plan::plan(bytes, &mut full);
        show::reply(f, 1);
        show::output(f, &full);
        show::output(r, out);
        show_left(
            show::part(r, out),
            f.number,
            show::part(f, &full),
            &numbers(bytes, set),
        );
    });
}

// The plan of a closed book, and whether it is another than what is left of the full one, whose reply's number is given.
fn show_left(closed: &[u8], number: u32, full: &[u8], numbers: &[Option<u8>; MAX_CLAUSES]) {
    let mut out = show::fresh();
    let r = plan::plan(closed, &mut out);
    show::reply(r, 1);
    show::output(r, &out);
    if r.number != number || !is_left(show::part(r, &out), full, numbers) {
        io::write_all(STDOUT_FILENO, b" differs");
    }
}

// The numbers that the clauses of a valid book have when it is closed over a set; one that is dropped has none.
fn numbers(bytes: &[u8], set: u64) -> [Option<u8>; MAX_CLAUSES] {
    let mut book = RuleBook::new();
    let _ = reading::read_book(bytes, &mut book);
    moved_down(&book, set)
}

// Each clause of a book that is of no chosen predicate takes the next number.
fn moved_down(book: &RuleBook, set: u64) -> [Option<u8>; MAX_CLAUSES] {
    let mut numbers = [None; MAX_CLAUSES];
    let mut next: u8 = 0;
    for k in 0..MAX_CLAUSES {
        let p = book.clause(k).head().predicate() % 64;
        if !constraint::has_member(set, p) {
            numbers[k] = Some(next);
            next += 1;
        }
    }
    numbers
}

// The bytes are what is left of a plan where its clauses have other numbers, or none.
fn is_left(mut left: &[u8], mut full: &[u8], numbers: &[Option<u8>; MAX_CLAUSES]) -> bool {
    while !full.is_empty() {
        let (record, rest) = full.split_at(record_len(full));
        full = rest;
        if let Some(number) = third(record, numbers) {
            let Some((bytes, rest)) = left.split_at_checked(record.len()) else {
                return false;
            };
            if !is_record(bytes, record, number) {
                return false;
            }
            left = rest;
        }
    }
    left.is_empty()
}

// How long the first record of a plan is: `QO`, n, n places, or `CO`, clause, pattern, n, n places.
fn record_len(plan: &[u8]) -> usize
    requires { 0 < length plan.now }
    ensures { (0 < result) × IsPrefixLen result plan.now }
{
    let n = if plan[0] == b'Q' { 2 } else { 4 };
    lines::clip(n + 1 + usize::from(byte(plan, n)), plan)
}

// What is left of the third byte of a record: n of the query's, and of a clause's its number.
fn third(record: &[u8], numbers: &[Option<u8>; MAX_CLAUSES]) -> Option<u8> {
    let old = byte(record, 2);
    if byte(record, 0) == b'Q' {
        return Some(old);
    }
    numbers[usize::from(old % 64)]
}

// The bytes are those of a record, but for the third.
fn is_record(bytes: &[u8], record: &[u8], third: u8) -> bool {
    match (bytes, record) {
        ([a, b, x, rest @ ..], [c, d, _, more @ ..]) => {
            a == c && b == d && *x == third && rest == more
        }
        _ => bytes == record,
    }
}

// A byte, or 0 past the end.
fn byte(s: &[u8], at: usize) -> u8 {
    s.get(at).copied().unwrap_or(0)
}
