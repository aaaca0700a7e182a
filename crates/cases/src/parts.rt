// The kind `parts`: closing in parts against closing at once. Each comparison prints its word and `same` or `differs`:
//
//     again     closing the result once more over SET gives the result
//     parts     closing BOOK over the even members of SET, and what comes of it over the odd ones, gives the result
//     turned    the same, the odd ones first
//     table     the analysis of the result writes what that of BOOK writes
//     none      closing BOOK over the empty set gives BOOK
//     accepted  the plan refuses both the result and BOOK with 7, or neither
use crate::show;
use crate::show::{BOOK, OLD};
use lines::STDOUT_FILENO;

// The even numbers below 64.
const EVEN: u64 = 0x5555_5555_5555_5555;

// The reply to closing the book of a line over its set, and where that is done the six comparisons.
pub fn results(line: &[u8]) {
    show::closed(line, |bytes, set, r, out| {
        show::reply(r, 2);
        show::spoiled(r, out);
        if r.number == 0 {
            compare(bytes, set, show::part(r, out));
        }
    });
}

// A book and what closing it over a set gave, in all six ways.
fn compare(bytes: &[u8], set: u64, closed: &[u8]) {
    let even = set & EVEN;
    let odd = set ^ even;
    show_same(b" again", closes_to(closed, set, closed));
    show_same(b" parts", closes_in_parts(bytes, even, odd, closed));
    show_same(b" turned", closes_in_parts(bytes, odd, even, closed));
    show_same(b" table", same_table(bytes, closed));
    show_same(b" none", closes_to(bytes, 0, bytes));
    show_same(b" accepted", accepted(bytes) == accepted(closed));
}

// Closing over one set, and what comes of it over another, gives these bytes.
fn closes_in_parts(bytes: &[u8], first: u64, then: u64, to: &[u8]) -> bool {
    let mut out = [OLD; BOOK];
    let r = closing::close(bytes, first, &mut out);
    r.number == 0 && closes_to(show::part(r, &out), then, to)
}

// Closing over a set gives these bytes.
fn closes_to(bytes: &[u8], set: u64, to: &[u8]) -> bool {
    let mut out = [OLD; BOOK];
    let r = closing::close(bytes, set, &mut out);
    r.number == 0 && show::part(r, &out) == to
}

// The analysis writes the same of both.
fn same_table(xs: &[u8], ys: &[u8]) -> bool {
    let mut x_out = [OLD; BOOK];
    let x = needs::analyse(xs, &mut x_out);
    let mut y_out = [OLD; BOOK];
    let y = needs::analyse(ys, &mut y_out);
    x.number == 0 && y.number == 0 && show::part(x, &x_out) == show::part(y, &y_out)
}

// The plan does not refuse a valid book with 7, which it tries before the room.
fn accepted(bytes: &[u8]) -> bool {
    let mut out = [OLD; 1];
    plan::plan(bytes, &mut out).number != 7
}

// Prints a word, and whether what it stands for is the same.
fn show_same(word: &[u8], same: bool) {
    io::write_all(STDOUT_FILENO, word);
    if same {
        io::write_all(STDOUT_FILENO, b" same");
    } else {
        io::write_all(STDOUT_FILENO, b" differs");
    }
}
