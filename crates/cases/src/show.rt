// What a call is lent, and what is printed of its reply. Every print begins with a space.
ghost use Rattle.std.specs.Prelude.{◌≡◌, suc, length};
ghost use Rattle.book.specs.Limits.{longest_sheet};

use book::limits::LONGEST_SHEET;
use lines::STDOUT_FILENO;
use masks::reply::Reply;

// The longest book that is taken from a line, the longest run of a page, and the longest list of masks.
pub const BOOK: usize = 8192;

pub const RUN: usize = 20480;

pub const MASKS: usize = 32;

// More than any table, plan, closed book or sheet takes.
pub const ROOM: usize = LONGEST_SHEET + 1;

// What a room holds before a call.
pub const OLD: u8 = 238;

// A room before a call.
pub fn fresh() -> [u8; ROOM]
    ensures { suc longest_sheet ≡ length result }
{
    [OLD; ROOM]
}

// The bytes that field k of a line spells, in a room that is lent.
pub fn bytes<'a>(line: &[u8], k: usize, room: &'a mut [u8]) -> &'a [u8] {
    let n = lines::field_bytes(line, k, room);
    &room[..n]
}

// The book of a line, its set, and what closing the one over the other comes to.
pub fn closed<F: Fn(&[u8], u64, Reply, &[u8; ROOM])>(line: &[u8], then: F)
    requires { F.IsAlwaysCallable then }
{
    let mut raw = [0u8; BOOK];
    let book = bytes(line, 2, &mut raw);
    let set = lines::field_hex(line, 3);
    let mut out = fresh();
    let r = closing::close(book, set, &mut out);
    then(book, set, r, &out);
}

// Prints the first `count` of a reply's number, value and rounds.
pub fn reply(r: Reply, count: usize) {
    for n in [u64::from(r.number), r.value, r.rounds].iter().take(count) {
        lines::show_number(*n);
    }
}

// Prints the bytes that a reply says are written, and whether another byte of the room changed.
pub fn output(r: Reply, out: &[u8; ROOM]) {
    lines::show_bytes(part(r, out));
    spoiled(r, out);
}

// Prints `spoiled` where a byte changed that the reply does not say is written.
pub fn spoiled(r: Reply, out: &[u8; ROOM]) {
    if changed(written(r), out) {
        io::write_all(STDOUT_FILENO, b" spoiled");
    }
}

// Prints that a line asks for nothing known.
pub fn unknown() {
    io::write_all(STDOUT_FILENO, b" ?");
}

// How many bytes a reply says are written.
pub fn written(r: Reply) -> usize {
    if r.number == 0 { r.value as usize } else { 0 }
}

// The bytes that a reply says are written.
pub fn part(r: Reply, out: &[u8]) -> &[u8] {
    let k = lines::clip(written(r), out);
    &out[..k]
}

// A byte from `at` on is not as it was.
fn changed(at: usize, out: &[u8; ROOM]) -> bool {
    out.iter().skip(at).any(|&x| x != OLD)
}
