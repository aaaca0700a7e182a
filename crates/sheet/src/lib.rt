// The printed sheet of a book: what each predicate needs, the rounds, and the orders, as lines of text.
#![tactic(auto)]

pub mod line;

ghost use Rattle.std.specs.Prelude.{◌≡◌, ◌+◌, ◌≤◌, length};
ghost use Rattle.masks.specs.Outcome.{Answers, nine, reply_of};
ghost use Rattle.book.specs.Format.{judge};
ghost use Rattle.writing.specs.Wrote.{Room, Wrote};
ghost use Rattle.printing.specs.Sheet.{line, field, judged_sheet, refusal_line, printing};
ghost use Rattle.sheet.specs.Records.{listed_count, line_in, lines_in, judged_orders};

use crate::line::{put_field, put_fields, put_listing};
use book::limits::{LONGEST, LONGEST_PLAN, LONGEST_SHEET, LONGEST_TABLE};
use masks::reply::{Reply, TooShort};
use needs::analyse;
use plan::plan;
use writing::put::{put_byte, put_bytes};

// W6: "`orders` cuts at 6,987": as many bytes of a book are looked at, one more than the longest has.
pub const BOOK_SIZE: usize = LONGEST + 1;

// How a record of an image is printed: the letter of its line, how many of its fields lead, what stands for none listed, and how many trail.
#[derive(Clone, Copy)]
struct Form<'a> {
    letter: u8,
    lead: usize,
    none: &'a [u8],
    trail: usize,
    ghost small: { lead + trail ≤ 2 },
}

// Of an image of a table: a `C` line for each record.
const NEEDS: Form<'static> = Form {
    letter: b'C',
    lead: 1,
    none: b" none",
    trail: 1,
};

// Of an image of a plan: the query's record has a `Q` line, each other an `O` line.
const QUERY: Form<'static> = Form {
    letter: b'Q',
    lead: 0,
    none: b"",
    trail: 0,
};

const ORDERS: Form<'static> = Form {
    letter: b'O',
    lead: 2,
    none: b"",
    trail: 0,
};

// The sheet of a book, written into the output. Every string of bytes has one; a book with a fault has one line, its number and place.
pub fn sheet(book: &[u8], out: &mut [u8]) -> Reply
    ensures { Answers (printing book.now) out.old result out.new }
{
    printed(book, out).unwrap_or_else(Reply::from)
}

fn printed(book: &[u8], out: &mut [u8]) -> Result<Reply, TooShort>
    ensures { Answers (printing book.now) out.old (reply_of nine result) out.new }
{
    let n = book.len().min(BOOK_SIZE);
    let mut text = [0u8; LONGEST_SHEET];
    let k = put_sheet(&mut text, &book[..n]);
    let r = Reply::in_room(k, 0, out.len())?;
    put_bytes(out, 0, &text[..k]);
    Ok(r)
}

// The `C` lines and the `R` line, and what follows them; or the one line of a fault. A reply is read by its number, as it is laid out for C.
fn put_sheet(text: &mut [u8; LONGEST_SHEET], book: &[u8]) -> usize
    ensures { Wrote text.old text.new 0 result (judged_sheet (judge book.now)) }
{
    let mut table = [0u8; LONGEST_TABLE];
    let r = analyse(book, &mut table);
    if r.number != 0 {
        return put_refusal(text, 0, r.number, r.value);
    }
    let n = r.value as usize;
    let p = put_lines(text, 0, &NEEDS, &table[..n]);
    let q = put_rounds(text, p, r.rounds);
    put_orders(text, q, book)
}

// The `Q` line and the `O` lines of a book, or that it has no orders.
fn put_orders(text: &mut [u8], at: usize, book: &[u8]) -> usize
    requires { Room text.old at (judged_orders (judge book.now)) }
    ensures { Wrote text.old text.new at result (judged_orders (judge book.now)) }
{
    let mut image = [0u8; LONGEST_PLAN];
    let r = plan(book, &mut image);
    if r.number != 0 {
        return put_refusal(text, at, r.number, r.value);
    }
    let n = r.value as usize;
    let orders = &image[..n];
    let p = put_line(text, at, &QUERY, orders);
    let rows = 3 + listed(orders, &QUERY);
    put_lines(text, p, &ORDERS, &orders[rows..])
}

// "`X`, number, value"
fn put_refusal(text: &mut [u8], at: usize, number: u32, value: u64) -> usize
    requires { Room text.old at (refusal_line number value) }
    ensures { Wrote text.old text.new at result (refusal_line number value) }
{
    let p = put_byte(text, at, b'X');
    let q = put_field(text, p, b" ", number as u64);
    let r = put_field(text, q, b" ", value);
    put_byte(text, r, b'\n')
}

// "one `R` line (rounds)"
fn put_rounds(text: &mut [u8], at: usize, rounds: u64) -> usize
    requires { Room text.old at (line 82 (field rounds)) }
    ensures { Wrote text.old text.new at result (line 82 (field rounds)) }
{
    let p = put_byte(text, at, b'R');
    let q = put_field(text, p, b" ", rounds);
    put_byte(text, q, b'\n')
}

// A line for each record of an image.
fn put_lines(text: &mut [u8], at: usize, form: &Form<'_>, image: &[u8]) -> usize
    requires { Room text.old at (lines_in form.now.letter form.now.lead form.now.none.now form.now.trail (length image.now) image.now) }
    ensures { Wrote text.old text.new at result (lines_in form.now.letter form.now.lead form.now.none.now form.now.trail (length image.now) image.now) }
{
    let mut p = at;
    let mut rest = image;
    while 3 + form.lead + form.trail <= rest.len() {
        p = put_line(text, p, form, rest);
        rest = &rest[3 + form.lead + form.trail + listed(rest, form)..];
    }
    p
}

// How many fields the first record of an image lists.
fn listed(image: &[u8], form: &Form<'_>) -> usize
    requires { 3 + form.now.lead + form.now.trail ≤ length image.now }
    ensures { result ≡ listed_count form.now.lead form.now.trail image.now }
{
    usize::from(image[2 + form.lead]).min(image.len() - (3 + form.lead + form.trail))
}

// The line of the first record of an image.
fn put_line(text: &mut [u8], at: usize, form: &Form<'_>, image: &[u8]) -> usize
    requires { (3 + form.now.lead + form.now.trail ≤ length image.now) × Room text.old at (line_in form.now.letter form.now.lead form.now.none.now form.now.trail image.now) }
    ensures { Wrote text.old text.new at result (line_in form.now.letter form.now.lead form.now.none.now form.now.trail image.now) }
{
    let from = 3 + form.lead;
    let end = from + listed(image, form);
    let p = put_byte(text, at, form.letter);
    let q = put_fields(text, p, b" ", &image[2..2 + form.lead]);
    let r = put_listing(text, q, form.none, &image[from..end]);
    let s = put_fields(text, r, b" /", &image[end..end + form.trail]);
    put_byte(text, s, b'\n')
}
