// The fields of records, byte by byte from the left, and the records that are not runs of others: a predicate, a mode, a subgoal, a head. A call is read into
// the word that holds it, and a mode into the array that is lent for all. What is read comes with the bytes that are left after it, or there is a fault.
ghost use Rattle.std.specs.Prelude.{◌≡◌, ◌||◌, [], ◌+◌, ◌*◌, ◌^◌, ◌≤◌, ◌<◌, length, set, IfOk};
ghost use Rattle.masks.specs.Limits.{max_arity};
ghost use Rattle.book.specs.Format.{allows, byte, bytes, fields, subgoal, masks, mode_fields};
ghost use Rattle.book.specs.declared.range.Range.TheVariants.{AtMost, NoWildcard};
ghost use Rattle.book.specs.Held.{count_in, negated_in, head_in, call_in};
ghost use Rattle.records.specs.Read.{Reads, value, rest};
ghost use Rattle.records.specs.Stored.{arguments, ReadsCall, ReadsBytes, ReadsMasks, ReadsMode};

use crate::arities::Arities;
use crate::fault::{FaultFromEnd, wrong};
use crate::turn::is_mark;
use book::fault::Fault;
use book::limits::{LAST_VARIABLE, LITERAL, MODE_SIZE, NEGATED, WILDCARD};
use book::range::Range;
use masks::constraint::patterns;
use masks::limits::{MAX_ARITY, MAX_MASKS};

// The fields of a predicate's record: its arity.
pub fn read_predicate<'a>(s: &'a [u8]) -> Result<(u8, &'a [u8]), FaultFromEnd>
    ensures { Reads rest result value (byte (AtMost max_arity) s.now) }
{
    read_byte(s, Range::AtMost(MAX_ARITY))
}

// The fields of a mode's record, for a predicate not below low, stored where the modes have room: its predicate. A fault of the predicate comes first, then
// one of the masks; "6: `MO` not rising" is tried last.
pub fn read_mode<'a>(
    s: &'a [u8],
    ar: Arities,
    low: u8,
    modes: &mut [u8],
) -> Result<(u8, &'a [u8]), FaultFromEnd>
    ensures { ReadsMode result modes.old modes.new (mode_fields ar.entry.list.now low s.now) }
{
    let (pred, after) = read_byte(s, Range::Below(ar.predicates()))?;
    let end = read_masks(after, patterns(ar.arity(pred)), pred, modes)?;
    if pred < low {
        return Err(wrong(Fault::Clash, s));
    }
    Ok((pred, end))
}

// The fields of a clause's record: its head.
pub fn read_head<'a>(s: &'a [u8], ar: Arities) -> Result<(u64, &'a [u8]), FaultFromEnd>
    ensures { Reads rest result (λ v. head_in (value v)) (fields NoWildcard ar.entry.list.now s.now) }
{
    read_call(s, ar, Range::NoWildcard, false)
}

// The subgoal whose record these bytes begin with, `SG` or `NG`: "254 in an `NG` is 4".
pub fn read_subgoal<'a>(s: &'a [u8], ar: Arities) -> Result<(u64, &'a [u8]), FaultFromEnd>
    requires { 2 ≤ length s.now }
    ensures { Reads rest result (λ v. call_in (value v)) (subgoal ar.entry.list.now [] s.now) }
{
    if is_mark(s, b"NG") {
        read_call(&s[2..], ar, Range::NoWildcard, true)
    } else {
        read_call(&s[2..], ar, Range::Argument, false)
    }
}

// "n, n masks", each one of so many patterns, stored as the mode of predicate p.
fn read_masks<'a>(
    s: &'a [u8],
    patterns: u8,
    p: u8,
    modes: &mut [u8],
) -> Result<&'a [u8], FaultFromEnd>
    ensures { ReadsMasks result p modes.old modes.new (masks patterns s.now) }
{
    let (n, after) = read_byte(s, Range::AtMost(MAX_MASKS as u8))?;
    let start = p as usize * MODE_SIZE;
    put(modes, start, 1);
    put(modes, start + 1, n);
    read_bytes(after, n, Range::Below(patterns), modes, start + 2)
}

// A predicate and as many arguments as its arity, each in a range, into the word of a call that is negated or not.
fn read_call<'a>(
    s: &'a [u8],
    ar: Arities,
    range: Range,
    negated: bool,
) -> Result<(u64, &'a [u8]), FaultFromEnd>
    ensures { ReadsCall result negated (fields range ar.entry.list.now s.now) }
{
    let (pred, after) = read_byte(s, Range::Below(ar.predicates()))?;
    read_args(after, pred, ar.arity(pred), range, negated)
}

// The n arguments of a call of a predicate. The word of the call has them from its low end on, above the predicate and n.
fn read_args<'a>(
    s: &'a [u8],
    pred: u8,
    n: u8,
    range: Range,
    negated: bool,
) -> Result<(u64, &'a [u8]), FaultFromEnd>
    requires { n ≤ max_arity }
    ensures { ReadsCall result negated (arguments range pred n s.now) }
{
    let count = signed(n, negated);
    let mut call = count as u64 * 256 + pred as u64;
    let mut left = s;
    // `16 + 8 * i` in its place makes a check 4 to 8 percent slower.
    let mut shift: u32 = 16;
    for i in 0..n {
        let (x, after) = read_byte(left, range)?;
        call = with_byte(call, shift, x);
        shift += 8;
        left = after;
    }
    Ok((call, left))
}

// The byte of a word that holds the number of a call's arguments, and whether it is negated.
fn signed(n: u8, negated: bool) -> u8
    requires { n ≤ max_arity }
    ensures { (count_in result ≡ n) × (negated_in result ≡ negated) }
{
    if negated { n + NEGATED } else { n }
}

// A word that has no bits from a place on, with a byte there.
fn with_byte(w: u64, shift: u32, x: u8) -> u64
    requires { (shift ≤ 56) × (w < 2 ^ shift) }
    ensures { result ≡ w + x * 2 ^ shift }
{
    w + ((x as u64) << shift)
}

// k bytes, stored from a place on where there is room.
fn read_bytes<'a>(
    s: &'a [u8],
    k: u8,
    range: Range,
    out: &mut [u8],
    start: usize,
) -> Result<&'a [u8], FaultFromEnd>
    requires { start + k < 2 ^ 64 }
    ensures { ReadsBytes result start out.old out.new (bytes range k [] s.now) }
{
    let mut left = s;
    for i in 0..k as usize {
        let (x, after) = read_byte(left, range)?;
        put(out, start + i, x);
        left = after;
    }
    Ok(left)
}

// Stores an element, where there is room for it.
pub fn put<T: Copy>(out: &mut [T], at: usize, x: T)
    ensures { out.new ≡ set out.old at x }
{
    if at < out.len() {
        out[at] = x;
    }
}

// A byte: "present (1) before in range (4)".
fn read_byte<'a>(s: &'a [u8], range: Range) -> Result<(u8, &'a [u8]), FaultFromEnd>
    ensures reads { Reads rest result value (byte range s.now) }
    ensures byte { IfOk result (λ v. value v < 256) }
{
    let Some((&x, after)) = s.split_first() else {
        return Err(wrong(Fault::PastEnd, s));
    };
    if !in_range(range, x) {
        return Err(wrong(Fault::OutOfRange, s));
    }
    Ok((x, after))
}

// "a byte is out of its range: arity, predicate, n, mask, argument".
fn in_range(range: Range, x: u8) -> bool
    ensures { result ≡ allows range x }
{
    match range {
        Range::Below(n) => x < n,
        Range::AtMost(n) => x <= n,
        Range::Argument => x <= LAST_VARIABLE || WILDCARD <= x,
        Range::NoWildcard => x <= LAST_VARIABLE || x == LITERAL,
    }
}
