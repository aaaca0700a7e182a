// Patterns and constraints. Here are the two public operations, the choice and the joint of two constraints, and what they call; constraints as sets
// of masks and their written form are in `constraint`, all patterns tried at once in `patterns`, the answer that every operation gives in `reply`, the
// numbers in `limits`.
#![tactic(auto)]

pub mod constraint;
pub mod limits;
pub mod members;
pub mod patterns;
pub mod reply;

ghost use Rattle.std.specs.Prelude.{◌≡◌, true};
ghost use Rattle.masks.specs.Limits.{all_patterns};
ghost use Rattle.masks.specs.Constraint.{in_range, choice, joint};
ghost use Rattle.masks.specs.Set.{members};
ghost use Rattle.masks.specs.Outcome.{Answers, reply_of};
ghost use Rattle.masks.specs.Joining.{list_fault, fault, combined, joining};
ghost use Rattle.masks.specs.Unjoined.{Finds, reply};

use crate::limits::{MAX_ARITY, MAX_MASKS};
use crate::reply::{Reply, TooShort};

// "Two constraints of one arity are combined in two ways."
#[derive(Clone, Copy)]
pub enum Way {
    Choice,
    Joint,
}

// Why two lists of masks are not joined: "arity over 6 or a mask out of range is 4, a list over 20 is 5, .. then 9".
#[derive(Clone, Copy)]
pub enum Unjoined {
    OutOfRange,
    TooMany,
    TooShort(TooShort),
}

impl From<TooShort> for Unjoined {
    ghost use Rattle.std.specs.Prelude.{◌≡◌};
    ghost use Rattle.masks.specs.declared.Unjoined.TheVariants.{TooShort};

    ghost from_gives = { λ e r. r ≡ TooShort e };

    fn from(e: TooShort) -> Unjoined {
        Unjoined::TooShort(e)
    }
}

impl From<Unjoined> for Reply {
    ghost use Rattle.std.specs.Prelude.{◌≡◌};
    ghost use Rattle.masks.specs.Unjoined.{reply};

    ghost from_gives = { λ e r. r ≡ reply e };

    fn from(e: Unjoined) -> Reply {
        match e {
            Unjoined::OutOfRange => Reply::refused(4, 0),
            Unjoined::TooMany => Reply::refused(5, 0),
            Unjoined::TooShort(short) => Reply::from(short),
        }
    }
}

// The choice of two lists of masks, written into the output: "fitted by a pattern that fits either".
pub fn choice(arity: u8, first: &[u8], second: &[u8], out: &mut [u8]) -> Reply
    ensures { Answers (joining Way.Choice arity first.now second.now) out.old result out.new }
{
    join(Way::Choice, arity, first, second, out)
}

// The joint of two lists of masks, written into the output: fitted by a pattern "that fits each".
pub fn joint(arity: u8, first: &[u8], second: &[u8], out: &mut [u8]) -> Reply
    ensures { Answers (joining Way.Joint arity first.now second.now) out.old result out.new }
{
    join(Way::Joint, arity, first, second, out)
}

// Either of the two: the refusal of what is given, or the masks of the result.
fn join(way: Way, arity: u8, first: &[u8], second: &[u8], out: &mut [u8]) -> Reply
    ensures { Answers (joining way arity first.now second.now) out.old result out.new }
{
    joined(way, arity, first, second, out).unwrap_or_else(Reply::from)
}

fn joined(
    way: Way,
    arity: u8,
    first: &[u8],
    second: &[u8],
    out: &mut [u8],
) -> Result<Reply, Unjoined>
    ensures { Answers (joining way arity first.now second.now) out.old (reply_of reply result) out.new }
{
    first_fault(arity, first, second)?;
    let c = combine(way, Masks { list: first }, Masks { list: second });
    let r = Reply::in_room(constraint::count(c), 0, out.len())?;
    constraint::put_masks(out, 0, c);
    Ok(r)
}

// "tried as arity, first list's length, its masks, the second's": the first fault.
fn first_fault(arity: u8, first: &[u8], second: &[u8]) -> Result<(), Unjoined>
    ensures { Finds result (fault arity first.now second.now) }
{
    if MAX_ARITY < arity {
        return Err(Unjoined::OutOfRange);
    }
    let limit = constraint::patterns(arity);
    list_fault(first, limit)?;
    list_fault(second, limit)
}

// The fault of one list: too long, or a mask that is no pattern.
fn list_fault(masks: &[u8], limit: u8) -> Result<(), Unjoined>
    ensures { Finds result (list_fault limit masks.now) }
{
    if MAX_MASKS < masks.len() {
        return Err(Unjoined::TooMany);
    }
    for &m in masks {
        if limit <= m {
            return Err(Unjoined::OutOfRange);
        }
    }
    Ok(())
}

// A list of masks of six positions, in any order, with repeats.
#[derive(Clone, Copy)]
struct Masks<'a> {
    list: &'a [u8],
    ghost in_range: { in_range all_patterns list.now ≡ true },
}

// Two lists of masks combined one way or the other.
fn combine(way: Way, first: Masks, second: Masks) -> u64
    ensures { members result ≡ combined way first.entry.list.now second.entry.list.now }
{
    // A `match` and no closure: the promise speaks of the way, which a closure would have to bring with it.
    match way {
        Way::Choice => choice_of(first, second),
        Way::Joint => joint_of(first, second),
    }
}

// The choice: the masks of both.
fn choice_of(first: Masks, second: Masks) -> u64
    ensures { members result ≡ choice first.entry.list.now second.entry.list.now }
{
    let set = constraint::with_unions(0, 0, first.list);
    constraint::written(constraint::with_unions(set, 0, second.list))
}

// The joint: the union of each mask of one with each of the other.
fn joint_of(first: Masks, second: Masks) -> u64
    ensures { members result ≡ joint first.entry.list.now second.entry.list.now }
{
    let mut set: u64 = 0;
    for &m in first.list {
        set = constraint::with_unions(set, m, second.list);
    }
    constraint::written(set)
}
