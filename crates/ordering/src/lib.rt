// A body's first good order, and what is bound on the way.
//
// What is bound is a word: bit v is set where variable v is bound. Inside an order it is a `Bound`, whose word tells of literals and wildcards, too.
#![tactic(auto)]

pub mod admits;
mod bound;
mod order;

ghost use Rattle.std.specs.Prelude.{◌≡◌, true, ◌≤◌, ◌<◌, ◌^◌, length, IfSome};
ghost use Rattle.book.specs.Limits.{max_subgoals};
ghost use Rattle.book.specs.Held.{head_in, call_in};
ghost use Rattle.book.specs.Sets.{callable};
ghost use Rattle.ordering.specs.Adorn.{bind_var, head_bound};
ghost use Rattle.ordering.specs.Good.{ready_at, first_good};
ghost use Rattle.ordering.specs.Asks.{patterns_in};
ghost use Rattle.ordering.specs.Held.{order_of, places_of, patterns_of, bound_of, picked, place_of, can_run, PatternAt};

use crate::admits::Admits;
use crate::bound::{Bound, power};
pub use crate::order::Order;
use book::call::Call;
use book::clause::Clause;
use book::limits::{LAST_VARIABLE, MAX_SUBGOALS};
use masks::constraint::has_member;
use masks::members::Members;

// A place, and the pattern of the subgoal there.
#[derive(Clone, Copy)]
struct Pick {
    place: u8,
    pattern: u8,
}

// "the smallest list of subgoal places .. among the orders good against" a table, of the subgoals of the clause with these variables bound at the
// start: at each turn the first place that is ready. Where none is, no order is good.
pub fn first_order(clause: &Clause, table: &Admits, bound: u16) -> Option<Order>
    requires { callable clause.now.body ≡ true }
    ensures order { order_of result ≡ first_good table.now clause.now.body (bound_of bound) }
    ensures patterns { IfSome result (λ o. patterns_of o ≡ patterns_in clause.now.body (bound_of bound) (places_of o)) }
{
    let n = clause.subgoals();
    let mut places = [0u8; MAX_SUBGOALS];
    let mut patterns = [0u8; MAX_SUBGOALS];
    let mut left = power(n as u64) - 1;
    let mut now = Bound::of(bound);
    for i in 0..n {
        let t = first_ready(clause, table, &now, left)?;
        places[i] = t.place;
        patterns[i] = t.pattern;
        now = now.after(clause.subgoal(t.place as usize));
        left ^= power(t.place as u64);
    }
    let n = n as u8;
    Some(Order {
        n,
        places,
        patterns,
    })
}

// The first place of the clause that is left and ready, with its subgoal's pattern.
fn first_ready(clause: &Clause, table: &Admits, bound: &Bound, left: u32) -> Option<Pick>
    requires { (callable clause.now.body ≡ true) × (length clause.now.body ≤ max_subgoals) × (left < 2 ^ length clause.now.body) }
    ensures place { place_of result ≡ picked left (ready_at table.now clause.now.body bound.now) }
    ensures pattern { IfSome result (PatternAt clause.now.body bound.now) }
{
    for place in Members::of(left as u64) {
        let s = clause.subgoal(place as usize);
        let pattern = bound.pattern(s);
        if can_run(table.patterns(s.predicate()), s, pattern) {
            return Some(Pick { place, pattern });
        }
    }
    None
}

// A subgoal with this pattern is ready: the set of its predicate has the pattern and, where the subgoal is negated, every argument is bound.
fn can_run(set: u64, s: Call, a: u8) -> bool
    requires { a < 64 }
    ensures { result ≡ can_run set (call_in s.word) a }
{
    has_member(set, a) && (!s.is_negated() || a as u32 + 1 == power(s.arguments() as u64))
}

// What is bound under a head pattern: "variables at bound head positions start as bound". Bit i of the pattern is that of position i.
pub fn head_bound(head: Call, pattern: u8) -> u16
    ensures { bound_of result ≡ head_bound (head_in head.word).args pattern }
{
    let mut b: u16 = 0;
    for i in 0..head.arguments() {
        if (pattern >> i) % 2 == 1 {
            b = bind_var(b, head.argument(i));
        }
    }
    b
}

// A variable is bound from now on; a literal is none, and a wildcard "binds nothing".
fn bind_var(bound: u16, v: u8) -> u16
    ensures { bound_of result ≡ bind_var (bound_of bound) v }
{
    if v <= LAST_VARIABLE {
        bound | (1u16 << v)
    } else {
        bound
    }
}
