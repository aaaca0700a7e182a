// The head patterns under which a clause is good, all 64 at once: lane a of a word is its bit a, and stands for head pattern a.
#![tactic(auto)]

ghost use Rattle.std.specs.Prelude.{◌≡◌, true, ◌<◌};
ghost use Rattle.masks.specs.Lists.{all};
ghost use Rattle.masks.specs.Set.{bit_at};
ghost use Rattle.masks.specs.Patterns.{EachLane, Agrees};
ghost use Rattle.book.specs.Limits.{max_predicates};
ghost use Rattle.book.specs.Held.{head_in, call_in};
ghost use Rattle.book.specs.Table.{table_in};
ghost use Rattle.book.specs.Sets.{callable};
ghost use Rattle.ordering.specs.Adorn.{is_bound, pattern_of, head_bound, ready};
ghost use Rattle.ordering.specs.Good.{first_good, is_some, good_clause};
ghost use Rattle.lanes.specs.Lanes.{lane, Binds};
ghost use Rattle.lanes.specs.Passes.{Passed, Placed, RanIn};

use book::call::Call;
use book::clause::Clause;
use book::limits::{LAST_VARIABLE, LITERAL, MAX_PREDICATES, MAX_SUBGOALS, VARIABLES};
use masks::limits::MAX_ARGUMENTS;
use masks::patterns::{ALL, COLUMNS, fit_lanes};

// What a pass over the subgoals comes to: the lanes in which each was ready in its turn, and whether any was placed in a lane where it was not. No `Option`:
// each says something whatever the other is.
#[derive(Clone, Copy)]
pub struct Pass {
    pub good: u64,
    pub moved: bool,
}

// The head patterns under which the clause is good, bit a for pattern a: its subgoals have a good order, and every argument of its head is bound when they
// have run. A variable that a subgoal binds is bound by then, so that asks for the others.
pub fn good_lanes(clause: &Clause, table: &[u64; MAX_PREDICATES]) -> u64
    requires { callable clause.now.body ≡ true }
    ensures { EachLane (λ a. bit_at result a ≡ good_clause (table_in table.now max_predicates) clause.now a) }
{
    let head = clause.head();
    let mut vars = head_lanes(head);
    let good = body_lanes(clause, table, &mut vars);
    let filled = filled_lanes(head, &vars);
    good & filled
}

// The lanes in which the subgoals of the clause have a good order, with these variables bound at the start; and there, those bound when all have run.
// Passes go over the subgoals as they stand, each of which is placed in the lanes in which it is ready. A pass is the last where every lane is good, where
// nothing was placed, and where it has as many before it as there are other subgoals.
fn body_lanes(clause: &Clause, table: &[u64; MAX_PREDICATES], vars: &mut [u64; VARIABLES]) -> u64
    requires { callable clause.now.body ≡ true }
    ensures each_lane { EachLane (λ a. bit_at result a ≡ is_some (first_good (table_in table.now max_predicates) clause.now.body (lane a vars.old))) }
    ensures each_lane_2 { EachLane (λ a. bit_at result a ≡ true → RanIn a clause.now.body vars.old vars.new) }
{
    let mut placed = [0u64; MAX_SUBGOALS];
    for _ in 1..clause.subgoals() {
        let p = one_pass(clause, table, vars, &mut placed);
        if p.good == ALL || !p.moved {
            return p.good;
        }
    }
    one_pass(clause, table, vars, &mut placed).good
}

// One pass over the subgoals of the clause. Those that are placed in every lane are passed over.
fn one_pass(
    clause: &Clause,
    table: &[u64; MAX_PREDICATES],
    vars: &mut [u64; VARIABLES],
    placed: &mut [u64; MAX_SUBGOALS],
) -> Pass
    requires { (callable clause.now.body ≡ true) × Placed (table_in table.now max_predicates) clause.now.body vars.old placed.old }
    ensures passed { Passed (table_in table.now max_predicates) clause.now.body vars.old vars.new result }
    ensures placed { Placed (table_in table.now max_predicates) clause.now.body vars.new placed.new }
{
    let mut good = ALL;
    let mut moved = false;
    for j in 0..clause.subgoals() {
        let before = placed[j];
        if before != ALL {
            let s = clause.subgoal(j);
            let r = ready_lanes(s, table, vars);
            let now = before | r;
            good &= now;
            if now != before {
                placed[j] = now;
                bind_lanes(s, r, vars);
                moved = true;
            }
        }
    }
    Pass { good, moved }
}

// What is bound at the start: lane a is for head pattern a.
fn head_lanes(head: Call) -> [u64; VARIABLES]
    ensures { EachLane (λ a. lane a result ≡ head_bound (head_in head.word).args a) }
{
    let mut vars = [0u64; VARIABLES];
    for i in 0..head.arguments() {
        let v = head.argument(i);
        if v <= LAST_VARIABLE {
            vars[v as usize] |= COLUMNS[i];
        }
    }
    vars
}

// The lanes in which the call can be made: its pattern fits and, where it is negated, every argument is bound.
fn ready_lanes(s: Call, table: &[u64; MAX_PREDICATES], vars: &[u64; VARIABLES]) -> u64
    requires { (call_in s.word).pred < max_predicates }
    ensures { EachLane (λ a. bit_at result a ≡ ready (table_in table.now max_predicates) (lane a vars.now) (call_in s.word)) }
{
    let words = pattern_lanes(s, vars);
    let fits = fit_lanes(table[s.predicate() as usize], &words);
    if s.is_negated() {
        return fits & filled_lanes(s, vars);
    }
    fits
}

// Word i: the lanes whose pattern has bit i.
fn pattern_lanes(s: Call, vars: &[u64; VARIABLES]) -> [u64; MAX_ARGUMENTS]
    ensures { EachLane (λ a. Agrees result a (pattern_of (lane a vars.now) (call_in s.word).args)) }
{
    let mut words = [0u64; MAX_ARGUMENTS];
    for i in 0..s.arguments() {
        words[i] = arg_lanes(s.argument(i), vars);
    }
    words
}

// The lanes in which an argument is bound.
fn arg_lanes(v: u8, vars: &[u64; VARIABLES]) -> u64
    ensures { EachLane (λ a. bit_at result a ≡ is_bound (lane a vars.now) v) }
{
    if v == LITERAL {
        return ALL;
    }
    if v <= LAST_VARIABLE {
        return vars[v as usize];
    }
    0
}

// The lanes in which every argument of a head or a call is bound.
fn filled_lanes(call: Call, vars: &[u64; VARIABLES]) -> u64
    ensures { EachLane (λ a. bit_at result a ≡ all (is_bound (lane a vars.now)) (head_in call.word).args) }
{
    let mut filled = ALL;
    for i in 0..call.arguments() {
        filled &= arg_lanes(call.argument(i), vars);
    }
    filled
}

// The variables of the subgoal are bound in the lanes of r; a negated one binds nothing.
fn bind_lanes(s: Call, r: u64, vars: &mut [u64; VARIABLES])
    ensures { Binds (call_in s.word) r vars.old vars.new }
{
    if s.is_negated() {
        return;
    }
    for i in 0..s.arguments() {
        let v = s.argument(i);
        if v <= LAST_VARIABLE {
            vars[v as usize] |= r;
        }
    }
}
