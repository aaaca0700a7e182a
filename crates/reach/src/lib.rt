// The patterns reached, by a work list: the predicates that have patterns not gone over yet. Any order of work gives the same patterns; here the lowest
// predicate comes first. Patterns are marked in words, one for each predicate; sets of predicates and of clauses are words too.
#![tactic(auto)]

ghost use Rattle.std.specs.Prelude.{◌≡◌, true, ◌≤◌};
ghost use Rattle.book.specs.Limits.{max_clauses};
ghost use Rattle.book.specs.Held.{clause_at};
ghost use Rattle.book.specs.Sets.{callable, Cleared, Owns, Known, Callable};
ghost use Rattle.ordering.specs.Adorn.{nothing};
ghost use Rattle.reach.specs.Marked.{Given, SomeFound, SomeGiven, Marked, Marks, MarksGiven, clauses_by, patterns_by, ReachedIn};

use book::clause::Clause;
use book::held::RuleBook;
use book::limits::MAX_PREDICATES;
use masks::constraint::with_member;
use masks::members::Members;
use ordering::admits::Admits;
use ordering::{Order, first_order, head_bound};

// "Patterns reached: those of the query's subgoals, and those of the subgoals of every clause of a reached predicate under a reached pattern", in the
// first good orders against a table; the query's is given. They are marked in the words lent, which must be 0.
pub fn reach(
    book: &RuleBook,
    own: &[u64; MAX_PREDICATES],
    table: &Admits,
    query: &Option<Order>,
    reached: &mut [u64; MAX_PREDICATES],
)
    requires clauses_le_max_clauses { (book.now.clauses ≤ max_clauses) × Known book.now.rules book.now.clauses × (callable (clause_at book.now.rules max_clauses).body ≡ true) × Owns book.now.rules book.now.clauses own.now }
    requires found { Given table.now (clause_at book.now.rules max_clauses).body nothing query.now × Cleared reached.old }
    ensures { ReachedIn book.now.rules book.now.clauses table.now reached.new }
{
    let mut gone = [0; MAX_PREDICATES];
    let mut work = mark_given(&book.query(), query, reached);
    // No `for` over its members: a turn may put work back.
    while work != 0 {
        let p = u64::trailing_zeros(work) as usize;
        let all = reached[p];
        let new = all ^ gone[p];
        gone[p] = all;
        let names = mark_patterns(book, own[p], new, table, reached);
        work = (work & (work - 1)) | names;
    }
}

// Marks the calls of the clauses of a set under each pattern of a set; the predicates called.
fn mark_patterns(
    book: &RuleBook,
    own: u64,
    patterns: u64,
    table: &Admits,
    reached: &mut [u64; MAX_PREDICATES],
) -> u64
    requires { Callable book.now.rules own }
    ensures { Marked reached.old reached.new result (patterns_by book.now.rules table.now own patterns) }
{
    let mut names = 0;
    for a in Members::of(patterns) {
        names |= mark_clauses(book, own, a, table, reached);
    }
    names
}

// Marks the calls of the clauses of a set under a head pattern; the predicates called.
fn mark_clauses(
    book: &RuleBook,
    own: u64,
    a: u8,
    table: &Admits,
    reached: &mut [u64; MAX_PREDICATES],
) -> u64
    requires { Callable book.now.rules own }
    ensures { Marked reached.old reached.new result (clauses_by book.now.rules table.now own a) }
{
    let mut names = 0;
    for k in Members::of(own) {
        let clause = book.clause(k as usize);
        let bound = head_bound(clause.head(), a);
        if let Some(order) = first_order(&clause, table, bound) {
            names |= mark_calls(&clause, &order, reached);
        }
    }
    names
}

// Marks the calls of a clause in its first good order, which is given; the predicates called.
fn mark_calls(clause: &Clause, order: &Order, reached: &mut [u64; MAX_PREDICATES]) -> u64
    requires { (callable clause.now.body ≡ true) × SomeFound clause.now.body order.now }
    ensures { Marks clause.now.body order.now reached.old reached.new result }
{
    let n = order.places().len();
    let mut names = 0;
    for i in 0..n {
        let p = clause.subgoal(order.places[i] as usize).predicate();
        let q = p as usize;
        reached[q] = with_member(reached[q], order.patterns[i]);
        names = with_member(names, p);
    }
    names
}

// The same where a clause may have no such order, and so no calls to mark.
fn mark_given(clause: &Clause, order: &Option<Order>, reached: &mut [u64; MAX_PREDICATES]) -> u64
    requires { (callable clause.now.body ≡ true) × SomeGiven clause.now.body order.now }
    ensures { MarksGiven clause.now.body order.now reached.old reached.new result }
{
    match order {
        Some(o) => mark_calls(clause, o, reached),
        None => 0,
    }
}
