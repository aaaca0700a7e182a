// Who calls whom: sets made once, before the first round.
ghost use Rattle.std.specs.Prelude.{◌≡◌, true, ◌<◌, ◌≤◌, get_or};
ghost use Rattle.masks.specs.Set.{bit_at, Holds};
ghost use Rattle.book.specs.Limits.{max_predicates, max_clauses};
ghost use Rattle.book.specs.Held.{clauses_of};
ghost use Rattle.book.specs.Sets.{callable, Known, Cleared, Owns};
ghost use Rattle.tables.specs.Table.{defined};
ghost use Rattle.needs.specs.Sets.{some_in, Calling, Added};

use book::clause::Clause;
use book::held::RuleBook;
use book::limits::MAX_PREDICATES;
use masks::constraint::with_member;
use masks::members::Members;

// The clauses of each predicate, as sets in words that are empty yet: clause k is in it where bit k is set. The predicates that have any.
pub fn own_clauses(book: &RuleBook, own: &mut [u64; MAX_PREDICATES]) -> u64
    requires { (book.now.clauses ≤ max_clauses) × Known book.now.rules book.now.clauses × Cleared own.old }
    ensures owns { Owns book.now.rules book.now.clauses own.new }
    ensures holds { Holds result (defined (clauses_of book.now.rules book.now.clauses)) }
{
    let mut heads = 0;
    for k in 0..book.clauses {
        let p = book.clause(k as usize).head().predicate();
        let q = p as usize;
        own[q] = with_member(own[q], k);
        heads = with_member(heads, p);
    }
    heads
}

// The predicates that call each predicate, as sets in words that are empty yet.
pub fn put_callers(book: &RuleBook, callers: &mut [u64; MAX_PREDICATES])
    requires { (book.now.clauses ≤ max_clauses) × Known book.now.rules book.now.clauses × Cleared callers.old }
    ensures { Calling book.now.rules book.now.clauses callers.new }
{
    for k in 0..book.clauses as usize {
        add_caller(&book.clause(k), callers);
    }
}

// A clause is of a predicate that calls those of its subgoals.
fn add_caller(clause: &Clause, callers: &mut [u64; MAX_PREDICATES])
    requires { (clause.now.head.pred < max_predicates) × (callable clause.now.body ≡ true) }
    ensures { Added clause.now callers.old callers.new }
{
    let p = clause.head().predicate();
    for j in 0..clause.subgoals() {
        let q = clause.subgoal(j).predicate() as usize;
        callers[q] = with_member(callers[q], p);
    }
}

// The predicates that call one of a set.
pub fn calling(callers: &[u64; MAX_PREDICATES], called: u64) -> u64
    ensures { Holds result (λ p. some_in called (λ q. bit_at (get_or callers.now q 0) p) max_predicates) }
{
    let mut set = 0;
    for q in Members::of(called) {
        set |= callers[q as usize];
    }
    set
}
