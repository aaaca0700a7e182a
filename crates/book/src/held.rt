// A book as it is held, in flat arrays of numbers: `clause` and `mode` know how the last two are laid out. They are arrays and no `Vec`s, since no memory is
// allocated (include/shodhvirup.h, State).
ghost use Rattle.std.specs.Prelude.{◌≡◌, ◌≤◌};
ghost use Rattle.book.specs.Limits.{max_clauses};
ghost use Rattle.book.specs.Held.{clause_at, NoModes};

use crate::clause::Clause;
use crate::limits::{MAX_CLAUSES, MAX_PREDICATES, MODES_SIZE, NO_CALL, RULES_SIZE};

// How many predicates and clauses there are, the arity and the mode of each predicate, and the clauses, with the query behind them. There is no invariant: a
// reader fills one field after the other, and `write_book` is promised of any (docs/PROMISES.md). The words come first, so that no gap stands between two
// fields: a book that is made is then cleared where it stays, in one go, and no copy of it is made.
#[derive(Drop)]
pub struct RuleBook {
    pub rules: [u64; RULES_SIZE],
    pub modes: [u8; MODES_SIZE],
    pub arities: [u8; MAX_PREDICATES],
    pub preds: u8,
    pub clauses: u8,
}

impl RuleBook {
    // Room for a book, with none in it yet.
    pub fn new() -> RuleBook
        ensures modes { NoModes result.modes }
        ensures empty { (result.preds ≡ 0) × (result.clauses ≡ 0) }
    {
        RuleBook {
            rules: [NO_CALL; RULES_SIZE],
            modes: [0; MODES_SIZE],
            arities: [0; MAX_PREDICATES],
            preds: 0,
            clauses: 0,
        }
    }

    // Clause k.
    pub fn clause(&self, k: usize) -> Clause<'_>
        requires { k ≤ max_clauses }
        ensures { result ≡ clause_at self.now.rules k }
    {
        Clause::at(&self.rules, k)
    }

    // The query, as a clause whose head says nothing.
    pub fn query(&self) -> Clause<'_>
        ensures { result ≡ clause_at self.now.rules max_clauses }
    {
        self.clause(MAX_CLAUSES)
    }
}
