// Clauses, in the array of words that holds those of a book: of each the number of its subgoals, then its head and room for eight subgoals, each call in
// one word.
ghost use Rattle.std.specs.Prelude.{◌≡◌, ◌<◌, ◌≤◌, length, get_or};
ghost use Rattle.book.specs.Limits.{max_clauses, max_subgoals};
ghost use Rattle.book.specs.Book.{no_call};
ghost use Rattle.book.specs.Held.{head_in, call_in, clause_at, StoredClause};

use crate::call::Call;
use crate::limits::{CLAUSE_SIZE, MAX_SUBGOALS, RULES_SIZE};
use std::marker::Model;

// A clause where it stands, among those of a book. That it is callable is no invariant: `writing` promises for any words, so each function that orders one asks for it.
#[derive(Drop)]
pub struct Clause<'a> {
    rules: &'a [u64; RULES_SIZE],
    k: usize,
}

impl<'a> Model for Clause<'a> {
    ghost use Rattle.std.specs.Prelude.{◌≤◌};
    ghost use Rattle.book.specs.Book as book;
    ghost use Rattle.book.specs.Limits.{max_clauses};
    ghost use Rattle.book.specs.Held.{clause_at};

    ghost Value = { book.Clause };

    ghost view = { λ c. clause_at c.rules.now c.k };

    ghost invariant = { λ c. c.k ≤ max_clauses };
}

impl<'a> Clause<'a> {
    // Clause k of an array.
    pub fn at(rules: &'a [u64; RULES_SIZE], k: usize) -> Clause<'a>
        requires { k ≤ max_clauses }
        ensures { result ≡ clause_at rules.now k }
    {
        Clause { rules, k }
    }

    pub fn head(&self) -> Call
        ensures { head_in result.word ≡ self.now.head }
    {
        Call {
            word: self.rules[self.k * CLAUSE_SIZE + 1],
        }
    }

    // How many subgoals it has.
    pub fn subgoals(&self) -> usize
        ensures value { result ≡ length self.now.body }
        ensures upper_bound { result ≤ max_subgoals }
    {
        MAX_SUBGOALS.min(self.rules[self.k * CLAUSE_SIZE] as usize)
    }

    pub fn subgoal(&self, j: usize) -> Call
        requires { j < length self.now.body }
        ensures { call_in result.word ≡ get_or self.now.body j no_call }
    {
        Call {
            word: self.rules[self.k * CLAUSE_SIZE + 2 + j],
        }
    }
}

// Copies clause `from` of an array over clause `to`.
pub fn move_clause(rules: &mut [u64; RULES_SIZE], from: usize, to: usize)
    requires { (from ≤ max_clauses) × (to ≤ max_clauses) }
    ensures { StoredClause rules.old rules.new to (clause_at rules.old from) }
{
    let start = from * CLAUSE_SIZE;
    rules.copy_within(start..start + CLAUSE_SIZE, to * CLAUSE_SIZE);
}
