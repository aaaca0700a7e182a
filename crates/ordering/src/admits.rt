// A table that orders are good against.
ghost use Rattle.std.specs.Prelude.{◌≡◌, ◌<◌};
ghost use Rattle.masks.specs.Constraint.{admits};
ghost use Rattle.masks.specs.Set.{bit_at};
ghost use Rattle.masks.specs.Patterns.{EachLane};
ghost use Rattle.book.specs.Limits.{max_predicates};
ghost use Rattle.book.specs.Table.{entry, table_in, Full};

use book::limits::MAX_PREDICATES;
use std::marker::Model;

// For each predicate, the set of all the patterns that its constraint admits, so that a pattern fits just where it is a member.
#[derive(Drop)]
pub struct Admits<'a> {
    words: &'a [u64; MAX_PREDICATES],
}

impl<'a> Model for Admits<'a> {
    ghost use Rattle.book.specs.Limits.{max_predicates};
    ghost use Rattle.book.specs.Table.{Table, table_in, Full};

    ghost Value = { Table };

    ghost view = { λ t. table_in t.words.now max_predicates };

    ghost invariant = { λ t. Full t.words.now };
}

impl<'a> Admits<'a> {
    // The table of these words.
    pub fn of(words: &'a [u64; MAX_PREDICATES]) -> Admits<'a>
        requires { Full words.now }
        ensures { result ≡ table_in words.now max_predicates }
    {
        Admits { words }
    }

    // The patterns that fit predicate p.
    pub fn patterns(&self, p: u8) -> u64
        requires { p < max_predicates }
        ensures { EachLane (λ a. bit_at result a ≡ admits (entry self.now p) a) }
    {
        self.words[p as usize]
    }
}
