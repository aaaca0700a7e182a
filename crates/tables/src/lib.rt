// Tables: a constraint for each predicate of a book. Here are table 0 and the image of a table, and in `specs/` and `proofs/Laws` the definition of
// the rounds and what is known of them; a round itself is in the crate `needs`. A `Table` has two words for each predicate: the masks of its
// constraint, and the patterns that it admits.
#![tactic(auto)]

ghost use Rattle.std.specs.Prelude.{◌≡◌, ◌≤◌};
ghost use Rattle.masks.specs.Set.{members};
ghost use Rattle.book.specs.Limits.{max_predicates};
ghost use Rattle.book.specs.Held.{modes_of};
ghost use Rattle.book.specs.Table.{table_in, Admitted, LowModes, LowArities};
ghost use Rattle.book.specs.Sets.{Cleared};
ghost use Rattle.tables.specs.Table.{first_needs};
ghost use Rattle.tables.specs.Image.{row, rows, LengthOf};
ghost use Rattle.writing.specs.Wrote.{Room, Wrote};

use book::held::RuleBook;
use book::limits::MAX_PREDICATES;
use book::mode::{has_mode, masks_at};
use masks::constraint::{count, fitting, minimised};
use masks::patterns::{ALL, admitted};
use writing::put::{put_byte, put_constraint, put_mark};

// The set of the mask 0 alone: a constraint that asks for nothing.
const TRIVIAL: u64 = 1;

// A constraint for each predicate: the set of its masks, and the patterns that it admits.
#[derive(Drop)]
pub struct Table {
    pub masks: [u64; MAX_PREDICATES],
    pub admits: [u64; MAX_PREDICATES],
}

impl Table {
    // Room for a table.
    pub fn new() -> Table
        ensures masks { Cleared result.masks }
        ensures admits { Cleared result.admits }
    {
        Table {
            masks: [0; MAX_PREDICATES],
            admits: [0; MAX_PREDICATES],
        }
    }
}

// "Table 0: each `MO` as given and minimised, all others trivial", of predicates with clauses and without. Having no `MO` is not having one with no
// alternative.
pub fn first_table(book: &RuleBook, table: &mut Table)
    requires { (book.now.preds ≤ max_predicates) × LowModes book.now.modes × Cleared table.old.masks × Cleared table.old.admits }
    ensures masks { table_in table.new.masks book.now.preds ≡ first_needs (modes_of book.now.modes max_predicates) book.now.preds }
    ensures admitted { Admitted table.new.masks table.new.admits }
{
    for p in 0..book.preds {
        let q = p as usize;
        if has_mode(&book.modes, p) {
            let c = minimised(masks_at(&book.modes, p));
            table.masks[q] = c;
            table.admits[q] = admitted(c);
        } else {
            table.masks[q] = TRIVIAL;
            table.admits[q] = ALL;
        }
    }
}

// How many bytes the image of a table has.
pub fn image_length(book: &RuleBook, table: &Table) -> usize
    requires { book.now.preds ≤ max_predicates }
    ensures { LengthOf book.now.preds table.now.masks result }
{
    let mut total = 0;
    for &masks in &table.masks[..book.preds as usize] {
        total += 5 + count(masks);
    }
    total
}

// "Its image: for each predicate in turn `CN`, predicate, n, n masks", and W5's count at the end of each, from the output's start.
pub fn put_image(out: &mut [u8], book: &RuleBook, table: &Table) -> usize
    requires { (book.now.preds ≤ max_predicates) × LowArities book.now.preds book.now.arities × Admitted table.now.masks table.now.admits × Room out.old 0 (rows book.now.arities (table_in table.now.masks book.now.preds) book.now.preds) }
    ensures { Wrote out.old out.new 0 result (rows book.now.arities (table_in table.now.masks book.now.preds) book.now.preds) }
{
    let mut at = 0;
    for p in 0..book.preds {
        let i = p as usize;
        let fit = fitting(table.admits[i], book.arities[i]);
        at = put_row(out, at, p, table.masks[i], fit);
    }
    at
}

// One row of it, with the number of patterns that fit.
fn put_row(out: &mut [u8], at: usize, p: u8, masks: u64, fit: u8) -> usize
    requires { Room out.old at (row p (members masks) fit) }
    ensures { Wrote out.old out.new at result (row p (members masks) fit) }
{
    let q = put_mark(out, at, b"CN");
    let r = put_constraint(out, q, p, masks);
    put_byte(out, r, fit)
}
