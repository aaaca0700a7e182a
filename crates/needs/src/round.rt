// One round of the analysis.
ghost use Rattle.std.specs.Prelude.{◌≡◌};
ghost use Rattle.book.specs.Sets.{Callable};
ghost use Rattle.needs.specs.Round.{Stays, Ready, Rounds, Compares, Renewed};

use book::held::RuleBook;
use book::limits::MAX_PREDICATES;
use lanes::good_lanes;
use masks::constraint::{least, with_member};
use masks::members::Members;
use tables::Table;

// "A round reads only the table before it": it takes the table by value, as the patterns that each constraint admits, builds a new one in the room
// lent, which holds the same, and compares both; the old one stays intact. Only the predicates due are looked at; the others have in the old table
// what they get. A predicate's `MO` needs no look: table 0 has it, and a round gives nothing that the old table has not. The predicates whose constraint
// is another one than before, none where both tables are the same.
pub fn round(
    book: &RuleBook,
    own: &[u64; MAX_PREDICATES],
    table: &[u64; MAX_PREDICATES],
    old: [u64; MAX_PREDICATES],
    due: u64,
    new: &mut [u64; MAX_PREDICATES],
) -> u64
    requires { Ready book.now.rules own.now table.now old due × (new.old ≡ old) }
    ensures { Rounds book.now.rules own.now table.now old due new.new result }
{
    let mut changed = 0;
    for p in Members::of(due) {
        let q = p as usize;
        let good = good_patterns(book, own[q], table, old[q]);
        if good != old[q] {
            new[q] = good;
            changed = with_member(changed, p);
        }
    }
    if same(&old, new) { 0 } else { changed }
}

// "A predicate's pattern is good when all its clauses are good under it": those patterns of a set, with the clauses in another. Where none is left,
// the other clauses are passed over.
fn good_patterns(book: &RuleBook, own: u64, table: &[u64; MAX_PREDICATES], had: u64) -> u64
    requires { Callable book.now.rules own }
    ensures { Stays book.now.rules own table.now had result }
{
    let mut set = had;
    for k in Members::of(own) {
        if set == 0 {
            return 0;
        }
        set &= good_lanes(&book.clause(k as usize), table);
    }
    set
}

// Two tables have the same entries, all 64. `==`, which looks at one at a time, makes the analysis of a chain of rounds some 7 percent slower.
fn same(old: &[u64; MAX_PREDICATES], new: &[u64; MAX_PREDICATES]) -> bool
    ensures { Compares old.now new.now result }
{
    let mut differ = 0;
    for p in 0..MAX_PREDICATES {
        differ |= old[p] ^ new[p];
    }
    differ == 0
}

// Gives the predicates of a set the masks of what they admit now.
pub fn renew(table: &mut Table, changed: u64)
    ensures masks { Renewed table.old.masks table.old.admits changed table.new.masks }
    ensures admits { table.new.admits ≡ table.old.admits }
{
    for p in Members::of(changed) {
        let q = p as usize;
        table.masks[q] = least(table.admits[q]);
    }
}
