// What each predicate of a book needs: the rounds of the analysis, and the public operation `analyse`. A round looks again only at the predicates
// that call one that changed; the rest keep their constraint, which is what the round would give them. A table is held in words: the masks of each
// constraint, made again where it changed, and the patterns that it admits. Sets of predicates and of clauses are words too: a number is in the set
// where its bit is set.
#![tactic(auto)]

pub mod calls;
pub mod round;

ghost use Rattle.masks.specs.Outcome.{Answers, reply_of};
ghost use Rattle.book.specs.Refusal.{reply};
ghost use Rattle.book.specs.Sets.{Cleared};
ghost use Rattle.tables.specs.Image.{analysis};
ghost use Rattle.needs.specs.Round.{SomeHeld, Settles};

use crate::calls::{calling, own_clauses, put_callers};
use crate::round::{renew, round};
use book::held::RuleBook;
use book::limits::MAX_PREDICATES;
use book::refusal::Refusal;
use masks::reply::Reply;
use reading::read_book;
use tables::{Table, first_table, image_length, put_image};

// What the analysis finds: the clauses of each predicate, as sets, and the final table.
#[derive(Drop)]
pub struct Needs {
    pub own: [u64; MAX_PREDICATES],
    pub table: Table,
}

impl Needs {
    // Room for them.
    pub fn new() -> Needs
        ensures own { Cleared result.own }
        ensures masks { Cleared result.table.masks }
        ensures admits { Cleared result.table.admits }
    {
        Needs {
            own: [0; MAX_PREDICATES],
            table: Table::new(),
        }
    }
}

// The analysis of a book: its final table as an image, written into the output, and its rounds.
pub fn analyse(book: &[u8], out: &mut [u8]) -> Reply
    ensures { Answers (analysis book.now) out.old result out.new }
{
    analysed(book, out).unwrap_or_else(Reply::from)
}

fn analysed(bytes: &[u8], out: &mut [u8]) -> Result<Reply, Refusal>
    ensures { Answers (analysis bytes.now) out.old (reply_of reply result) out.new }
{
    let mut book = RuleBook::new();
    read_book(bytes, &mut book)?;
    let mut needs = Needs::new();
    let rounds = settle(&book, &mut needs);
    let r = Reply::in_room(image_length(&book, &needs.table), rounds, out.len())?;
    put_image(out, &book, &needs.table);
    Ok(r)
}

// "The rounds reported are the least k at which table k+1 equals table k, and table k is the answer": the rounds. The final table, and the clauses of each
// predicate, are then in the room lent, whose words must be 0.
pub fn settle(book: &RuleBook, needs: &mut Needs) -> u64
    requires { SomeHeld book.now × Cleared needs.old.own × Cleared needs.old.table.masks × Cleared needs.old.table.admits }
    ensures { Settles book.now needs.new result }
{
    let Needs { own, table } = needs;
    let mut due = own_clauses(book, own);
    first_table(book, table);
    let mut callers = [0; MAX_PREDICATES];
    put_callers(book, &mut callers);
    let mut k = 0;
    // That this ends is a theorem and no count: a `for` over `0..` would ask for an `unreachable!` behind it.
    'rounds: loop {
        let old = table.admits;
        let changed = round(book, own, &table.masks, old, due, &mut table.admits);
        if changed == 0 {
            return k;
        }
        renew(table, changed);
        due = calling(&callers, changed);
        k += 1;
    }
}
