// The plan of a book: the orders of what its query leads to, and the public operation `plan`.
#![tactic(auto)]

pub mod image;

ghost use Rattle.masks.specs.Outcome.{Answers, reply_of};
ghost use Rattle.book.specs.Refusal.{reply};
ghost use Rattle.choices.specs.Plan.{planning};
ghost use Rattle.plan.specs.Lent.{SomeLent, Gives};

use crate::image::{plan_length, put_plan};
use book::held::RuleBook;
use book::limits::MAX_PREDICATES;
use book::refusal::Refusal;
use masks::reply::Reply;
use needs::{Needs, settle};
use ordering::admits::Admits;
use ordering::first_order;
use reach::reach;
use reading::read_book;

// The plan of a book, written into the output: an order for the query, and one for each clause under each pattern that the query leads to. 7 where
// no orders give every call what the `MO` of its predicate asks for and leave no cell empty.
pub fn plan(book: &[u8], out: &mut [u8]) -> Reply
    ensures { Answers (planning book.now) out.old result out.new }
{
    planned(book, out).unwrap_or_else(Reply::from)
}

fn planned(bytes: &[u8], out: &mut [u8]) -> Result<Reply, Refusal>
    ensures { Answers (planning bytes.now) out.old (reply_of reply result) out.new }
{
    let mut book = RuleBook::new();
    read_book(bytes, &mut book)?;
    let mut needs = Needs::new();
    settle(&book, &mut needs);
    give(&book, &needs, out)
}

// The plan of a valid book, by the patterns that its final table admits: written from the output's start, or 7 where the query has no good order, or 9
// where the output is too short.
fn give(book: &RuleBook, needs: &Needs, out: &mut [u8]) -> Result<Reply, Refusal>
    requires { SomeLent book.now needs.now }
    ensures { Gives book.now needs.now out.old (reply_of reply result) out.new }
{
    let table = Admits::of(&needs.table.admits);
    let query = first_order(&book.query(), &table, 0);
    let Some(order) = &query else {
        return Err(Refusal::NoOrder);
    };
    let mut reached = [0; MAX_PREDICATES];
    reach(book, &needs.own, &table, &query, &mut reached);
    let r = Reply::in_room(plan_length(book, &needs.own, &reached), 0, out.len())?;
    put_plan(out, order.places(), book, &needs.own, &table, &reached);
    Ok(r)
}
