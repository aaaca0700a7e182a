// The operations as C functions: a slice is a pointer and a length, and the reply is given back as C lays it out. What each promises is said by the
// definitions that the demands are stated over, `outcome` and `checked`; include/shodhvirup.h says it in words.
#![tactic(auto)]

ghost use Rattle.std.specs.Prelude.{◌≡◌};
ghost use Rattle.masks.specs.Outcome.{Answers};
ghost use Rattle.book.specs.Format.{judge};
ghost use Rattle.reading.specs.Judged.{checked};
ghost use Rattle.tally.specs.Tallied.{Tallies};
ghost use Rattle.paging.specs.Page.{verdicts};
ghost use Rattle.demands.specs.Demands as say;

use masks::reply::Reply;
use tally::Tally;

// Whether the bytes are a book: 0, or the first fault.
#[unsafe(no_mangle)]
pub extern "C" fn shodh_check(book: &[u8]) -> Reply
    ensures { result ≡ checked (judge book.now) }
{
    reading::check(book)
}

// The table of needs of a book, and its rounds.
#[unsafe(no_mangle)]
pub extern "C" fn shodh_analyse(book: &[u8], out: &mut [u8]) -> Reply
    ensures { Answers (say.outcome (say.analyse book.now)) out.old result out.new }
{
    needs::analyse(book, out)
}

// The plan of a book.
#[unsafe(no_mangle)]
pub extern "C" fn shodh_plan(book: &[u8], out: &mut [u8]) -> Reply
    ensures { Answers (say.outcome (say.plan book.now)) out.old result out.new }
{
    plan::plan(book, out)
}

// The book closed over a set of predicates: predicate p is in it where bit p is set.
#[unsafe(no_mangle)]
pub extern "C" fn shodh_close(book: &[u8], set: u64, out: &mut [u8]) -> Reply
    ensures { Answers (say.outcome (say.close set book.now)) out.old result out.new }
{
    closing::close(book, set, out)
}

// All the queries of a page in one go; the tally is the caller's.
#[unsafe(no_mangle)]
pub extern "C" fn shodh_page(book: &[u8], run: &[u8], out: &mut [u8], tally: &mut Tally) -> Reply
    ensures { Tallies (say.outcome (say.page book.now run.now)) (verdicts book.now run.now) out.old tally.old result out.new tally.new }
{
    let p = page::page(book, run, out, *tally);
    *tally = p.tally;
    p.reply
}

// The choice of two lists of masks.
#[unsafe(no_mangle)]
pub extern "C" fn shodh_choice(arity: u8, first: &[u8], second: &[u8], out: &mut [u8]) -> Reply
    ensures { Answers (say.outcome (say.choice arity first.now second.now)) out.old result out.new }
{
    masks::choice(arity, first, second, out)
}

// The joint of two lists of masks.
#[unsafe(no_mangle)]
pub extern "C" fn shodh_joint(arity: u8, first: &[u8], second: &[u8], out: &mut [u8]) -> Reply
    ensures { Answers (say.outcome (say.joint arity first.now second.now)) out.old result out.new }
{
    masks::joint(arity, first, second, out)
}
