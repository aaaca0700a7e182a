// Marks, and whose turn it is where a record may begin: "all `PR`, then all `MO`, then clauses, then one `QU`; `SG` only after `CL`, `QU` or `SG`",
// and `NG`, which "has the fields and turn of `SG`". In the run of a page, "a run of `QU` records with their subgoals".
ghost use Rattle.std.specs.Prelude.{◌≡◌, ◌≤◌, length, IsTrue};
ghost use Rattle.book.specs.Format as format;
ghost use Rattle.records.specs.Read.{RunEnds, leads_subgoal};

use crate::fault::{FaultFromEnd, wrong};
use book::fault::Fault;
use book::mark::{Mark, Phase, Turn};

// The bytes begin with the two of this mark. `s.starts_with(m)` makes a check up to 6 percent slower.
pub fn is_mark(s: &[u8], m: &[u8; 2]) -> bool
    ensures value { result ≡ format.leads m.now s.now }
    ensures bound { IsTrue result → 2 ≤ length s.now }
{
    2 <= s.len() && s[0] == m[0] && s[1] == m[1]
}

// A subgoal begins here, `SG` or `NG`.
pub fn is_subgoal(s: &[u8]) -> bool
    ensures value { result ≡ leads_subgoal s.now }
    ensures bound { IsTrue result → 2 ≤ length s.now }
{
    is_mark(s, b"SG") || is_mark(s, b"NG")
}

// What comes of a run where none of its records follows: it ends, or there is a fault.
pub fn run_end(s: &[u8], p: Phase) -> Result<(), FaultFromEnd>
    ensures { RunEnds p s.now result }
{
    match turn(p, mark_at(s)) {
        Turn::No(f) => Err(wrong(f, s)),
        Turn::Over | Turn::Mine => Ok(()),
    }
}

// What `PR`, `MO`, `CL`, `SG` or `NG`, `QU` and the end of the bytes mean in each run.
fn turn(p: Phase, m: Mark) -> Turn
    ensures { result ≡ format.turn p m }
{
    let mine = Turn::Mine;
    let over = Turn::Over;
    let no = Turn::No(Fault::OutOfTurn);
    match p {
        Phase::Predicates => column(m, mine, over, over, no, over, no),
        Phase::Modes => column(m, no, mine, over, no, over, no),
        Phase::Clauses => column(m, no, no, mine, no, over, no),
        Phase::Body => column(m, no, no, over, mine, over, no),
        Phase::Query => column(m, no, no, no, mine, no, over),
        Phase::Queries => column(m, no, no, no, no, mine, over),
        Phase::PageQuery => column(m, no, no, no, mine, over, over),
    }
}

// The entry of a row for a mark: "both bytes of the mark present (1), known (2)", else as given. `NG` has the turn of `SG`.
fn column(m: Mark, pr: Turn, mo: Turn, cl: Turn, sg: Turn, qu: Turn, end: Turn) -> Turn
    ensures { result ≡ format.column m pr mo cl sg qu end }
{
    match m {
        Mark::Pr => pr,
        Mark::Mo => mo,
        Mark::Cl => cl,
        Mark::Sg => sg,
        Mark::Ng => sg,
        Mark::Qu => qu,
        Mark::End => end,
        Mark::Other => Turn::No(Fault::NoMark),
        Mark::Half => Turn::No(Fault::PastEnd),
    }
}

// What the bytes begin with.
#[tactic(auto, unfolding(book::specs::Format::mark_at))]
fn mark_at(s: &[u8]) -> Mark
    ensures { result ≡ format.mark_at s.now }
{
    if is_mark(s, b"PR") {
        return Mark::Pr;
    }
    if is_mark(s, b"MO") {
        return Mark::Mo;
    }
    if is_mark(s, b"CL") {
        return Mark::Cl;
    }
    if is_mark(s, b"SG") {
        return Mark::Sg;
    }
    if is_mark(s, b"NG") {
        return Mark::Ng;
    }
    if is_mark(s, b"QU") {
        return Mark::Qu;
    }
    unmarked(s)
}

// What stands where there is none of the six marks.
fn unmarked(s: &[u8]) -> Mark
    ensures { result ≡ format.unmarked s.now }
{
    match s.len() {
        0 => Mark::End,
        1 => Mark::Half,
        _ => Mark::Other,
    }
}
