// Reading a book: every string of bytes is a book or has a first fault. Here are the public operation `check`, `read_book` for the crates above,
// and the runs of records; single records, their bytes and their marks are in the crate `records`. One pass from the left, over the bytes that are left: each
// byte is looked at once, and the bytes of a mark where a run ends again by what judges that end and by the run that follows.
#![tactic(auto)]

ghost use Rattle.std.specs.Prelude.{◌≡◌, ◌≤◌, ◌<◌, length, IfErr};
ghost use Rattle.book.specs.Limits.{max_clauses};
ghost use Rattle.book.specs.Format as format;
ghost use Rattle.book.specs.Held.{NoModes};
ghost use Rattle.book.specs.declared.mark.Phase.TheVariants.{Query};
ghost use Rattle.records.specs.Read.{RunEnds};
ghost use Rattle.reading.specs.Judged.{checked, placed, Judges, BookRead};
ghost use Rattle.reading.specs.Stored.{Ends, ReadsPredicates, ReadsModes, ReadsBody, ReadsClause, ReadsClauses, ReadsQuery, ReadsRules, ReadsBook};

use book::fault::{Fault, FaultAt};
use book::held::RuleBook;
use book::limits::{CLAUSE_SIZE, MAX_CLAUSES, MAX_PREDICATES, MAX_SUBGOALS};
use book::mark::Phase;
use masks::constraint::with_member;
use masks::reply::Reply;
use records::arities::Arities;
use records::fault::{FaultFromEnd, wrong};
use records::field::{put, read_head, read_mode, read_predicate, read_subgoal};
use records::turn::{is_mark, is_subgoal, run_end};

// What is read of a book, beside the arrays that hold it: how many predicates and clauses it has, and the set of the predicates that have `MO`.
#[derive(Clone, Copy)]
pub struct Reading {
    pub preds: u8,
    pub clauses: u8,
    pub with_mode: u64,
}

// "The check writes nothing and answers a valid book with 0 and the value 0."
pub fn check(s: &[u8]) -> Reply
    ensures { result ≡ checked (format.judge s.now) }
{
    match read_only(s) {
        Ok(_) => Reply {
            number: 0,
            value: 0,
            rounds: 0,
        },
        Err(f) => f.into(),
    }
}

// What is read of a book, or its first fault, where nothing is stored: no room is lent for modes and clauses.
pub fn read_only(s: &[u8]) -> Result<Reading, FaultAt>
    ensures { Judges s.now result }
{
    let mut arities = [0u8; MAX_PREDICATES];
    let mut modes = [0u8; 1];
    let mut rules = [0u64; 1];
    read_into(s, &mut arities, &mut modes, &mut rules)
}

// The book that the bytes are, or their first fault. The book is then held in the room lent, whose modes must be none; the set has the predicates that have
// `MO`. At a fault it keeps its numbers of predicates and clauses.
pub fn read_book(s: &[u8], book: &mut RuleBook) -> Result<u64, FaultAt>
    requires { NoModes book.old.modes }
    ensures read { BookRead s.now result book.new }
    ensures kept { IfErr result (λ e. (book.new.preds ≡ book.old.preds) × (book.new.clauses ≡ book.old.clauses)) }
{
    let r = read_into(s, &mut book.arities, &mut book.modes, &mut book.rules)?;
    book.preds = r.preds;
    book.clauses = r.clauses;
    Ok(r.with_mode)
}

// The same, where there may be no room for modes and clauses: what has none is judged and not stored.
fn read_into(
    s: &[u8],
    arities: &mut [u8; MAX_PREDICATES],
    modes: &mut [u8],
    rules: &mut [u64],
) -> Result<Reading, FaultAt>
    requires { NoModes modes.old }
    ensures { ReadsBook s.now result modes.old rules.old arities.new modes.new rules.new }
{
    read_records(s, arities, modes, rules).map_err(|f| f.within(s))
}

// The same, with a fault as reading meets it: the predicates, and what follows them.
fn read_records(
    s: &[u8],
    arities: &mut [u8; MAX_PREDICATES],
    modes: &mut [u8],
    rules: &mut [u64],
) -> Result<Reading, FaultFromEnd>
    requires { NoModes modes.old }
    ensures { ReadsBook s.now (placed s.now result) modes.old rules.old arities.new modes.new rules.new }
{
    let (n, rest) = read_predicates(s, arities)?;
    let ar = Arities {
        list: &arities[..n],
    };
    read_rules(rest, ar, modes, rules)
}

// What follows the predicates: the modes, the clauses and the query.
fn read_rules(
    s: &[u8],
    ar: Arities,
    modes: &mut [u8],
    rules: &mut [u64],
) -> Result<Reading, FaultFromEnd>
    requires { NoModes modes.old }
    ensures { ReadsRules ar.entry.list.now s.now result modes.old rules.old modes.new rules.new }
{
    let (with_mode, after) = read_modes(s, ar, modes)?;
    let (n, query) = read_clauses(after, ar, rules)?;
    read_query(query, ar, rules)?;
    let clauses = n as u8;
    Ok(Reading {
        preds: ar.predicates(),
        clauses,
        with_mode,
    })
}

// "all `PR`": how many there are, and their arities.
fn read_predicates<'a>(
    s: &'a [u8],
    arities: &mut [u8; MAX_PREDICATES],
) -> Result<(usize, &'a [u8]), FaultFromEnd>
    ensures { ReadsPredicates s.now result arities.new }
{
    let mut left = s;
    let mut n: usize = 0;
    while is_mark(left, b"PR") {
        if MAX_PREDICATES <= n {
            return Err(wrong(Fault::TooMany, left));
        }
        let (arity, after) = read_predicate(&left[2..])?;
        arities[n] = arity;
        n += 1;
        left = after;
    }
    ended(left, Phase::Predicates, b"MO")?;
    Ok((n, left))
}

// "then all `MO`", into modes that are none yet: the set of the predicates that have one.
fn read_modes<'a>(
    s: &'a [u8],
    ar: Arities,
    modes: &mut [u8],
) -> Result<(u64, &'a [u8]), FaultFromEnd>
    requires { NoModes modes.old }
    ensures { ReadsModes ar.entry.list.now s.now result modes.old modes.new }
{
    let mut left = s;
    let mut low: u8 = 0;
    let mut with_mode: u64 = 0;
    while is_mark(left, b"MO") {
        let (pred, after) = read_mode(&left[2..], ar, low, modes)?;
        with_mode = with_member(with_mode, pred);
        low = pred + 1;
        left = after;
    }
    ended(left, Phase::Modes, b"CL")?;
    Ok((with_mode, left))
}

// "then clauses": how many there are, stored from the start of the rules.
fn read_clauses<'a>(
    s: &'a [u8],
    ar: Arities,
    rules: &mut [u64],
) -> Result<(usize, &'a [u8]), FaultFromEnd>
    ensures { ReadsClauses ar.entry.list.now s.now result rules.old rules.new }
{
    let mut left = s;
    let mut n: usize = 0;
    while is_mark(left, b"CL") {
        if MAX_CLAUSES <= n {
            return Err(wrong(Fault::TooMany, left));
        }
        left = read_clause(left, ar, rules, n)?;
        n += 1;
    }
    ended(left, Phase::Clauses, b"QU")?;
    Ok((n, left))
}

// The clause whose record these bytes begin with, with its subgoals, stored as clause k.
fn read_clause<'a>(
    s: &'a [u8],
    ar: Arities,
    rules: &mut [u64],
    k: usize,
) -> Result<&'a [u8], FaultFromEnd>
    requires { (2 ≤ length s.now) × (k < max_clauses) }
    ensures { ReadsClause ar.entry.list.now s.now k result rules.old rules.new }
{
    let (head, after) = read_head(&s[2..], ar)?;
    put(rules, k * CLAUSE_SIZE + 1, head);
    let left = read_body(after, ar, rules, k)?;
    ended(left, Phase::Body, b"CL")?;
    Ok(left)
}

// The query whose record these bytes begin with, stored behind the room of the clauses as the body of a clause whose head says nothing. Mostly the
// bytes end behind it, which is tried first.
fn read_query<'a>(s: &'a [u8], ar: Arities, rules: &mut [u64]) -> Result<&'a [u8], FaultFromEnd>
    requires { 2 ≤ length s.now }
    ensures { ReadsQuery Query ar.entry.list.now s.now result rules.old rules.new }
{
    let left = read_body(&s[2..], ar, rules, MAX_CLAUSES)?;
    if left.is_empty() {
        return Ok(left);
    }
    run_end(left, Phase::Query)?;
    Ok(left)
}

// The subgoals of a clause or of a query, stored as those of clause k. What stands behind them is not judged here.
pub fn read_body<'a>(
    s: &'a [u8],
    ar: Arities,
    rules: &mut [u64],
    k: usize,
) -> Result<&'a [u8], FaultFromEnd>
    requires { k ≤ max_clauses }
    ensures { ReadsBody ar.entry.list.now s.now k result rules.old rules.new }
{
    let base = k * CLAUSE_SIZE;
    let mut left = s;
    let mut n: usize = 0;
    while is_subgoal(left) {
        if MAX_SUBGOALS <= n {
            return Err(wrong(Fault::TooMany, left));
        }
        let (call, after) = read_subgoal(left, ar)?;
        put(rules, base + 2 + n, call);
        n += 1;
        left = after;
    }
    put(rules, base, n as u64);
    Ok(left)
}

// What comes of a run where none of its records follows: it ends, or there is a fault. Mostly it is a mark that ends it, which is tried first.
pub fn ended(s: &[u8], p: Phase, next: &[u8; 2]) -> Result<(), FaultFromEnd>
    requires { Ends p next.now }
    ensures { RunEnds p s.now result }
{
    if is_mark(s, next) {
        return Ok(());
    }
    run_end(s, p)
}
