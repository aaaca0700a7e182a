// Why an operation on a book is refused: document 01, "Replies", 1 to 9.
use crate::fault::FaultAt;
use masks::reply::{Reply, TooShort};

#[derive(Clone, Copy)]
pub enum Refusal {
    // 1 to 6: the book, or a page's run, has this fault.
    Fault(FaultAt),
    // "7: the query of a valid book has no order good against the final table".
    NoOrder,
    // "8: the chosen set names a predicate that the book lacks": the lowest such number.
    Lacks(u8),
    // "9: the output is shorter than needed".
    TooShort(TooShort),
}

impl From<FaultAt> for Refusal {
    ghost use Rattle.std.specs.Prelude.{◌≡◌};
    ghost use Rattle.book.specs.declared.refusal.Refusal.TheVariants.{Fault};

    ghost from_gives = { λ e r. r ≡ Fault e };

    fn from(e: FaultAt) -> Refusal {
        Refusal::Fault(e)
    }
}

impl From<TooShort> for Refusal {
    ghost use Rattle.std.specs.Prelude.{◌≡◌};
    ghost use Rattle.book.specs.declared.refusal.Refusal.TheVariants.{TooShort};

    ghost from_gives = { λ e r. r ≡ TooShort e };

    fn from(e: TooShort) -> Refusal {
        Refusal::TooShort(e)
    }
}

impl From<Refusal> for Reply {
    ghost use Rattle.std.specs.Prelude.{◌≡◌};
    ghost use Rattle.book.specs.Refusal.{reply};

    ghost from_gives = { λ e r. r ≡ reply e };

    fn from(e: Refusal) -> Reply {
        match e {
            Refusal::Fault(fault) => Reply::from(fault),
            Refusal::NoOrder => Reply::refused(7, 0),
            Refusal::Lacks(p) => Reply::refused(8, p as u64),
            Refusal::TooShort(short) => Reply::from(short),
        }
    }
}
