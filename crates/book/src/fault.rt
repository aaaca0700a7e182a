// What a book is refused for, with which number, and where: document 01, "Replies", 1 to 6, and document 02, W2.
ghost use Rattle.std.specs.Prelude.{◌≡◌};
ghost use Rattle.book.specs.Format as format;

use masks::reply::Reply;

#[derive(Clone, Copy)]
pub enum Fault {
    PastEnd,
    NoMark,
    OutOfTurn,
    OutOfRange,
    TooMany,
    Clash,
}

impl Fault {
    // The fault, with its place.
    pub fn at(self, at: usize) -> FaultAt
        ensures { result ≡ record { fault = self; at = at } }
    {
        FaultAt { fault: self, at }
    }

    // The number of the reply.
    pub fn number(self) -> u32
        ensures { result ≡ format.number self }
    {
        match self {
            Fault::PastEnd => 1,
            Fault::NoMark => 2,
            Fault::OutOfTurn => 3,
            Fault::OutOfRange => 4,
            Fault::TooMany => 5,
            Fault::Clash => 6,
        }
    }

    // Which of two places is the fault's: the end of the book, or where it is found.
    pub fn place(self, end: usize, found: usize) -> usize
        ensures { result ≡ format.place self end found }
    {
        match self {
            Fault::PastEnd => end,
            Fault::NoMark | Fault::OutOfTurn | Fault::OutOfRange | Fault::TooMany | Fault::Clash =>
                found,
        }
    }
}

// A fault and its place: what reading answers in place of what it read.
#[derive(Clone, Copy)]
pub struct FaultAt {
    pub fault: Fault,
    pub at: usize,
}

// A refusal with the fault's number and its place.
impl From<FaultAt> for Reply {
    ghost from_gives = { λ e r. r ≡ record { number = format.number e.fault; value = e.at; rounds = 0 } };

    fn from(e: FaultAt) -> Reply {
        Reply::refused(e.fault.number(), e.at as u64)
    }
}
