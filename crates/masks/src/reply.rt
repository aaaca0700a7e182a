// What every operation answers, also to C: document 01, "Replies".
ghost use Rattle.std.specs.Prelude.{◌≡◌, ◌≤◌, ◌<◌, IfOk, IfErr};

// The number of the reply and its value; the rounds are the analysis's own, and 0 elsewhere and at any refusal.
#[repr(C)]
#[derive(Clone, Copy)]
pub struct Reply {
    pub number: u32,
    pub value: u64,
    pub rounds: u64,
}

// "9: the output is shorter than needed": the bytes needed.
#[derive(Clone, Copy)]
pub struct TooShort {
    pub needed: usize,
}

impl Reply {
    // A refusal: its number and its value.
    pub fn refused(number: u32, value: u64) -> Reply
        ensures { result ≡ record { number = number; value = value; rounds = 0 } }
    {
        Reply {
            number,
            value,
            rounds: 0,
        }
    }

    // The reply of an operation whose result has n bytes and took so many rounds, in a room of so many bytes.
    pub fn in_room(n: usize, rounds: u64, room: usize) -> Result<Reply, TooShort>
        ensures done { IfOk result (λ r. (r ≡ record { number = 0; value = n; rounds = rounds }) × (n ≤ room)) }
        ensures short { IfErr result (λ e. (e.needed ≡ n) × (room < n)) }
    {
        if room < n {
            return Err(TooShort { needed: n });
        }
        Ok(Reply {
            number: 0,
            value: n as u64,
            rounds,
        })
    }
}

impl From<TooShort> for Reply {
    ghost use Rattle.std.specs.Prelude.{◌≡◌};
    ghost use Rattle.masks.specs.Outcome.{nine};

    ghost from_gives = { λ e r. r ≡ nine e };

    fn from(e: TooShort) -> Reply {
        Reply::refused(9, e.needed as u64)
    }
}
