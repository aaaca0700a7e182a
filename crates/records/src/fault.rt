// A fault as reading meets it, which knows the bytes that are left and not those before them.
ghost use Rattle.std.specs.Prelude.{◌≡◌, ◌-◌, length};
ghost use Rattle.book.specs.Format.{place};

use book::fault::{Fault, FaultAt};

// A fault, and how many bytes are left from its place on.
#[derive(Clone, Copy)]
pub struct FaultFromEnd {
    pub fault: Fault,
    pub left: usize,
}

impl FaultFromEnd {
    // The fault with its offset in the bytes s, of which the last are left.
    pub fn within(self, s: &[u8]) -> FaultAt
        ensures { result ≡ record { fault = self.fault; at = length s.now - self.left } }
    {
        self.fault.at(s.len().saturating_sub(self.left))
    }
}

// A fault that is found at the first of the bytes s.
pub fn wrong(fault: Fault, s: &[u8]) -> FaultFromEnd
    ensures { result ≡ record { fault = fault; left = place fault 0 (length s.now) } }
{
    FaultFromEnd {
        fault,
        left: fault.place(0, s.len()),
    }
}
