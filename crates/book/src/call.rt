// A call: a subgoal, or the head of a clause. It is one word: its predicate in the lowest byte, above it the number of its arguments, above that six
// arguments, one byte each. The number takes the three lowest bits of its byte; the bit above them is set where a subgoal is negated, and the other four
// say nothing.
ghost use Rattle.std.specs.Prelude.{◌≡◌, ◌<◌, ◌≤◌, length, get_or};
ghost use Rattle.masks.specs.Limits.{max_arity};
ghost use Rattle.book.specs.Held.{call_in};

use masks::limits::MAX_ARGUMENTS;

#[derive(Clone, Copy)]
pub struct Call {
    pub word: u64,
}

impl Call {
    pub fn predicate(self) -> u8
        ensures { result ≡ (call_in self.word).pred }
    {
        (self.word % 256) as u8
    }

    // It says "not".
    pub fn is_negated(self) -> bool
        ensures { result ≡ (call_in self.word).negated }
    {
        (self.word >> 11) % 2 == 1
    }

    // How many arguments it has. A number above six means six.
    pub fn arguments(self) -> usize
        ensures value { result ≡ length (call_in self.word).args }
        ensures upper_bound { result ≤ max_arity }
    {
        MAX_ARGUMENTS.min((self.word >> 8) as usize % 8)
    }

    pub fn argument(self, i: usize) -> u8
        requires { i < length (call_in self.word).args }
        ensures { result ≡ get_or (call_in self.word).args i 0 }
    {
        ((self.word >> (16 + 8 * i)) % 256) as u8
    }
}
