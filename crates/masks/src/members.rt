// The numbers in a set, from the lowest up.
ghost use Rattle.std.specs.Prelude.{◌≡◌};

// Those that a loop has not come to yet, in a word.
#[derive(Clone, Copy)]
pub struct Members {
    pub left: u64,
}

impl Members {
    // The members of a set.
    pub fn of(set: u64) -> Members
        ensures { result.left ≡ set }
    {
        Members { left: set }
    }
}

impl Iterator for Members {
    ghost use Rattle.std.specs.Iterator.{YieldsFirst, item_count};
    ghost use Rattle.masks.specs.Set.{members};

    type Item = u8;

    ghost next_gives = { YieldsFirst (λ s. members s.left) };

    ghost remaining = { item_count (λ s. members s.left) };

    fn next(&mut self) -> Option<u8> {
        if self.left == 0 {
            return None;
        }
        let lowest = u64::trailing_zeros(self.left) as u8;
        self.left = self.left & (self.left - 1);
        Some(lowest)
    }
}
