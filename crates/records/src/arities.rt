// The arities of a book's predicates.
ghost use Rattle.std.specs.Prelude.{◌≡◌, ◌≤◌, ◌<◌, true, length, get_or};
ghost use Rattle.masks.specs.Limits.{max_arity};
ghost use Rattle.masks.specs.Lists.{all};
ghost use Rattle.book.specs.Limits.{max_predicates};
ghost use Rattle.book.specs.Format.{allows};
ghost use Rattle.book.specs.declared.range.Range.TheVariants.{AtMost};

// As many arities as there are predicates: no more than there may be, and none too large.
#[derive(Clone, Copy)]
pub struct Arities<'a> {
    pub list: &'a [u8],
    ghost few: { length list.now ≤ max_predicates },
    ghost fit: { all (allows (AtMost max_arity)) list.now ≡ true },
}

impl<'a> Arities<'a> {
    // How many predicates there are.
    pub fn predicates(self) -> u8
        ensures { result ≡ length self.entry.list.now }
    {
        self.list.len() as u8
    }

    // The arity of predicate p.
    pub fn arity(self, p: u8) -> u8
        requires { p < length self.list.now }
        ensures value { result ≡ get_or self.entry.list.now p 0 }
        ensures upper_bound { result ≤ max_arity }
    {
        self.list[p as usize]
    }
}
