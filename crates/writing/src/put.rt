// Bytes and marks, stored from a place on; each answers the place after it.
ghost use Rattle.std.specs.Prelude.{◌≡◌, [], ◌∷◌, length};
ghost use Rattle.masks.specs.Set.{members};
ghost use Rattle.writing.specs.Wrote.{Room, Wrote};

use masks::constraint::put_masks;

// The two bytes of a mark.
pub fn put_mark(out: &mut [u8], at: usize, m: &[u8; 2]) -> usize
    requires { Room out.old at m.now }
    ensures { Wrote out.old out.new at result m.now }
{
    let p = put_byte(out, at, m[0]);
    put_byte(out, p, m[1])
}

// Bytes, one after the other.
pub fn put_bytes(out: &mut [u8], at: usize, b: &[u8]) -> usize
    requires { Room out.old at b.now }
    ensures { Wrote out.old out.new at result b.now }
{
    let mut p = at;
    for &x in b {
        p = put_byte(out, p, x);
    }
    p
}

// A predicate, the number of masks of a set, and the masks. The number is known once they are written.
pub fn put_constraint(out: &mut [u8], at: usize, p: u8, masks: u64) -> usize
    requires { Room out.old at (p ∷ length (members masks) ∷ members masks) }
    ensures { Wrote out.old out.new at result (p ∷ length (members masks) ∷ members masks) }
{
    let q = put_byte(out, at, p);
    let end = put_masks(out, q + 1, masks);
    put_byte(out, q, (end - q - 1) as u8);
    end
}

// One byte.
pub fn put_byte(out: &mut [u8], at: usize, x: u8) -> usize
    requires { Room out.old at (x ∷ []) }
    ensures { Wrote out.old out.new at result (x ∷ []) }
{
    out[at] = x;
    at + 1
}
