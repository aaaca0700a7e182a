// Constraints: a pattern tried against a list of masks, and the written form of a list or a set of masks.
//
// A set of masks is held in a word: mask m is in it where bit m is set. A constraint in written form is held so: its masks are the members, rising.
ghost use Rattle.std.specs.Prelude.{◌≡◌, true, ◌||◌, map, ◌+◌, ◌<◌, ◌≤◌, ◌^◌, length};
ghost use Rattle.std.specs.Int.Bits.{bit_or};
ghost use Rattle.std.proofs.lemmas.List.Edits.{sets};
ghost use Rattle.masks.specs.Limits.{max_arity, all_patterns};
ghost use Rattle.masks.specs.Lists.{has, how_many};
ghost use Rattle.masks.specs.Constraint.{admits, in_range, written, minimise};
ghost use Rattle.masks.specs.Set.{bit_at, Holds, members};

use crate::members::Members;
use crate::patterns::{ALL, COLUMNS, mask_lanes};

// "A pattern .. fits a constraint when it fits at least one alternative." Its masks are lent where they stand.
pub fn fits(masks: &[u8], pattern: u8) -> bool
    ensures { result ≡ admits masks.now pattern }
{
    masks.iter().any(|&m| m & pattern == m)
}

// The masks of a list in any order, with repeats, in written form.
pub fn minimised(masks: &[u8]) -> u64
    requires { in_range all_patterns masks.now ≡ true }
    ensures { members result ≡ minimise masks.now }
{
    written(with_unions(0, 0, masks))
}

// The masks of a set in written form: "a mask is dropped at the first other one contained in it". They are taken from the lowest up. Where any other is
// contained in a mask, so is one that is kept, and that one is smaller: so it is enough to look among those kept so far.
pub fn written(set: u64) -> u64
    ensures { members result ≡ written (bit_at set) all_patterns }
{
    let mut kept: u64 = 0;
    'outer: for m in Members::of(set) {
        for k in Members::of(kept) {
            if k & m == k {
                continue 'outer;
            }
        }
        kept = with_member(kept, m);
    }
    kept
}

// The same for what a round leaves, a set of up to 64 patterns. The lowest that is left contains no other, and with it goes all that contains it.
pub fn least(set: u64) -> u64
    ensures { members result ≡ written (bit_at set) all_patterns }
{
    let mut kept: u64 = 0;
    let mut rest = set;
    // No `for` over its members: a turn takes away more than the one it is at.
    while rest != 0 {
        let m = u64::trailing_zeros(rest) as u8;
        kept = with_member(kept, m);
        rest = rest & (mask_lanes(m, &COLUMNS) ^ ALL);
    }
    kept
}

// How many masks a set has.
pub fn count(set: u64) -> usize
    ensures value { result ≡ length (members set) }
    ensures upper_bound { result ≤ all_patterns }
{
    u64::count_ones(set) as usize
}

// Writes the masks of a set, rising, into the output from `at` on; the place after them.
pub fn put_masks(out: &mut [u8], at: usize, set: u64) -> usize
    requires { at + length (members set) ≤ length out.old }
    ensures out_after { out.new ≡ sets out.old at (members set) }
    ensures value { result ≡ at + length (members set) }
{
    let mut p = at;
    for m in Members::of(set) {
        out[p] = m;
        p += 1;
    }
    p
}

// A set of masks, and besides them the union of m with each mask of a list.
pub fn with_unions(set: u64, m: u8, masks: &[u8]) -> u64
    requires { (m < all_patterns) × (in_range all_patterns masks.now ≡ true) }
    ensures { Holds result (λ k. bit_at set k || has (map (bit_or m) masks.now) k) }
{
    let mut all = set;
    for mask in masks {
        all = with_member(all, m | mask);
    }
    all
}

// A set with one more member, also where it is a set of other numbers below 64.
pub fn with_member(set: u64, m: u8) -> u64
    requires { m < all_patterns }
    ensures { result ≡ bit_or set (2 ^ m) }
{
    set | (1u64 << m)
}

// A number below 64 is a member of a set.
pub fn has_member(set: u64, m: u8) -> bool
    requires { m < all_patterns }
    ensures { result ≡ bit_at set m }
{
    (set >> m) % 2 == 1
}

// How many patterns an arity has.
pub fn patterns(arity: u8) -> u8
    requires { arity ≤ max_arity }
    ensures { result ≡ 2 ^ arity }
{
    1u8 << arity
}

// How many patterns of an arity a set of patterns has: the lanes from 2 to the power of the arity on are left out.
pub fn fitting(set: u64, arity: u8) -> u8
    requires { arity ≤ max_arity }
    ensures { result ≡ how_many (bit_at set) (2 ^ arity) }
{
    let lanes = ALL >> (64 - patterns(arity));
    count(set & lanes) as u8
}
