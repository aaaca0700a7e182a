// Patterns, all 64 at once. A set of patterns is held in a word as a set of masks is: pattern a is in it where bit a is set. Where a word speaks of 64
// things side by side, each with a pattern of its own, bit a is lane a.
ghost use Rattle.std.specs.Prelude.{◌≡◌, ℕ, ◌<◌};
ghost use Rattle.masks.specs.Limits.{all_patterns};
ghost use Rattle.masks.specs.Mask.{within};
ghost use Rattle.masks.specs.Constraint.{admits};
ghost use Rattle.masks.specs.Set.{bit_at, members};
ghost use Rattle.masks.specs.Patterns.{EachLane, Agrees};

use crate::limits::MAX_ARGUMENTS;
use crate::members::Members;

// All lanes.
pub const ALL: u64 = 0xFFFF_FFFF_FFFF_FFFF;

// Word i: the lanes whose pattern has bit i, where lane a is for pattern a.
pub const COLUMNS: [u64; MAX_ARGUMENTS] = [
    0xAAAA_AAAA_AAAA_AAAA,
    0xCCCC_CCCC_CCCC_CCCC,
    0xF0F0_F0F0_F0F0_F0F0,
    0xFF00_FF00_FF00_FF00,
    0xFFFF_0000_FFFF_0000,
    0xFFFF_FFFF_0000_0000,
];

// The patterns that fit the constraint with these masks, as a set; `constraint::least` turns it back.
pub fn admitted(masks: u64) -> u64
    ensures { EachLane (λ a. bit_at result a ≡ admits (members masks) a) }
{
    fit_lanes(masks, &COLUMNS)
}

// The lanes whose pattern fits the constraint with these masks. Word i has the lanes whose pattern has bit i.
pub fn fit_lanes(masks: u64, words: &[u64; MAX_ARGUMENTS]) -> u64
    ensures { EachLane (λ a. (p : ℕ) → Agrees words.now a p → bit_at result a ≡ admits (members masks) p) }
{
    let mut r: u64 = 0;
    for m in Members::of(masks) {
        r |= mask_lanes(m, words);
    }
    r
}

// The lanes whose pattern has all the bits of the mask. Each turn takes the lowest bit that is left.
pub fn mask_lanes(mask: u8, words: &[u64; MAX_ARGUMENTS]) -> u64
    requires { mask < all_patterns }
    ensures { EachLane (λ a. (p : ℕ) → Agrees words.now a p → bit_at result a ≡ within mask p) }
{
    let mut w = ALL;
    for i in Members::of(mask as u64) {
        w &= words[i as usize];
    }
    w
}
