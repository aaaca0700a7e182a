// The modes of predicates, in the array that holds those of a book. It is read and written through a slice, whose length the proof
// knows.
ghost use Rattle.std.specs.Prelude.{◌≡◌, ◌<◌, ◌≤◌, length};
ghost use Rattle.masks.specs.Limits.{max_masks};
ghost use Rattle.masks.specs.Set.{members};
ghost use Rattle.book.specs.Limits.{max_predicates};
ghost use Rattle.book.specs.Held.{has_in, masks_in, mode_bytes, HaveMode, StoredMode};

use crate::limits::{MODE_SIZE, MODES_SIZE, PREDICATES};
use masks::constraint::{put_masks, with_member};
use masks::limits::MAX_MASKS;

// Predicate p has `MO`.
pub fn has_mode(modes: &[u8; MODES_SIZE], p: u8) -> bool
    requires { p < max_predicates }
    ensures { result ≡ has_in (mode_bytes modes.now p) }
{
    let at = p as usize * MODE_SIZE;
    modes[at] != 0
}

// The predicates that have `MO`, as a set.
pub fn with_mode(modes: &[u8; MODES_SIZE]) -> u64
    ensures { HaveMode modes.now result }
{
    let mut set: u64 = 0;
    for p in 0..PREDICATES {
        if has_mode(modes, p) {
            set = with_member(set, p);
        }
    }
    set
}

// The masks of predicate p where they stand, as given; where it has no `MO`, they say nothing.
pub fn masks_at(modes: &[u8; MODES_SIZE], p: u8) -> &[u8]
    requires { p < max_predicates }
    ensures { result.now ≡ masks_in (mode_bytes modes.now p) }
{
    let bytes: &[u8] = modes;
    let at = p as usize * MODE_SIZE;
    let start = at + 2;
    let end = start + usize::from(bytes[at + 1]).min(MAX_MASKS);
    &bytes[start..end]
}

// Gives predicate p `MO` with the masks of a set.
pub fn put_mode(modes: &mut [u8; MODES_SIZE], p: u8, masks: u64)
    requires { (p < max_predicates) × (length (members masks) ≤ max_masks) }
    ensures { StoredMode modes.old modes.new p (members masks) }
{
    let at = p as usize * MODE_SIZE;
    let bytes: &mut [u8] = modes;
    bytes[at] = 1;
    let end = put_masks(bytes, at + 2, masks);
    bytes[at + 1] = (end - at - 2) as u8;
}
