// Scanning slots for zeros.
ghost use Rattle.std.specs.Prelude.{◌≡◌, ◌≤◌, length, drop};
ghost use Rattle.moves.specs.Moves.{all_zero};
ghost use Rattle.slots.specs.Slots.{slot_width, is_zero_from};
ghost use Rattle.types.specs.Units.{units_in};

use crate::slot::{SLOT_WIDTH, Slot};
use moves::all_zero;
use types::units::units;

// Whether the words of a slot from j on are zero.
pub fn rest_zero(u: &Slot, j: usize) -> bool
    requires within { j ≤ slot_width }
    ensures zero { result ≡ all_zero (drop j u.now) }
{
    all_zero(&u[j..])
}

// Whether the slots from n on are zero.
#[tactic(auto, using(crate::proofs::SlotScans::zero_slots), unfolding(types::specs::Units::units_in))]
pub fn zero_from(s: &[u32], n: usize) -> bool
    requires inside { n ≤ units_in (length s.now) }
    ensures zero { result ≡ is_zero_from n s.now }
{
    all_zero(&s[SLOT_WIDTH * n..SLOT_WIDTH * units(s)])
}
