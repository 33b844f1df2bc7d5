// The slots of a store: their words, their places, and their order.
ghost use Rattle.std.specs.Prelude.{◌≡◌, ◌&&◌, length, take};
ghost use Rattle.slots.specs.Slots.{slots, is_used, is_at, is_before, before};
ghost use Rattle.slots.specs.Place.{words_of};
ghost use Rattle.types.specs.Units.{units_in};

use types::units::units;

// How many words a slot has: `slot_width`.
pub const SLOT_WIDTH: usize = 32;

pub type Slot = [u32; SLOT_WIDTH];

// The slots of a store, in use or not.
#[tactic(auto, using(crate::proofs::StoreWords::chunks_slots), unfolding(types::specs::Units::units_in))]
pub fn slots_of(s: &[u32]) -> &[Slot]
    ensures slots { result.now ≡ slots (units_in (length s.now)) s.now }
{
    let (whole, _) = s.as_chunks::<SLOT_WIDTH>();
    &whole[..units(s)]
}

// A place in the order of slots: their first four words, the first of them first.
#[derive(Clone, Copy, PartialEq, Eq, PartialOrd, Ord)]
pub struct Place {
    pub kind: u32,
    pub key: u32,
    // The shifted index of an update; the tag of a committed value.
    pub index: u32,
    pub part: u32,
}

impl Place {
    // The place of a slot.
    fn read(u: &Slot) -> Place
        ensures place { words_of result ≡ take 4 u.now }
    {
        Place {
            kind: u[0],
            key: u[1],
            index: u[2],
            part: u[3],
        }
    }
}

// Whether a slot is in use.
#[tactic(auto, unfolding(crate::specs::Slots::is_used))]
pub fn is_used(u: &Slot) -> bool
    ensures used { result ≡ is_used u.now }
{
    u[0] != 0
}

// Whether a slot is in use and stands before a place.
pub fn stands_before(u: &Slot, at: Place) -> bool
    ensures order { result ≡ (is_used u.now && before (take 4 u.now) (words_of «at»)) }
{
    is_used(u) && Place::read(u) < at
}

// Whether a slot stands at a place.
pub fn stands_at(u: &Slot, at: Place) -> bool
    ensures place { result ≡ is_at (words_of «at») u.now }
{
    Place::read(u) == at
}

// Whether a slot stands before another.
pub fn in_order(u: &Slot, v: &Slot) -> bool
    ensures order { result ≡ is_before u.now v.now }
{
    let first = Place::read(u);
    let second = Place::read(v);
    first < second
}
