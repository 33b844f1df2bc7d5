// Finding slots by binary search: a slot that is not in use counts as after everything.
ghost use Rattle.std.specs.Prelude.{◌≡◌, true, false, ◌-◌, ◌≤◌, ◌<◌, ℕ, length};
ghost use Rattle.slots.specs.Slots.{held, packed, place_of};
ghost use Rattle.slots.specs.Place.{words_of};
ghost use Rattle.slots.specs.Found.{found_at};

use crate::slot::{Place, is_used, slots_of, stands_at, stands_before};

// The first index below n that fails a test, or n, where all that fail stand after all that pass.
// Kept: a loop of its own. Tried: std's `partition_point` over `slots_of`. It proves, and a group fetch below 12 updates then takes 106 ns for 97, also with
// the search inlined.
fn partition_point<F: Fn(usize) -> bool>(n: usize, passes: F) -> usize
    requires callable { (i : ℕ) → i < n → F.pre passes i }
    ensures within { result ≤ n }
    ensures last { 0 < result → F.post passes (result - 1) true }
    ensures first { result < n → F.post passes result false }
{
    let mut low = 0;
    let mut high = n;
    while low < high {
        let middle = low + (high - low) / 2;
        if passes(middle) {
            low = middle + 1;
        } else {
            high = middle;
        }
    }
    low
}

// Kept: `packed` as a clause of these three, since most callers edit the words next: a view over them would be made for the one call.
// How many slots in use stand before a place: the index of the slot at that place, or where it is to be inserted.
pub fn lower_bound(s: &[u32], at: Place) -> usize
    requires packed { packed s.now ≡ true }
    ensures place { result ≡ place_of (words_of «at») (held s.now) }
    ensures within { result ≤ length (held s.now) }
{
    let slots = slots_of(s);
    partition_point(slots.len(), |i| stands_before(&slots[i], at))
}

// Where a slot stands that is looked for by its place, or where it would be inserted. The first word is not 0, as no free slot is to be found.
pub fn find_slot(s: &[u32], at: Place) -> Result<usize, usize>
    requires packed { packed s.now ≡ true }
    requires in_use { 0 < «at».kind }
    ensures found { result ≡ found_at (words_of «at») (held s.now) }
{
    let slots = slots_of(s);
    let i = lower_bound(s, at);
    if i < slots.len() && stands_at(&slots[i], at) {
        Ok(i)
    } else {
        Err(i)
    }
}

// How many slots are in use.
pub fn used(s: &[u32]) -> usize
    requires packed { packed s.now ≡ true }
    ensures used { result ≡ length (held s.now) }
{
    let slots = slots_of(s);
    partition_point(slots.len(), |i| is_used(&slots[i]))
}
