// Moving and writing slots.
ghost use Rattle.std.specs.Prelude.{◌≡◌, ◌+◌, ◌*◌, ◌≤◌, ◌<◌, length, set};
ghost use Rattle.slots.specs.Slots.{slot_width, opened, cleared, closed, written};
ghost use Rattle.types.specs.Units.{units_in};
ghost use Rattle.slots.specs.Runs.{resized};

use crate::slot::{SLOT_WIDTH, Slot};

// Slot i replaced.
// Kept: a loop. Tried: std's `copy_from_slice`. It proves, but looks at run time whether the two overlap: so the slot is made on the stack and read again,
// and a group write takes 1.3 to 1.4 times as long.
#[tactic(auto, using(crate::proofs::SlotMoves::copied_none), unfolding(types::specs::Units::units_in))]
pub fn write_slot(s: &mut [u32], i: usize, u: &Slot)
    requires inside { i < units_in (length s.old) }
    ensures written { s.new ≡ written i u.now s.old }
{
    for j in 0..SLOT_WIDTH {
        s[SLOT_WIDTH * i + j] = u[j];
    }
}

// Word j of slot i replaced.
pub fn set_word(s: &mut [u32], i: usize, j: usize, w: u32)
    requires inside { i < units_in (length s.old) }
    requires within { j < slot_width }
    ensures set { s.new ≡ set s.old (slot_width * i + j) w }
{
    s[SLOT_WIDTH * i + j] = w;
}

// Slots from i on, of n in use, moved up by c.
#[tactic(auto, using(crate::proofs::SlotMoves::copied_opened), unfolding(types::specs::Units::units_in))]
pub fn open_slots(s: &mut [u32], i: usize, n: usize, c: usize)
    requires order { i ≤ n }
    requires room { n + c ≤ units_in (length s.old) }
    ensures opened { s.new ≡ opened c i n s.old }
{
    s.copy_within(SLOT_WIDTH * i..SLOT_WIDTH * n, SLOT_WIDTH * (i + c));
}

// c slots from i on cleared.
#[tactic(auto, using(crate::proofs::SlotMoves::filled_cleared), unfolding(types::specs::Units::units_in))]
pub fn clear_slots(s: &mut [u32], i: usize, c: usize)
    requires inside { i + c ≤ units_in (length s.old) }
    ensures cleared { s.new ≡ cleared c i s.old }
{
    s[SLOT_WIDTH * i..SLOT_WIDTH * (i + c)].fill(0);
}

// Slots from i + c on, of n in use, moved down by c, and the last c of them cleared.
#[tactic(auto, using(crate::proofs::SlotMoves::closed_steps), unfolding(types::specs::Units::units_in))]
pub fn close_slots(s: &mut [u32], i: usize, n: usize, c: usize)
    requires order { i + c ≤ n }
    requires inside { n ≤ units_in (length s.old) }
    ensures closed { s.new ≡ closed c i n s.old }
{
    let left = n - c;
    s.copy_within(SLOT_WIDTH * (i + c)..SLOT_WIDTH * n, SLOT_WIDTH * i);
    clear_slots(s, left, c);
}

// The slots after the n from i on, of `used` in use, moved so that m have room there.
#[tactic(auto, using(crate::proofs::SlotSplices::resized_same, crate::proofs::SlotSplices::resized_up, crate::proofs::SlotSplices::resized_down), unfolding(types::specs::Units::units_in))]
pub fn resize(s: &mut [u32], i: usize, n: usize, m: usize, used: usize)
    requires order { i + n ≤ used }
    requires inside { used ≤ units_in (length s.old) }
    requires room { used + m ≤ units_in (length s.old) + n }
    ensures resized { s.new ≡ resized i n m used s.old }
{
    if n == m {
        return;
    }
    if n < m {
        open_slots(s, i + n, used, m - n);
        return;
    }
    close_slots(s, i + m, used, n - m);
}
