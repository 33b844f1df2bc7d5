// Payloads put to use and given up, and the row that a payload belongs to.
ghost use Rattle.std.specs.Prelude.{◌≡◌, ltb, ◌+◌, ◌*◌, ◌%◌, ◌≤◌, ◌<◌, length, get_or};
ghost use Rattle.store.specs.Held.{base_of};
ghost use Rattle.store.specs.Valid.{Valid, There};
ghost use Rattle.store.specs.Payloads.{PayloadOpened, Dropped};

use crate::read::Rows;
use directory::cells::Place;
use moves::clear;
use probe::pair;

// A payload more in use, at `at`, with place, key and part of its cell.
pub fn open_payload(s: &mut [u32], at: usize, place: u32, key: u32, part: u32)
    requires low { 6 ≤ at }
    requires inside { at + 3 ≤ length s.old }
    requires small { get_or s.old 0 0 < 65536 }
    ensures opened { PayloadOpened at place key part s.old s.new }
{
    let q = s[0];
    s[at] = place;
    s[at + 1] = key;
    s[at + 2] = part;
    s[0] = q + 1;
}

// The last payload, at `from`, made zero; l are left.
pub fn drop_payload(s: &mut [u32], from: usize, width: usize, l: u32)
    requires inside { from + width ≤ length s.old }
    requires low { 0 < from }
    requires some { 0 < width }
    ensures dropped { Dropped from width l s.old s.new }
{
    clear(s, from, width);
    s[0] = l;
}

// The cell that names payload l: one of those with the spot that the payload carries.
pub fn owner_of<const WIDTH: usize, const PARTS: usize>(s: &[u32], n: usize, l: u32) -> Place
    requires valid { Valid WIDTH (ltb 0 PARTS) n s.now }
    requires used { l < get_or s.now 0 0 }
    requires some { 0 < l }
    ensures there { There WIDTH n s.now result.page result.cell }
    ensures owns { get_or s.now (base_of WIDTH n + 97 * result.page + 1 + 3 * result.cell + 2) 0 % 65536 ≡ l }
{
    let rows: Rows<WIDTH, PARTS> = Rows { words: s, units: n };
    let y = pair(s, 6 + WIDTH * (l as usize));
    // Kept: a loop over `next`, here and in the scan of rows: as an `Iterator` it would be a struct of the view and a place with a ghost fact of its own, more than both loops, and the proof of a `for` would speak of the places that came and not of this one.
    let mut at = rows.cell_after(rows.find_place(y));
    while let Some(p) = at {
        if rows.number_at(p) == l {
            return p;
        }
        at = rows.next(p);
    }
    unreachable!()
}
