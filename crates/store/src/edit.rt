// Rows edited.
ghost use Rattle.std.specs.Prelude.{◌≡◌, false, ltb, map, ℕ, suc, ◌+◌, ◌*◌, ◌/◌, ◌%◌, ◌<◌, length, get_or, set};
ghost use Rattle.probe.specs.Cells.{insert_at, erase_at};
ghost use Rattle.numbers.specs.Numbers.{Drops, row_rank};
ghost use Rattle.store.specs.Held.{base_of, held, no_row, position_of, content_of};
ghost use Rattle.store.specs.Valid.{Valid, Stands, There};
ghost use Rattle.store.specs.Edits.{Left, marked, fresh_row};

use crate::payloads::{drop_payload, open_payload, owner_of};
use crate::read::Rows;
use directory::cells::{CellWords, Place, set_word};
use directory::edits::{put_cell, take_cell};
use moves::copy_within;

// Kept: words and units as parameters and `valid`, `there` as clauses: tried in `directory` a struct over the lent words with the ghost fact, which is asked for after each call that writes; between `set_word`, `copy_within`, `drop_payload` and `take_cell` the words are no store, so it stays open.

// The marks of a row, which keep its part. Contents stay where they are, and so does every word but the third of the row's cell.
pub fn set_marks<const WIDTH: usize, const PARTS: usize>(
    s: &mut [u32],
    n: usize,
    at: Place,
    marks: u16,
)
    requires valid { Valid WIDTH (ltb 0 PARTS) n s.old }
    requires there { There WIDTH n s.old at.page at.cell }
    requires part { marks / 256 ≡ (get_or (held WIDTH n s.old) (position_of WIDTH n s.old at.page at.cell) no_row).marks / 256 }
    ensures left { Left WIDTH (ltb 0 PARTS) n (set (held WIDTH n s.old) (position_of WIDTH n s.old at.page at.cell)
        (marked marks (get_or (held WIDTH n s.old) (position_of WIDTH n s.old at.page at.cell) no_row))) s.old s.new }
    ensures contents { (i : ℕ) → content_of WIDTH n s.new i ≡ content_of WIDTH n s.old i }
    ensures rest { (k : ℕ) → (k ≡ base_of WIDTH n + 97 * at.page + 1 + 3 * at.cell + 2 → ⊥) → get_or s.new k 0 ≡ get_or s.old k 0 }
{
    let rows: Rows<WIDTH, PARTS> = Rows { words: s, units: n };
    let a = rows.cell_at(at);
    let w = s[a + 2] % 65536 + 65536 * (marks as u32);
    set_word(s, 6 + WIDTH * n, n, at, w);
}

// A row without its content.
#[derive(Clone, Copy)]
pub struct NewRow {
    pub place: u32,
    pub key: u32,
    pub marks: u16,
}

// A row put in at a place, with zeros for its content, but for its part where the store has parts. The answer is where its content begins.
pub fn insert<const WIDTH: usize, const PARTS: usize>(
    s: &mut [u32],
    n: usize,
    at: Place,
    new: NewRow,
) -> usize
    requires valid { Valid WIDTH (ltb 0 PARTS) n s.old }
    requires stands { Stands WIDTH n s.old at.page at.cell }
    requires free { length (held WIDTH n s.old) < n }
    requires whole { ltb 0 PARTS ≡ false → new.marks < 256 }
    requires order { Drops (map row_rank (insert_at (position_of WIDTH n s.old at.page at.cell) (fresh_row WIDTH new.place new.key new.marks) (held WIDTH n s.old))) }
    ensures left { Left WIDTH (ltb 0 PARTS) n (insert_at (position_of WIDTH n s.old at.page at.cell) (fresh_row WIDTH new.place new.key new.marks) (held WIDTH n s.old))
        s.old s.new }
    ensures content { result ≡ content_of WIDTH n s.new (position_of WIDTH n s.old at.page at.cell) }
{
    let q = s[0];
    let to = 6 + WIDTH * (q as usize);
    let marks = new.marks as u32;
    open_payload(s, to, new.place, new.key, marks / 256);
    let cell = CellWords {
        place: new.place,
        key: new.key,
        word: q + 65536 * marks,
    };
    put_cell(s, 6 + WIDTH * n, n, at, cell);
    to + 2
}

// A row taken out whose payload is the last one, l.
fn erase_last<const WIDTH: usize, const PARTS: usize>(s: &mut [u32], n: usize, at: Place, l: u32)
    requires valid { Valid WIDTH (ltb 0 PARTS) n s.old }
    requires there { There WIDTH n s.old at.page at.cell }
    requires last { suc l ≡ get_or s.old 0 0 }
    requires own { get_or s.old (base_of WIDTH n + 97 * at.page + 1 + 3 * at.cell + 2) 0 % 65536 ≡ l }
    ensures left { Left WIDTH (ltb 0 PARTS) n (erase_at (position_of WIDTH n s.old at.page at.cell) (held WIDTH n s.old)) s.old s.new }
{
    drop_payload(s, 6 + WIDTH * (l as usize), WIDTH, l);
    take_cell(s, 6 + WIDTH * n, n, at);
}

// A row taken out, where the payload of another is the last one: that one goes to the hole.
fn erase_moved<const WIDTH: usize, const PARTS: usize>(
    s: &mut [u32],
    n: usize,
    at: Place,
    other: Place,
)
    requires valid { Valid WIDTH (ltb 0 PARTS) n s.old }
    requires there { There WIDTH n s.old at.page at.cell }
    requires among { There WIDTH n s.old other.page other.cell }
    requires last { suc (get_or s.old (base_of WIDTH n + 97 * other.page + 1 + 3 * other.cell + 2) 0 % 65536) ≡ get_or s.old 0 0 }
    requires less { get_or s.old (base_of WIDTH n + 97 * at.page + 1 + 3 * at.cell + 2) 0 % 65536 < get_or s.old (base_of WIDTH n + 97 * other.page + 1 + 3 * other.cell + 2) 0 % 65536 }
    ensures left { Left WIDTH (ltb 0 PARTS) n (erase_at (position_of WIDTH n s.old at.page at.cell) (held WIDTH n s.old)) s.old s.new }
{
    let rows: Rows<WIDTH, PARTS> = Rows { words: s, units: n };
    let q = rows.number_at(at);
    let l = rows.number_at(other);
    let a = rows.cell_at(other);
    let w = s[a + 2] - (l - q);
    set_word(s, 6 + WIDTH * n, n, other, w);
    let to = 6 + WIDTH * (q as usize);
    let from = 6 + WIDTH * (l as usize);
    copy_within(s, to, from, WIDTH);
    drop_payload(s, from, WIDTH, l);
    take_cell(s, 6 + WIDTH * n, n, at);
}

// A row taken out: the last payload goes to the place of its own.
pub fn erase<const WIDTH: usize, const PARTS: usize>(s: &mut [u32], n: usize, at: Place)
    requires valid { Valid WIDTH (ltb 0 PARTS) n s.old }
    requires there { There WIDTH n s.old at.page at.cell }
    ensures left { Left WIDTH (ltb 0 PARTS) n (erase_at (position_of WIDTH n s.old at.page at.cell) (held WIDTH n s.old)) s.old s.new }
{
    let rows: Rows<WIDTH, PARTS> = Rows { words: s, units: n };
    let q = rows.number_at(at);
    let l = s[0] - 1;
    if q == l {
        erase_last::<WIDTH, PARTS>(s, n, at, l);
        return;
    }
    let other = owner_of::<WIDTH, PARTS>(s, n, l);
    erase_moved::<WIDTH, PARTS>(s, n, at, other);
}
