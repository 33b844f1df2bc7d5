// A store that is read: places among its rows, and what stands there.
ghost use Rattle.std.specs.Prelude.{◌≡◌, true, IfSome, is_some, suc, ◌+◌, ◌*◌, ◌/◌, ◌%◌, ◌≤◌, ◌<◌, ltb, length, get_or};
ghost use Rattle.probe.specs.Cells.{count_above};
ghost use Rattle.numbers.specs.Numbers.{props};
ghost use Rattle.store.specs.Held.{base_of, held, row_spots, no_row, position_of, position_or_end, content_of};
ghost use Rattle.store.specs.Valid.{Valid, Stands, There};

use directory::cells::Place;
use directory::search;
use probe::{key_of, pair, place_of};

// The words of a store. `WIDTH`: the words of a payload; `PARTS`: 1 where the first word of its content is a part, and a spot may have several rows.
// Kept: `PARTS` is a number: tried `bool`, and the check "cannot state an item with a signed or `bool` const parameter beside a ghost field".
#[derive(Clone, Copy)]
pub struct Rows<'a, const WIDTH: usize, const PARTS: usize> {
    pub words: &'a [u32],
    pub units: usize,
    ghost valid: { Valid WIDTH (ltb 0 PARTS) units words.now } by { Prim.hlevel props },
}

impl<'a, const WIDTH: usize, const PARTS: usize> Rows<'a, WIDTH, PARTS> {
    // How many units are held.
    pub fn units_held(self) -> usize
        ensures held { result ≡ length (held WIDTH self.entry.units self.entry.words.now) }
        ensures few { result ≤ self.entry.units }
    {
        search::word(self.words, 0)
    }

    // Kept: four methods that hand on to `search`: each says of rows what that says of cells, and without them each caller would carry base and units, and the clauses of cells.

    // The place after all rows whose spots are above y and before all others.
    #[inline]
    pub fn find_place(self, y: u64) -> Place
        ensures stands { Stands WIDTH self.entry.units self.entry.words.now result.page result.cell }
        ensures place { position_of WIDTH self.entry.units self.entry.words.now result.page result.cell ≡ count_above y (row_spots (held WIDTH self.entry.units self.entry.words.now)) }
    {
        search::find_place(self.words, 6 + WIDTH * self.units, self.units, y)
    }

    // Whether a row stands at a place.
    #[inline]
    pub fn is_row(self, at: Place) -> bool
        requires stands { Stands WIDTH self.units self.words.now at.page at.cell }
        ensures row { result ≡ ltb at.cell (get_or self.entry.words.now (base_of WIDTH self.entry.units + 97 * at.page) 0) }
        ensures there { result ≡ true → There WIDTH self.entry.units self.entry.words.now at.page at.cell }
    {
        search::is_cell(self.words, 6 + WIDTH * self.units, self.units, at)
    }

    // The first row at or after a place, if there is one, as a place of the same position.
    #[inline]
    pub fn cell_after(self, at: Place) -> Option<Place>
        requires stands { Stands WIDTH self.units self.words.now at.page at.cell }
        ensures there { IfSome result (λ p. There WIDTH self.entry.units self.entry.words.now p.page p.cell) }
        ensures place { position_or_end WIDTH self.entry.units self.entry.words.now result ≡ position_of WIDTH self.entry.units self.entry.words.now at.page at.cell }
        ensures some { is_some result ≡ ltb (position_of WIDTH self.entry.units self.entry.words.now at.page at.cell) (length (held WIDTH self.entry.units self.entry.words.now)) }
    {
        search::cell_after(self.words, 6 + WIDTH * self.units, self.units, at)
    }

    // The row after a row, if there is one.
    #[inline]
    pub fn next(self, at: Place) -> Option<Place>
        requires there { There WIDTH self.units self.words.now at.page at.cell }
        ensures there { IfSome result (λ p. There WIDTH self.entry.units self.entry.words.now p.page p.cell) }
        ensures place { position_or_end WIDTH self.entry.units self.entry.words.now result ≡ suc (position_of WIDTH self.entry.units self.entry.words.now at.page at.cell) }
        ensures some { is_some result ≡ ltb (suc (position_of WIDTH self.entry.units self.entry.words.now at.page at.cell)) (length (held WIDTH self.entry.units self.entry.words.now)) }
        ensures stands { Stands WIDTH self.entry.units self.entry.words.now at.page (at.cell + 1) }
        ensures after { position_of WIDTH self.entry.units self.entry.words.now at.page (at.cell + 1) ≡ suc (position_of WIDTH self.entry.units self.entry.words.now at.page at.cell) }
    {
        search::next(self.words, 6 + WIDTH * self.units, self.units, at)
    }

    // The word at which a row's cell begins.
    #[inline]
    pub fn cell_at(self, at: Place) -> usize
        requires there { There WIDTH self.units self.words.now at.page at.cell }
        ensures word { result ≡ base_of WIDTH self.entry.units + 97 * at.page + 1 + 3 * at.cell }
        ensures inside { result + 2 < length self.entry.words.now }
    {
        6 + WIDTH * self.units + 97 * at.page + 1 + 3 * at.cell
    }

    // Place and key of a row as one value.
    #[inline]
    pub fn spot_at(self, at: Place) -> u64
        requires there { There WIDTH self.units self.words.now at.page at.cell }
        ensures spot { result ≡ (get_or (held WIDTH self.entry.units self.entry.words.now) (position_of WIDTH self.entry.units self.entry.words.now at.page at.cell) no_row).spot }
    {
        pair(self.words, self.cell_at(at))
    }

    #[inline]
    pub fn place_at(self, at: Place) -> u32
        requires there { There WIDTH self.units self.words.now at.page at.cell }
        ensures place { result ≡ (get_or (held WIDTH self.entry.units self.entry.words.now) (position_of WIDTH self.entry.units self.entry.words.now at.page at.cell) no_row).spot % 4294967296 }
    {
        place_of(self.words, self.cell_at(at))
    }

    #[inline]
    #[tactic(auto, using(crate::proofs::Reading::read_key))]
    pub fn key_at(self, at: Place) -> u32
        requires there { There WIDTH self.units self.words.now at.page at.cell }
        ensures key { result ≡ (get_or (held WIDTH self.entry.units self.entry.words.now) (position_of WIDTH self.entry.units self.entry.words.now at.page at.cell) no_row).spot / 4294967296 }
    {
        key_of(self.words, self.cell_at(at))
    }

    #[inline]
    pub fn marks_at(self, at: Place) -> u16
        requires there { There WIDTH self.units self.words.now at.page at.cell }
        ensures marks { result ≡ (get_or (held WIDTH self.entry.units self.entry.words.now) (position_of WIDTH self.entry.units self.entry.words.now at.page at.cell) no_row).marks }
    {
        (self.words[self.cell_at(at) + 2] / 65536) as u16
    }

    // The number of the payload that a row's cell names.
    #[inline]
    pub fn number_at(self, at: Place) -> u32
        requires there { There WIDTH self.units self.words.now at.page at.cell }
        ensures content { 6 + WIDTH * result + 2 ≡ content_of WIDTH self.entry.units self.entry.words.now (position_of WIDTH self.entry.units self.entry.words.now at.page at.cell) }
        ensures word { result ≡ get_or self.entry.words.now (base_of WIDTH self.entry.units + 97 * at.page + 1 + 3 * at.cell + 2) 0 % 65536 }
        ensures used { result < get_or self.entry.words.now 0 0 }
        ensures inside { 6 + WIDTH * result + WIDTH ≤ length self.entry.words.now }
    {
        self.words[self.cell_at(at) + 2] % 65536
    }

    // The word at which a row's content begins.
    #[inline]
    pub fn content_at(self, at: Place) -> usize
        requires there { There WIDTH self.units self.words.now at.page at.cell }
        ensures content { result ≡ content_of WIDTH self.entry.units self.entry.words.now (position_of WIDTH self.entry.units self.entry.words.now at.page at.cell) }
    {
        6 + WIDTH * (self.number_at(at) as usize) + 2
    }
}
