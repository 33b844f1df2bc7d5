// The search in a directory.
ghost use Rattle.std.specs.Prelude.{◌≡◌, true, IfSome, is_some, suc, ◌+◌, ◌*◌, ◌≤◌, ◌<◌, ltb, length, get_or};
ghost use Rattle.probe.specs.Cells.{cells, count_above, falls};
ghost use Rattle.numbers.specs.Numbers.{spots};
ghost use Rattle.directory.specs.Cells.{cells_in, position_in, position_or_end};
ghost use Rattle.directory.specs.Directory.{room_of, Directory, Stands, There};

use crate::cells::Place;
use probe::count;

// A word as an index.
// Kept: `s[at] as usize` says the same, but each of its two dozen uses would then carry the bound of a word in its proof.
pub fn word(s: &[u32], at: usize) -> usize
    requires inside { at < length s.now }
    ensures same { result ≡ get_or s.now at 0 }
    ensures small { result < 4294967296 }
{
    s[at] as usize
}

// The cells that a page has room for, in a directory of n units.
pub fn room(n: usize) -> usize
    ensures room { result ≡ room_of n }
{
    if 64 < n {
        return 32;
    }
    n
}

// How many cells of a page are above y. A length that the compiler knows saves time.
fn count_page(s: &[u32], a: usize, n: usize, y: u64) -> usize
    requires inside { a + 3 * room_of n ≤ length s.now }
    requires order { falls (cells (room_of n) a s.now) ≡ true }
    ensures count { result ≡ count_above y (cells (room_of n) a s.now) }
{
    if 64 < n {
        return count::<3>(s, a, 32, y);
    }
    count::<3>(s, a, n, y)
}

// The place after all cells that are above y and before all that are not.
pub fn find_place(s: &[u32], base: usize, n: usize, y: u64) -> Place
    requires directory { Directory base n s.now }
    ensures stands { Stands base s.now result.page result.cell }
    ensures place { position_in base s.now result.page result.cell ≡ count_above y (spots (cells_in base s.now)) }
{
    let page = count::<97>(s, base + 98, word(s, 1), y);
    let cell = count_page(s, base + 97 * page + 1, n, y);
    Place { page, cell }
}

// Whether a cell stands at a place, which else is the end of its page's cells.
pub fn is_cell(s: &[u32], base: usize, n: usize, at: Place) -> bool
    requires directory { Directory base n s.now }
    requires stands { Stands base s.now at.page at.cell }
    ensures there { result ≡ ltb at.cell (get_or s.now (base + 97 * at.page) 0) }
{
    at.cell < word(s, base + 97 * at.page)
}

// The first cell at or after a place, if there is one: after a page's last cell that of the next page.
pub fn cell_after(s: &[u32], base: usize, n: usize, at: Place) -> Option<Place>
    requires directory { Directory base n s.now }
    requires stands { Stands base s.now at.page at.cell }
    ensures there { IfSome result (λ p. There base s.now p.page p.cell) }
    ensures place { position_or_end base s.now result ≡ position_in base s.now at.page at.cell }
    ensures some { is_some result ≡ ltb (position_in base s.now at.page at.cell) (length (cells_in base s.now)) }
{
    if is_cell(s, base, n, at) {
        return Some(at);
    }
    if word(s, 1) <= at.page {
        return None;
    }
    Some(Place {
        page: at.page + 1,
        cell: 0,
    })
}

// The cell after a cell, if there is one. Where there is none, the place after the cell is the end of all of them.
pub fn next(s: &[u32], base: usize, n: usize, at: Place) -> Option<Place>
    requires directory { Directory base n s.now }
    requires there { There base s.now at.page at.cell }
    ensures there { IfSome result (λ p. There base s.now p.page p.cell) }
    ensures place { position_or_end base s.now result ≡ suc (position_in base s.now at.page at.cell) }
    ensures some { is_some result ≡ ltb (suc (position_in base s.now at.page at.cell)) (length (cells_in base s.now)) }
    ensures stands { Stands base s.now at.page (at.cell + 1) }
    ensures after { position_in base s.now at.page (at.cell + 1) ≡ suc (position_in base s.now at.page at.cell) }
{
    cell_after(
        s,
        base,
        n,
        Place {
            page: at.page,
            cell: at.cell + 1,
        },
    )
}
