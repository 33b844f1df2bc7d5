// Cells opened and closed in a page.
ghost use Rattle.std.specs.Prelude.{◌≡◌, ℕ, ◌+◌, ◌*◌, ◌/◌, ◌%◌, ◌≤◌, ◌<◌, get_or, set};
ghost use Rattle.probe.specs.Cells.{spot_at};
ghost use Rattle.directory.specs.Cells.{cell_of, cells_in, position_in};
ghost use Rattle.directory.specs.Directory.{Directory, Laid, There};
ghost use Rattle.directory.specs.Edits.{Left, CellOpened, CellClosed};

use moves::{copy_within, move_up};

// A place among the cells: before cell `cell` of a page, or at the end of the page's cells.
#[derive(Clone, Copy)]
pub struct Place {
    pub page: usize,
    pub cell: usize,
}

// The three words of a cell.
#[derive(Clone, Copy)]
pub struct CellWords {
    pub place: u32,
    pub key: u32,
    pub word: u32,
}

// Kept: words, base and n as parameters and what is known of them (`directory`, `wide`, `many`, `few`, `free`, `inside`) as clauses, here and in edits and shifts: tried a struct over the lent words with the ghost fact that they are a directory, and the check asks for it after each call that writes, so it stays open between `close_cell` and `close_page`, where they are none.

// A cell put into a page with room, at a place.
pub fn open_cell(s: &mut [u32], base: usize, room: usize, at: Place, new: CellWords)
    requires laid { Laid base room s.old }
    requires page { at.page ≤ get_or s.old 1 0 }
    requires fits { at.cell ≤ get_or s.old (base + 97 * at.page) 0 }
    requires free { get_or s.old (base + 97 * at.page) 0 < room }
    ensures opened { CellOpened base room at.page at.cell (cell_of new) s.old s.new }
{
    let a = base + 97 * at.page;
    let to = a + 1 + 3 * at.cell;
    let c = s[a];
    let end = a + 1 + 3 * (c as usize);
    move_up(s, to, end, 3);
    s[to] = new.place;
    s[to + 1] = new.key;
    s[to + 2] = new.word;
    s[a] = c + 1;
}

// The cell at a place taken out.
pub fn close_cell(s: &mut [u32], base: usize, room: usize, at: Place)
    requires laid { Laid base room s.old }
    requires page { at.page ≤ get_or s.old 1 0 }
    requires fits { at.cell < get_or s.old (base + 97 * at.page) 0 }
    requires few { get_or s.old (base + 97 * at.page) 0 ≤ room }
    ensures closed { CellClosed base room at.page at.cell s.old s.new }
{
    let a = base + 97 * at.page;
    let to = a + 1 + 3 * at.cell;
    let c = s[a] - 1;
    let last = a + 1 + 3 * (c as usize);
    copy_within(s, to, to + 3, last - to);
    s[last] = 0;
    s[last + 1] = 0;
    s[last + 2] = 0;
    s[a] = c;
}

// The third word of a cell replaced by one of the same part.
pub fn set_word(s: &mut [u32], base: usize, n: usize, at: Place, w: u32)
    requires directory { Directory base n s.old }
    requires there { There base s.old at.page at.cell }
    requires part { w / 16777216 % 256 ≡ get_or s.old (base + 97 * at.page + 1 + 3 * at.cell + 2) 0 / 16777216 % 256 }
    ensures left { Left base n (set (cells_in base s.old) (position_in base s.old at.page at.cell) (record { spot = spot_at s.old (base + 97 * at.page + 1 + 3 * at.cell); word = w })) s.old s.new }
    ensures rest { (k : ℕ) → (k ≡ base + 97 * at.page + 1 + 3 * at.cell + 2 → ⊥) → get_or s.new k 0 ≡ get_or s.old k 0 }
{
    let to = base + 97 * at.page + 1 + 3 * at.cell;
    s[to + 2] = w;
}
