// Cells put into a directory and taken out.
ghost use Rattle.std.specs.Prelude.{◌≡◌, ◌+◌, ◌*◌, ◌≤◌, ◌<◌, length, get_or};
ghost use Rattle.probe.specs.Cells.{insert_at, erase_at};
ghost use Rattle.numbers.specs.Numbers.{ranks, Drops};
ghost use Rattle.directory.specs.Cells.{cell_of, cells_in, position_in};
ghost use Rattle.directory.specs.Directory.{Directory, Stands, There};
ghost use Rattle.directory.specs.Edits.{Left};

use crate::cells::{CellWords, Place, close_cell, open_cell};
use crate::search::{room, word};
use crate::shifts::{close_page, make_room};

// The cell at a place taken out; the page too, where it is then empty and not the only one.
pub fn take_cell(s: &mut [u32], base: usize, n: usize, at: Place)
    requires directory { Directory base n s.old }
    requires there { There base s.old at.page at.cell }
    ensures taken { Left base n (erase_at (position_in base s.old at.page at.cell) (cells_in base s.old)) s.old s.new }
{
    close_cell(s, base, room(n), at);
    if 0 < word(s, base + 97 * at.page) {
        return;
    }
    if word(s, 1) == 0 {
        return;
    }
    close_page(&mut s[0..], base, n, at.page);
}

// A cell put into a full page, which needs room for it.
fn put_full(s: &mut [u32], base: usize, n: usize, at: Place, new: CellWords)
    requires directory { Directory base n s.old }
    requires many { 64 < n }
    requires few { n ≤ 4096 }
    requires stands { Stands base s.old at.page at.cell }
    requires full { get_or s.old (base + 97 * at.page) 0 ≡ 32 }
    requires free { length (cells_in base s.old) < n }
    requires order { Drops (ranks (insert_at (position_in base s.old at.page at.cell) (cell_of new) (cells_in base s.old))) }
    ensures put { Left base n (insert_at (position_in base s.old at.page at.cell) (cell_of new) (cells_in base s.old)) s.old s.new }
{
    let to = make_room(s, base, n, at);
    open_cell(s, base, 32, to, new);
}

// A cell put in at a place. There is a unit free.
pub fn put_cell(s: &mut [u32], base: usize, n: usize, at: Place, new: CellWords)
    requires directory { Directory base n s.old }
    requires stands { Stands base s.old at.page at.cell }
    requires free { length (cells_in base s.old) < n }
    requires order { Drops (ranks (insert_at (position_in base s.old at.page at.cell) (cell_of new) (cells_in base s.old))) }
    requires few { n ≤ 4096 }
    ensures put { Left base n (insert_at (position_in base s.old at.page at.cell) (cell_of new) (cells_in base s.old)) s.old s.new }
{
    let r = room(n);
    if r <= word(s, base + 97 * at.page) {
        put_full(&mut s[0..], base, n, at, new);
        return;
    }
    open_cell(s, base, r, at, new);
}
