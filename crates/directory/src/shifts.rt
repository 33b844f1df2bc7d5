// Pages put in and taken out, split and joined: the later ones move.
ghost use Rattle.std.specs.Prelude.{◌≡◌, ◌+◌, ◌*◌, ◌/◌, ◌≤◌, ◌<◌, length, get_or};
ghost use Rattle.directory.specs.Cells.{cells_in};
ghost use Rattle.directory.specs.Directory.{Directory};
ghost use Rattle.directory.specs.Pages.{Wide, PageClosed, PageOpened, Cut, PageSplit, Merged, PagesJoined, Freed, Roomy};

use crate::cells::Place;
use crate::search::word;
use moves::{clear, copy_within, move_up};

// Page k taken out.
pub fn close_page(s: &mut [u32], base: usize, n: usize, k: usize)
    requires wide { Wide base n s.old }
    requires inside { k ≤ get_or s.old 1 0 }
    requires more { 0 < get_or s.old 1 0 }
    ensures out { PageClosed base n k s.old s.new }
{
    let e = s[1] - 1;
    let m = (e as usize) + 1;
    copy_within(s, base + 97 * k, base + 97 * (k + 1), 97 * (m - k));
    clear(s, base + 97 * m, 97);
    s[1] = e;
}

// The pages after page k moved up by one; page k + 1 is left as it was.
fn open_page(s: &mut [u32], base: usize, n: usize, k: usize)
    requires wide { Wide base n s.old }
    requires inside { k ≤ get_or s.old 1 0 }
    requires less { get_or s.old 1 0 + 1 < n / 11 }
    requires few { n ≤ 4096 }
    ensures opened { PageOpened base k s.old s.new }
{
    let e = s[1];
    let m = (e as usize) + 1;
    move_up(s, base + 97 * (k + 1), base + 97 * m, 97);
    s[1] = e + 1;
}

// The full page at a cut in two: h cells and, in the next page, the rest.
fn cut(s: &mut [u32], a: usize, h: usize)
    requires inside { a + 194 ≤ length s.old }
    requires fits { h ≤ 32 }
    ensures cut { Cut a h s.old s.new }
{
    let rest = 3 * (32 - h);
    copy_within(s, a + 98, a + 1 + 3 * h, rest);
    clear(s, a + 98 + rest, 3 * h);
    clear(s, a + 1 + 3 * h, rest);
    s[a] = h as u32;
    s[a + 97] = (32 - h) as u32;
}

// Page k, which is full, made two: h cells and the rest.
fn split(s: &mut [u32], base: usize, n: usize, k: usize, h: usize)
    requires wide { Wide base n s.old }
    requires inside { k ≤ get_or s.old 1 0 }
    requires less { get_or s.old 1 0 + 1 < n / 11 }
    requires few { n ≤ 4096 }
    requires full { get_or s.old (base + 97 * k) 0 ≡ 32 }
    requires fits { h ≤ 32 }
    ensures split { PageSplit base n k h s.old s.new }
{
    open_page(s, base, n, k);
    cut(s, base + 97 * k, h);
}

// The d cells of the next page copied after the c cells of the page at a.
fn merge(s: &mut [u32], a: usize, c: u32, d: u32)
    requires inside { a + 194 ≤ length s.old }
    requires fits { c + d ≤ 32 }
    ensures merged { Merged a c d s.old s.new }
{
    copy_within(s, a + 1 + 3 * (c as usize), a + 98, 3 * (d as usize));
    s[a] = c + d;
}

// Page k + 1 joined to page k.
fn join(s: &mut [u32], base: usize, n: usize, k: usize)
    requires wide { Wide base n s.old }
    requires inside { k < get_or s.old 1 0 }
    requires fits { get_or s.old (base + 97 * k) 0 + get_or s.old (base + 97 * k + 97) 0 ≤ 32 }
    ensures joined { PagesJoined base n k s.old s.new }
{
    let a = base + 97 * k;
    let c = s[a];
    let d = s[a + 97];
    merge(s, a, c, d);
    close_page(s, base, n, k + 1);
}

// The first of two neighbours that fit into one page. There are two wherever no page is free and a unit is: 33 * (n / 22) is at least n.
fn find_pair(s: &[u32], base: usize, n: usize) -> usize
    requires directory { Directory base n s.now }
    requires many { 64 < n }
    requires free { length (cells_in base s.now) < n }
    requires full { n / 11 ≤ get_or s.now 1 0 + 1 }
    ensures low { result < get_or s.now 1 0 }
    ensures fits { get_or s.now (base + 97 * result) 0 + get_or s.now (base + 97 * result + 97) 0 ≤ 32 }
{
    for k in 0..word(s, 1) {
        let a = base + 97 * k;
        if word(s, a) + word(s, a + 97) <= 32 {
            return k;
        }
    }
    unreachable!()
}

// Two neighbours joined, where no page is free; where page k, which is full, is then.
fn join_for(s: &mut [u32], base: usize, n: usize, k: usize) -> usize
    requires directory { Directory base n s.old }
    requires many { 64 < n }
    requires free { length (cells_in base s.old) < n }
    requires full { n / 11 ≤ get_or s.old 1 0 + 1 }
    requires inside { k ≤ get_or s.old 1 0 }
    requires page { get_or s.old (base + 97 * k) 0 ≡ 32 }
    ensures freed { Freed base n k s.old s.new result }
{
    let j = find_pair(s, base, n);
    join(s, base, n, j);
    if j < k {
        return k - 1;
    }
    k
}

// A page free, two joined for it where there is none; where page k, which is full, is then.
fn free_page(s: &mut [u32], base: usize, n: usize, k: usize) -> usize
    requires directory { Directory base n s.old }
    requires many { 64 < n }
    requires free { length (cells_in base s.old) < n }
    requires inside { k ≤ get_or s.old 1 0 }
    requires page { get_or s.old (base + 97 * k) 0 ≡ 32 }
    ensures freed { Freed base n k s.old s.new result }
{
    if n / 11 <= word(s, 1) + 1 {
        return join_for(s, base, n, k);
    }
    k
}

// Room made for a cell at a place of a full page: where it goes now. What comes before a whole page gets a page of its own,
// so that cells which rise one after the other fill their pages.
pub fn make_room(s: &mut [u32], base: usize, n: usize, at: Place) -> Place
    requires directory { Directory base n s.old }
    requires many { 64 < n }
    requires few { n ≤ 4096 }
    requires free { length (cells_in base s.old) < n }
    requires inside { at.page ≤ get_or s.old 1 0 }
    requires page { get_or s.old (base + 97 * at.page) 0 ≡ 32 }
    requires fits { at.cell ≤ 32 }
    ensures room { Roomy base n at.page at.cell s.old s.new result.page result.cell }
{
    let j = free_page(s, base, n, at.page);
    let i = at.cell;
    if i == 0 {
        split(s, base, n, j, 0);
        return Place { page: j, cell: i };
    }
    split(s, base, n, j, 16);
    if 16 < i {
        return Place {
            page: j + 1,
            cell: i - 16,
        };
    }
    Place { page: j, cell: i }
}
