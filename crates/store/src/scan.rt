// Whether words are a store (rule 5), in one pass.
ghost use Rattle.std.specs.Prelude.{◌≡◌, cond, ◌&&◌, ◌+◌, ◌-◌, ◌*◌, ◌/◌, ◌≤◌, ◌<◌, ltb, eqb, length, get_or};
ghost use Rattle.std.specs.Option.{ForSome};
ghost use Rattle.numbers.specs.Numbers.{rank_of, number_of, fine, scans};
ghost use Rattle.directory.specs.Cells.{cell_at, page_at};
ghost use Rattle.directory.specs.Directory.{room_of, most_pages};
ghost use Rattle.store.specs.Held.{base_of, carried_at};
ghost use Rattle.store.specs.Scan.{page_test, cells_test, valid_test, is_store, limit_at};

use directory::search::{room, word};
use moves::all_zero;
use probe::pair;
use types::units::units;

// Kept: `inside`, `wide`, `payloads`, `size`, `space` and `pages` as clauses down the scan: they are what its tests so far have told of words that are no store yet, so there is no type that they could be facts of.

// The most pages of a directory of n units.
fn most_pages(n: usize) -> usize
    ensures most { result ≡ most_pages n }
{
    if 64 < n {
        return n / 11;
    }
    1
}

// The part that a payload carries.
fn carried_part<const PARTS: usize>(s: &[u32], p: usize) -> usize
    requires inside { p + 3 ≤ length s.now }
    ensures part { result ≡ cond (ltb 0 PARTS) (get_or s.now (p + 2) 0) 0 }
    ensures small { result < 4294967296 }
{
    if 0 < PARTS {
        return word(s, p + 2);
    }
    0
}

// Whether the payload of a cell is in use and carries the cell's rank.
fn is_named<const WIDTH: usize, const PARTS: usize>(s: &[u32], at: usize) -> bool
    requires inside { at + 3 ≤ length s.now }
    requires wide { 3 ≤ WIDTH }
    requires payloads { 6 + WIDTH * get_or s.now 0 0 ≤ length s.now }
    ensures named { result ≡ (ltb (number_of (cell_at s.now at)) (get_or s.now 0 0) && eqb (carried_at WIDTH (ltb 0 PARTS) s.now (number_of (cell_at s.now at))) (rank_of (cell_at s.now at))) }
{
    let w = word(s, at + 2);
    let q = w % 65536;
    if word(s, 0) <= q {
        return false;
    }
    let p = 6 + WIDTH * q;
    if pair(s, p) != pair(s, at) {
        return false;
    }
    carried_part::<PARTS>(s, p) == w / 16777216
}

// Whether the rank of a cell is below that of another.
fn falls(s: &[u32], last: usize, at: usize) -> bool
    requires before { last + 3 ≤ length s.now }
    requires inside { at + 3 ≤ length s.now }
    ensures below { result ≡ ltb (rank_of (cell_at s.now at)) (rank_of (cell_at s.now last)) }
{
    let x = pair(s, last);
    let y = pair(s, at);
    if x != y {
        return y < x;
    }
    word(s, at + 2) / 16777216 < word(s, last + 2) / 16777216
}

// Whether a cell passes after the one at `last`, or as the first.
fn is_fine<const WIDTH: usize, const PARTS: usize>(
    s: &[u32],
    last: Option<usize>,
    at: usize,
) -> bool
    requires before { ForSome last (λ l. l + 3 ≤ length s.now) }
    requires inside { at + 3 ≤ length s.now }
    requires wide { 3 ≤ WIDTH }
    requires payloads { 6 + WIDTH * get_or s.now 0 0 ≤ length s.now }
    ensures fine { result ≡ fine (carried_at WIDTH (ltb 0 PARTS) s.now) (get_or s.now 0 0) (limit_at s.now last at) (cell_at s.now at) }
{
    if !is_named::<WIDTH, PARTS>(s, at) {
        return false;
    }
    match last {
        None => true,
        Some(last) => falls(s, last, at),
    }
}

// Whether the cells of the page at a word pass, one after the other.
fn cells_pass<const WIDTH: usize, const PARTS: usize>(
    s: &[u32],
    before: Option<usize>,
    a: usize,
) -> bool
    requires before { ForSome before (λ l. l + 3 ≤ length s.now) }
    requires inside { a + 1 + 3 * get_or s.now a 0 ≤ length s.now }
    requires wide { 3 ≤ WIDTH }
    requires payloads { 6 + WIDTH * get_or s.now 0 0 ≤ length s.now }
    ensures cells { result ≡ scans (carried_at WIDTH (ltb 0 PARTS) s.now) (get_or s.now 0 0) (limit_at s.now before (a + 1)) (page_at s.now a) }
{
    let c = word(s, a);
    let mut last = before;
    for j in 0..c {
        let at = a + 1 + 3 * j;
        if !is_fine::<WIDTH, PARTS>(s, last, at) {
            return false;
        }
        last = Some(at);
    }
    true
}

// Whether a page is empty and not the only one.
fn is_void(c: usize, m: usize) -> bool
    ensures void { result ≡ (eqb c 0 && ltb 0 m) }
{
    if c == 0 {
        return 0 < m;
    }
    false
}

// Whether page k has room for its cells, is not empty unless it is the only one, and is zero after them.
fn page_passes(s: &[u32], base: usize, n: usize, k: usize) -> bool
    requires space { base + 97 * (most_pages n - 1) + 1 + 3 * room_of n ≤ 32 * n }
    requires size { 32 * n ≤ length s.now }
    requires pages { get_or s.now 1 0 < most_pages n }
    requires inside { k ≤ get_or s.now 1 0 }
    ensures page { result ≡ page_test base n s.now k }
{
    let m = word(s, 1);
    let a = base + 97 * k;
    let c = word(s, a);
    if room(n) < c {
        return false;
    }
    if is_void(c, m) {
        return false;
    }
    let end = a + 1 + 3 * c;
    if k < m {
        return all_zero(&s[end..a + 97]);
    }
    let to = 32 * n;
    all_zero(&s[end..to])
}

// Whether the pages pass, their cells too, and there are as many cells as payloads in use.
fn pages_pass<const WIDTH: usize, const PARTS: usize>(s: &[u32], base: usize, n: usize) -> bool
    requires wide { 3 ≤ WIDTH }
    requires base { base ≡ base_of WIDTH n }
    requires space { base + 97 * (most_pages n - 1) + 1 + 3 * room_of n ≤ 32 * n }
    requires size { 32 * n ≤ length s.now }
    requires pages { get_or s.now 1 0 < most_pages n }
    requires payloads { 6 + WIDTH * get_or s.now 0 0 ≤ length s.now }
    ensures cells { result ≡ cells_test WIDTH (ltb 0 PARTS) n s.now }
{
    let m = word(s, 1);
    let mut last = None;
    let mut sum = 0;
    for k in 0..m + 1 {
        if !page_passes(s, base, n, k) {
            return false;
        }
        let a = base + 97 * k;
        if !cells_pass::<WIDTH, PARTS>(s, last, a) {
            return false;
        }
        let c = word(s, a);
        last = Some(a + 1 + 3 * c - 3);
        sum += c;
    }
    sum == word(s, 0)
}

// Whether the words of n units are a store.
fn is_valid<const WIDTH: usize, const PARTS: usize>(s: &[u32], n: usize) -> bool
    requires wide { 3 ≤ WIDTH }
    requires narrow { WIDTH ≤ 22 }
    requires some { 0 < n }
    requires size { 32 * n ≤ length s.now }
    ensures valid { result ≡ valid_test WIDTH (ltb 0 PARTS) n s.now }
{
    let h = word(s, 0);
    if n < h {
        return false;
    }
    if most_pages(n) <= word(s, 1) {
        return false;
    }
    if !all_zero(&s[2..6]) {
        return false;
    }
    let base = 6 + WIDTH * n;
    if !all_zero(&s[6 + WIDTH * h..base]) {
        return false;
    }
    pages_pass::<WIDTH, PARTS>(s, base, n)
}

// Whether words are a store: payloads of `WIDTH` words, in a store of parts with the part as their third.
pub fn is_store<const WIDTH: usize, const PARTS: usize>(s: &[u32]) -> bool
    requires wide { 3 ≤ WIDTH }
    requires narrow { WIDTH ≤ 22 }
    ensures valid { result ≡ is_store WIDTH (ltb 0 PARTS) s.now }
{
    let n = units(s);
    if n == 0 {
        return true;
    }
    is_valid::<WIDTH, PARTS>(s, n)
}
