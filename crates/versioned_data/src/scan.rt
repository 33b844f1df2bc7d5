// Rule 5 for the data store: its words are those of a store, and each row is that of a fine entry.
ghost use Rattle.std.specs.Prelude.{◌≡◌, false, ◌+◌, ◌≤◌, length, get_or, take, drop};
ghost use Rattle.lists.specs.Lists.{every};
ghost use Rattle.store.specs.Held.{no_row};
ghost use Rattle.store.specs.Valid.{Valid, There};
ghost use Rattle.versioned_data.specs.Layout.{payload_width, content_width, row_ok, data_valid};
ghost use Rattle.versioned_data.specs.Rows.{rows_of, position_in};
ghost use Rattle.versioned_data.specs.Test.{side_test, write_test, delta_test, marks_test};

use crate::layout::{DataRows, PARTS, WIDTH};
use crate::marks::{Form, Marks, WRITE};
use crate::walk::read_op;
use directory::cells::Place;
use moves::all_zero;
use store::read::Rows;
use store::scan::is_store;
use types::units::units;
use types::value::{ValueWithLayout, value_ok};

// Whether the write at b may stand at a place: at the base, incarnation 0 and done; above it, exchanged.
fn side_ok(s: &[u32], b: usize, place: u32, marks: Marks) -> bool
    requires inside { b + content_width ≤ length s.now }
    ensures side { result ≡ side_test place marks.0 (take content_width (drop b s.now)) }
{
    if place != 0 {
        return ValueWithLayout::read(s, b + 1).is_exchanged();
    }
    if s[b] != 0 {
        return false;
    }
    marks == WRITE
}

// Whether a write is at b, with zeros after it.
fn write_ok(s: &[u32], b: usize, place: u32, marks: Marks) -> bool
    requires inside { b + content_width ≤ length s.now }
    ensures write { result ≡ write_test place marks.0 (take content_width (drop b s.now)) }
{
    if !value_ok(s, b + 1) {
        return false;
    }
    if !side_ok(s, b, place, marks) {
        return false;
    }
    all_zero(&s[b + 8..b + 20])
}

// Whether a delta above the base is at b, with zeros after it where it has no shortcut.
fn delta_ok(s: &[u32], b: usize, place: u32, marks: Marks) -> bool
    requires inside { b + content_width ≤ length s.now }
    ensures delta { result ≡ delta_test place marks.0 (take content_width (drop b s.now)) }
{
    if place == 0 {
        return false;
    }
    if !read_op(s, b, marks.sign()).is_valid() {
        return false;
    }
    if marks.is_delta_alone() {
        return all_zero(&s[b + 16..b + 20]);
    }
    true
}

// Whether the content at b is one of these marks.
fn content_ok(s: &[u32], b: usize, place: u32, marks: Marks) -> bool
    requires inside { b + content_width ≤ length s.now }
    ensures content { result ≡ marks_test place marks.0 (take content_width (drop b s.now)) }
{
    let Some(form) = marks.form() else {
        return false;
    };
    match form {
        Form::Write => {
            if marks.sign() != 0 {
                return false;
            }
            write_ok(s, b, place, marks)
        }
        Form::Delta => delta_ok(s, b, place, marks),
        Form::DeltaWithShortcut => delta_ok(s, b, place, marks),
    }
}

// Whether a row is that of a fine entry.
// Kept: words and units as two parameters, and `valid` as a clause: tried the view `DataRows`; of a slice in a struct the check tells its length alone, so that each word is below 2^32 stayed open.
fn row_ok(s: &[u32], n: usize, at: Place) -> bool
    requires valid { Valid payload_width false n s.now }
    requires there { There payload_width n s.now at.page at.cell }
    ensures row { result ≡ row_ok (get_or (rows_of n s.now) (position_in n s.now at.page at.cell) no_row) }
{
    let rows: DataRows = Rows { words: s, units: n };
    let b = rows.content_at(at);
    let place = rows.place_at(at);
    content_ok(s, b, place, Marks(rows.marks_at(at)))
}

// Whether each row is, one after the other.
fn rows_ok(s: &[u32], n: usize) -> bool
    requires valid { Valid payload_width false n s.now }
    ensures rows { result ≡ every row_ok (rows_of n s.now) }
{
    let rows: DataRows = Rows { words: s, units: n };
    let mut at = rows.cell_after(Place { page: 0, cell: 0 });
    while let Some(p) = at {
        if !row_ok(s, n, p) {
            return false;
        }
        at = rows.next(p);
    }
    true
}

// Rule 5: whether the words are those of a store that holds fine entries.
pub fn is_valid(s: &[u32]) -> bool
    ensures valid { result ≡ data_valid s.now }
{
    if !is_store::<WIDTH, PARTS>(s) {
        return false;
    }
    let n = units(s);
    if n == 0 {
        return true;
    }
    rows_ok(s, n)
}
