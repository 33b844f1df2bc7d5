// An entry is put where it was looked for: its content's words, and the marks of its row.
ghost use Rattle.std.specs.Prelude.{◌≡◌, true, ◌+◌, ◌≤◌, ◌<◌, length, take};
ghost use Rattle.std.proofs.lemmas.List.Edits.{sets};
ghost use Rattle.std.proofs.Math.Option.{none};
ghost use Rattle.number.specs.Words.{AreWords};
ghost use Rattle.delta.specs.Delta.{delta_width, delta_at, delta_ok};
ghost use Rattle.types.specs.Refusal.{result_number};
ghost use Rattle.types.specs.Units.{units_in};
ghost use Rattle.types.specs.Value.{value_at, value_width};
ghost use Rattle.model.specs.Data as rule;
ghost use Rattle.model.specs.Data.{Entry};
ghost use Rattle.versioned_data.specs.Layout.{content_width, form_of, marks_of, body_of, data_valid};
ghost use Rattle.versioned_data.specs.Found.{IsRow, Gone, FoundIn, PutOver, PutIn, Put, lack_of_more};
ghost use Rattle.versioned_data.specs.Puts.{body_width};

use crate::layout;
use crate::layout::{DataRows, PARTS, WIDTH};
use crate::marks::{Marks, WRITE};
use directory::cells::Place;
use moves::clear;
use store::edit::{NewRow, insert, set_marks};
use store::read::Rows;
use types::refusal::Refusal;
use types::units::{enough, units};
use types::value::VALUE_WIDTH;

// What may be put into a row: an entry, by its marks and the words of its cell.
pub trait Content: Copy {
    ghost entry: { Self → Entry };

    fn marks(self) -> Marks
        ensures marks { result.0 ≡ marks_of (entry self) }
        ensures small { result.0 < 256 };

    // Its words put from word b on.
    fn write(self, s: &mut [u32], b: usize)
        requires room { b + content_width ≤ length s.old }
        ensures put { s.new ≡ sets s.old b (body_of (entry self).cell) }
        ensures long { length (body_of (entry self).cell) ≡ body_width (form_of (entry self).cell) };
}

// A write: its incarnation, and the words of its value.
#[derive(Clone, Copy)]
pub struct Write<'a> {
    pub incarnation: u32,
    pub value: &'a [u32],
    ghost inside: { value_width ≤ length value.now },
}

impl<'a> Content for Write<'a> {
    ghost entry = { λ w. rule.done (rule.write w.incarnation (value_at 0 w.value.now)) };

    #[inline]
    fn marks(self) -> Marks {
        WRITE
    }

    #[inline]
    fn write(self, s: &mut [u32], b: usize) {
        s[b] = self.incarnation;
        s[b + 1..b + 1 + VALUE_WIDTH].copy_from_slice(&self.value[..VALUE_WIDTH]);
    }
}

// A delta's words, of which the last is its sign.
#[derive(Clone, Copy)]
pub struct Added<'a> {
    pub delta: &'a [u32],
    ghost inside: { delta_width ≤ length delta.now },
    ghost words: { AreWords delta.now },
    ghost valid: { delta_ok (take delta_width delta.now) ≡ true },
}

impl<'a> Content for Added<'a> {
    ghost entry = { λ d. rule.done (rule.delta (delta_at (take delta_width d.delta.now)) none) };

    #[inline]
    fn marks(self) -> Marks {
        Marks::of_delta(self.delta[layout::SHORTCUT])
    }

    #[inline]
    fn write(self, s: &mut [u32], b: usize) {
        s[b..b + layout::SHORTCUT].copy_from_slice(&self.delta[..layout::SHORTCUT]);
    }
}

// Content put over that of a row. A content of other marks may be longer, and is cleared first.
fn put_over<C: Content>(s: &mut [u32], row: Place, content: C)
    requires valid { data_valid s.old ≡ true }
    requires row { IsRow s.old row.page row.cell }
    ensures put { PutOver s.old row.page row.cell (C.entry content) s.new }
{
    let n = units(s);
    let new = content.marks();
    let rows: DataRows = Rows { words: s, units: n };
    let m = Marks(rows.marks_at(row));
    let b = rows.content_at(row);
    if m == new {
        content.write(s, b);
        return;
    }
    clear(s, b, layout::CONTENT);
    content.write(s, b);
    set_marks::<WIDTH, PARTS>(s, n, row, new.0);
}

// Whether a unit is free for one row more.
fn enough_for_more(s: &[u32], n: usize) -> Result<(), Refusal>
    requires valid { data_valid s.now ≡ true }
    requires units { n ≡ units_in (length s.now) }
    ensures lack { result_number result ≡ lack_of_more s.now }
{
    if n == 0 {
        return Err(Refusal::UnitsExhausted);
    }
    let rows: DataRows = Rows { words: s, units: n };
    enough(rows.units_held() + 1, n)
}

// Content in a row of its own, unless units lack.
fn put_in<C: Content>(
    s: &mut [u32],
    key: u32,
    place: u32,
    row: Place,
    content: C,
) -> Result<(), Refusal>
    requires valid { data_valid s.old ≡ true }
    requires gone { Gone s.old key place row.page row.cell }
    ensures put { PutIn s.old key place row.page row.cell (C.entry content) (result_number result) s.new }
{
    let n = units(s);
    enough_for_more(s, n)?;
    let marks = content.marks().0;
    let new = NewRow { place, key, marks };
    let b = insert::<WIDTH, PARTS>(s, n, row, new);
    content.write(s, b);
    Ok(())
}

// Content put where its entry was looked for. Only an insertion counts the units held.
pub fn put<C: Content>(
    s: &mut [u32],
    found: Result<Place, Place>,
    key: u32,
    place: u32,
    content: C,
) -> Result<(), Refusal>
    requires valid { data_valid s.old ≡ true }
    requires found { FoundIn s.old key place found }
    ensures put { Put s.old key place found (C.entry content) (result_number result) s.new }
{
    match found {
        Ok(row) => {
            put_over(s, row, content);
            Ok(())
        }
        Err(row) => put_in(s, key, place, row, content),
    }
}
