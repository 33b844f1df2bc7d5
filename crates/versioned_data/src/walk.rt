// The walk of `VersionedValue::read` down the rows of a key.
ghost use Rattle.std.specs.Prelude.{◌≡◌, true, false, [], ◌∷◌, ◌++◌, IfSome, IfNone, Ok, ◌+◌, ◌-◌, ◌%◌, ◌≤◌, length, get_or, take, drop};
ghost use Rattle.lists.specs.Lists.{every};
ghost use Rattle.number.specs.Number.{value_of};
ghost use Rattle.delta.specs.Delta.{accumulate};
ghost use Rattle.delta.specs.Op.{exactly, accumulator_of, op_at};
ghost use Rattle.types.specs.Index.{word_of};
ghost use Rattle.types.specs.Value.{value_at};
ghost use Rattle.types.specs.ValueWithLayout.{words_of};
ghost use Rattle.store.specs.Valid.{There};
ghost use Rattle.model.specs.Data.{at_end, onto, below_deltas, at_write, dependency, versioned, walk, read_of};
ghost use Rattle.versioned_data.specs.Down.{down_rows};
ghost use Rattle.versioned_data.specs.Layout.{payload_width, delta_in, entry_of, row_ok};
ghost use Rattle.versioned_data.specs.Rows.{rows_of, row_of_place, position_in, Met, position_from, down_place, OfKey};
ghost use Rattle.versioned_data.specs.Step.{has_key, deltas_in};
ghost use Rattle.versioned_data.specs.Output.{output_of};

use crate::layout::DataRows;
use crate::marks::{Marks, WRITE};
use delta::{Accumulator, DeltaOp, ValidDelta};
use directory::cells::Place;
use number::Number;
use types::index::ShiftedTxnIndex;
use types::output::MVDataOutput;
use types::refusal::Refusal;
use types::value::ValueWithLayout;

// What the walk finds where no entry is left.
fn at_end(acc: Accumulator) -> MVDataOutput
    ensures end { Ok result ≡ output_of (at_end (exactly acc)) }
{
    match acc {
        Accumulator::Empty => MVDataOutput::Uninitialized,
        Accumulator::Gathered(delta) => MVDataOutput::Unresolved(DeltaOp::from(delta)),
        Accumulator::Failed => MVDataOutput::DeltaApplicationFailure,
    }
}

// A number below the deltas of the walk.
fn onto(acc: Accumulator, n: Number) -> MVDataOutput
    ensures resolved { Ok result ≡ output_of (onto (exactly acc) (value_of n)) }
{
    match acc {
        Accumulator::Empty => MVDataOutput::Resolved(n),
        Accumulator::Gathered(delta) => match delta.apply_to(n) {
            Some(v) => MVDataOutput::Resolved(v),
            None => MVDataOutput::DeltaApplicationFailure,
        },
        Accumulator::Failed => MVDataOutput::DeltaApplicationFailure,
    }
}

// A write below deltas. A layout is looked at first; a deletion is seen even after a failed merge.
fn below_deltas(
    acc: Accumulator,
    at: ShiftedTxnIndex,
    incarnation: u32,
    v: ValueWithLayout,
) -> Result<MVDataOutput, Refusal>
    ensures below { result ≡ output_of (below_deltas (exactly acc) (word_of at) incarnation (words_of v)) }
{
    if v.has_layout() {
        return Err(Refusal::LayoutUnderDelta);
    }
    match v.as_u128() {
        Ok(None) => Ok(MVDataOutput::Versioned(at, incarnation, v)),
        Ok(Some(n)) => Ok(onto(acc, n)),
        Err(_) => Err(Refusal::NoNumberUnderDelta),
    }
}

// An estimate in the way: the walk waits for its transaction.
fn dependency(at: ShiftedTxnIndex) -> MVDataOutput
    ensures waits { Ok result ≡ output_of (dependency (word_of at - 1)) }
{
    MVDataOutput::Dependency(at.idx().unwrap_or(0))
}

// The write whose content is at b, with no delta above it.
fn versioned(s: &[u32], b: usize, at: ShiftedTxnIndex) -> MVDataOutput
    requires inside { b + 20 ≤ length s.now }
    ensures write { Ok result ≡ output_of (versioned (word_of at) (get_or s.now b 0) (value_at (b + 1) s.now)) }
{
    let incarnation = s[b];
    let value = ValueWithLayout::read(s, b + 1);
    MVDataOutput::Versioned(at, incarnation, value)
}

// The write whose content is at b, with the deltas of the walk above it.
fn at_write(
    s: &[u32],
    b: usize,
    at: ShiftedTxnIndex,
    acc: Accumulator,
) -> Result<MVDataOutput, Refusal>
    requires inside { b + 20 ≤ length s.now }
    ensures write { result
        ≡ output_of
        (at_write (exactly acc) (word_of at) (get_or s.now b 0) (value_at (b + 1) s.now)) }
{
    let incarnation = s[b];
    let v = ValueWithLayout::read(s, b + 1);
    match acc {
        Accumulator::Empty => Ok(MVDataOutput::Versioned(at, incarnation, v)),
        Accumulator::Gathered(_) => below_deltas(acc, at, incarnation, v),
        Accumulator::Failed => below_deltas(acc, at, incarnation, v),
    }
}

// The delta whose numbers are at b, with a sign.
pub fn read_op(s: &[u32], b: usize, sign: u32) -> DeltaOp
    requires inside { b + 20 ≤ length s.now }
    ensures op { result ≡ op_at (take 16 (drop b s.now) ++ (sign ∷ [])) }
{
    let limit = number::words::read(s, b);
    let high = number::words::read(s, b + 4);
    let low = number::words::read(s, b + 8);
    let update = number::words::read(s, b + 12);
    let sign = sign as u64;
    DeltaOp {
        limit,
        high,
        low,
        update,
        sign,
    }
}

// A store of fine entries, for reading.
#[derive(Clone, Copy)]
pub struct Entries<'a> {
    pub rows: DataRows<'a>,
    ghost fine: { every row_ok (rows_of rows.units rows.words.now) ≡ true },
}

impl<'a> Entries<'a> {
    // The row at a place, if there is one and it has the key.
    #[inline]
    pub fn of_key(self, key: u32, at: Option<Place>) -> Option<Place>
        requires met { Met self.rows.units self.rows.words.now at }
        ensures met { IfSome result (OfKey self.entry.rows.units self.entry.rows.words.now key (position_from self.entry.rows.units self.entry.rows.words.now at)) }
        ensures other { IfNone result (has_key key (position_from self.entry.rows.units self.entry.rows.words.now at) (rows_of self.entry.rows.units self.entry.rows.words.now) ≡ false) }
    {
        let Some(p) = at else {
            return None;
        };
        if self.rows.key_at(p) != key {
            return None;
        }
        Some(p)
    }

    // What the walk finds at a row where it stops.
    fn stop(self, at: Place, acc: Accumulator) -> Result<MVDataOutput, Refusal>
        requires there { There payload_width self.rows.units self.rows.words.now at.page at.cell }
        requires stops { (row_of_place self.rows.units self.rows.words.now at).marks % 8 ≡ 1 → ⊥ }
        ensures found { result ≡ output_of (walk (exactly acc) (entry_of (row_of_place self.entry.rows.units self.entry.rows.words.now at) ∷ [])) }
    {
        let marks = Marks(self.rows.marks_at(at));
        let b = self.rows.content_at(at);
        let place = ShiftedTxnIndex::from_word(self.rows.place_at(at));
        if marks.is_estimate() {
            return Ok(dependency(place));
        }
        if marks == WRITE {
            return at_write(self.rows.words, b, place, acc);
        }
        Ok(onto(acc, number::words::read(self.rows.words, b + 16)))
    }

    // What the walk has gathered past a done delta without a shortcut.
    fn past(self, at: Place, acc: Accumulator) -> Accumulator
        requires there { There payload_width self.rows.units self.rows.words.now at.page at.cell }
        requires delta { (row_of_place self.rows.units self.rows.words.now at).marks % 8 ≡ 1 }
        ensures gathered { result ≡ accumulator_of (accumulate (exactly acc) (delta_in (row_of_place self.entry.rows.units self.entry.rows.words.now at))) }
    {
        let marks = Marks(self.rows.marks_at(at));
        let b = self.rows.content_at(at);
        let earlier = read_op(self.rows.words, b, marks.sign());
        acc.accumulate_valid(ValidDelta::new(earlier))
    }

    // How many done deltas without a shortcut a walk meets from a row down, while the key is the same, and those met before: the shifted index falls at
    // each call.
    // Kept: `&self` and the place as two numbers. By value they go through memory: each call kept a frame, and a fetch over deltas took a fifth longer.
    fn deltas(&self, key: u32, page: usize, cell: usize, met: usize) -> usize
        requires there { There payload_width self.now.rows.units self.now.rows.words.now page cell }
        requires few { met ≤ position_in self.now.rows.units self.now.rows.words.now page cell }
        ensures deltas { result ≡ met + deltas_in (down_rows key (position_in self.now.rows.units self.now.rows.words.now page cell) (rows_of self.now.rows.units self.now.rows.words.now)) }
    {
        let Some(p) = self.of_key(key, Some(Place { page, cell })) else {
            return met;
        };
        if !Marks(self.rows.marks_at(p)).goes_on() {
            return met;
        }
        let met = met + 1;
        let Some(after) = self.rows.next(p) else {
            return met;
        };
        self.deltas(key, after.page, after.cell, met)
    }

    // The walk from a place down: past the deltas, which are merged one after the other, to where it stops.
    pub fn walk(self, key: u32, start: Option<Place>) -> Result<MVDataOutput, Refusal>
        requires met { Met self.rows.units self.rows.words.now start }
        ensures found { result ≡ output_of (read_of (down_place self.entry.rows.units self.entry.rows.words.now key start)) }
    {
        let rest = match start {
            None => 0,
            Some(p) => self.deltas(key, p.page, p.cell, 0),
        };
        let mut at = start;
        let mut acc = Accumulator::Empty;
        for _i in 0..rest {
            let Some(p) = at else {
                unreachable!();
            };
            acc = self.past(p, acc);
            at = self.rows.next(p);
        }
        match self.of_key(key, at) {
            None => Ok(at_end(acc)),
            Some(p) => self.stop(p, acc),
        }
    }

    // The walk with nothing gathered. Nearly every read ends at a write right there, which is answered without the walk's accumulator.
    pub fn read_from(self, key: u32, at: Option<Place>) -> Result<MVDataOutput, Refusal>
        requires met { Met self.rows.units self.rows.words.now at }
        ensures found { result ≡ output_of (read_of (down_place self.entry.rows.units self.entry.rows.words.now key at)) }
    {
        let Some(row) = self.of_key(key, at) else {
            return Ok(MVDataOutput::Uninitialized);
        };
        if Marks(self.rows.marks_at(row)) != WRITE {
            return self.walk(key, at);
        }
        let b = self.rows.content_at(row);
        let place = ShiftedTxnIndex::from_word(self.rows.place_at(row));
        Ok(versioned(self.rows.words, b, place))
    }
}
