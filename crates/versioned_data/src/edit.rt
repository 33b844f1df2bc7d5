// The operations of versioned_data.rs that edit an entry, in its order, with what they ask of the entry there above them.
ghost use Rattle.std.specs.Prelude.{◌≡◌, true, suc, ◌+◌, ◌≤◌, ◌<◌, length, take, drop};
ghost use Rattle.delta.specs.Delta.{delta_width, delta_at, delta_ok};
ghost use Rattle.types.specs.Index.{index_bound};
ghost use Rattle.types.specs.Refusal.{result_number};
ghost use Rattle.types.specs.Value.{value_at, value_width, value_ok, is_exchanged};
ghost use Rattle.model.specs.Data as rule;
ghost use Rattle.versioned_data.specs.Layout.{data_valid};
ghost use Rattle.versioned_data.specs.Found.{RowIn, found_row};
ghost use Rattle.versioned_data.specs.Base.{base_at, may_put};
ghost use Rattle.versioned_data.specs.Edited.{Edited};

use crate::base::{Base, over_base};
use crate::find::find_entry;
use crate::layout::{DataRows, PARTS, WIDTH};
use crate::marks::Marks;
use crate::put::{Added, Write, put};
use directory::cells::Place;
use store::edit::{erase, set_marks};
use store::read::Rows;
use types::index::{Incarnation, ShiftedTxnIndex, TxnIndex};
use types::refusal::Refusal;
use types::units::units;
use types::value::ValueWithLayout;

// Kept: `valid` and `served` as clauses, here, in fetch and in materialize: a store that is edited is as `store::edit` says; a type for an index below the bound would be made once for each kind of request, with the clause as its proof, and read once.

// Whether a write of this incarnation may go where it was looked for: over a write only if it is higher.
fn may_write(s: &[u32], found: Result<Place, Place>, incarnation: u32) -> bool
    requires valid { data_valid s.now ≡ true }
    requires row { RowIn s.now found }
    ensures may { result ≡ may_put incarnation (found_row s.now found) }
{
    match found {
        Err(_) => true,
        Ok(row) => {
            let n = units(s);
            let rows: DataRows = Rows { words: s, units: n };
            let marks = Marks(rows.marks_at(row));
            if !marks.is_write() {
                return true;
            }
            let b = rows.content_at(row);
            s[b] < incarnation
        }
    }
}

// What a base value is to do where it was looked for.
fn base_at(s: &[u32], found: Result<Place, Place>, value: &[u32]) -> Base
    requires valid { data_valid s.now ≡ true }
    requires row { RowIn s.now found }
    requires inside { value_width ≤ length value.now }
    ensures base { result ≡ base_at (value_at 0 value.now) (found_row s.now found) }
{
    match found {
        Err(_) => Base::Set,
        Ok(row) => {
            let n = units(s);
            let rows: DataRows = Rows { words: s, units: n };
            let b = rows.content_at(row);
            let existing = ValueWithLayout::read(s, b + 1);
            let value = ValueWithLayout::read(value, 0);
            over_base(value, existing)
        }
    }
}

// A delta always replaces what is there.
pub fn add_delta(s: &mut [u32], key: u32, txn_idx: TxnIndex, delta: &[u32]) -> Result<(), Refusal>
    requires valid { data_valid s.old ≡ true }
    requires served { txn_idx < index_bound }
    requires inside { delta_width ≤ length delta.now }
    requires delta { delta_ok (take delta_width delta.now) ≡ true }
    ensures edited { Edited s.old key (suc txn_idx) (rule.add_delta (delta_at (take delta_width delta.now))) (result_number result) s.new }
{
    let place = ShiftedTxnIndex::new(txn_idx);
    let found = find_entry(s, key, place);
    put(s, found, key, place.word(), Added { delta })
}

// An entry that is not there is refused, where the Rust panics.
pub fn mark_estimate(s: &mut [u32], key: u32, txn_idx: TxnIndex) -> Result<(), Refusal>
    requires valid { data_valid s.old ≡ true }
    requires served { txn_idx < index_bound }
    ensures edited { Edited s.old key (suc txn_idx) rule.mark_estimate (result_number result) s.new }
{
    let found = find_entry(s, key, ShiftedTxnIndex::new(txn_idx));
    match found {
        Err(_) => Err(Refusal::NothingThere),
        Ok(row) => {
            let n = units(s);
            let rows: DataRows = Rows { words: s, units: n };
            let marks = Marks(rows.marks_at(row)).estimated();
            set_marks::<WIDTH, PARTS>(s, n, row, marks.0);
            Ok(())
        }
    }
}

// Here too the refusal stands for the Rust's panic.
pub fn remove(s: &mut [u32], key: u32, txn_idx: TxnIndex) -> Result<(), Refusal>
    requires valid { data_valid s.old ≡ true }
    requires served { txn_idx < index_bound }
    ensures edited { Edited s.old key (suc txn_idx) rule.remove (result_number result) s.new }
{
    let found = find_entry(s, key, ShiftedTxnIndex::new(txn_idx));
    match found {
        Err(_) => Err(Refusal::NothingThere),
        Ok(row) => {
            let n = units(s);
            erase::<WIDTH, PARTS>(s, n, row);
            Ok(())
        }
    }
}

// For a base value, incarnation is irrelevant, and is always set to 0.
pub fn set_base_value(s: &mut [u32], key: u32, value: &[u32]) -> Result<(), Refusal>
    requires valid { data_valid s.old ≡ true }
    requires inside { value_width ≤ length value.now }
    requires value { value_ok (value_at 0 value.now) ≡ true }
    ensures edited { Edited s.old key 0 (rule.set_base_value (value_at 0 value.now)) (result_number result) s.new }
{
    let place = ShiftedTxnIndex::zero_idx();
    let found = find_entry(s, key, place);
    match base_at(s, found, value) {
        Base::Keep => Ok(()),
        Base::Differs => Err(Refusal::BaseDiffers),
        Base::Set => {
            let content = Write {
                incarnation: 0,
                value,
            };
            put(s, found, key, place.word(), content)
        }
    }
}

// Versioned write of data at a given key (and version). The refusal stands for the Rust's panic at an incarnation that is not higher.
pub fn write(
    s: &mut [u32],
    key: u32,
    txn_idx: TxnIndex,
    incarnation: Incarnation,
    value: &[u32],
) -> Result<(), Refusal>
    requires valid { data_valid s.old ≡ true }
    requires served { txn_idx < index_bound }
    requires inside { value_width ≤ length value.now }
    requires value { value_ok (value_at 0 value.now) ≡ true }
    requires exchanged { is_exchanged (value_at 0 value.now) ≡ true }
    ensures edited { Edited s.old key (suc txn_idx) (rule.write_value incarnation (value_at 0 value.now)) (result_number result) s.new }
{
    let place = ShiftedTxnIndex::new(txn_idx);
    let found = find_entry(s, key, place);
    if !may_write(s, found, incarnation) {
        return Err(Refusal::IncarnationNotHigher);
    }
    put(s, found, key, place.word(), Write { incarnation, value })
}
