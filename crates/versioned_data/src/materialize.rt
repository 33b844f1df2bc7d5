// What a transaction's delta comes to once the transaction commits: `VersionedData::materialize_delta`.
ghost use Rattle.std.specs.Prelude.{◌≡◌, true, suc, ◌<◌};
ghost use Rattle.number.specs.Number.{value_of};
ghost use Rattle.types.specs.Index.{materialize_bound, word_of};
ghost use Rattle.model.specs.Rows.{down_from};
ghost use Rattle.model.specs.Data as rule;
ghost use Rattle.versioned_data.specs.Layout.{entries_in, data_valid};
ghost use Rattle.versioned_data.specs.Found.{row_found, IsRow, PutOver};
ghost use Rattle.versioned_data.specs.Materialize.{Materializes, shortcut_entry};

use crate::fetch::read_at;
use crate::find::find_entry;
use crate::layout;
use crate::layout::{DataRows, PARTS, WIDTH};
use crate::marks::Marks;
use delta::DeltaOp;
use directory::cells::Place;
use number::Number;
use store::edit::set_marks;
use store::read::Rows;
use types::index::{ShiftedTxnIndex, TxnIndex};
use types::output::MVDataOutput;
use types::refusal::Refusal;
use types::units::units;

// Records the value as a base value shortcut in the delta of a row. A write has none and is left as it is.
fn record_delta_shortcut(s: &mut [u32], row: Place, v: Number)
    requires valid { data_valid s.old ≡ true }
    requires row { IsRow s.old row.page row.cell }
    ensures recorded { PutOver s.old row.page row.cell (shortcut_entry (value_of v) (row_found s.old row.page row.cell)) s.new }
{
    let n = units(s);
    let rows: DataRows = Rows { words: s, units: n };
    let marks = Marks(rows.marks_at(row));
    if marks.is_write() {
        return;
    }
    let b = rows.content_at(row);
    number::words::write(s, b + layout::SHORTCUT, v);
    set_marks::<WIDTH, PARTS>(s, n, row, marks.with_shortcut().0);
}

// An entry that is not there is refused, where the Rust panics.
fn resolve_at(
    s: &mut [u32],
    key: u32,
    at: ShiftedTxnIndex,
    v: Number,
) -> Result<Result<Number, DeltaOp>, Refusal>
    requires valid { data_valid s.old ≡ true }
    requires above_base { 0 < word_of at }
    ensures recorded { Materializes s.old key (word_of at) (rule.record_shortcut (value_of v)) (rule.resolved (value_of v)) result s.new }
{
    let found = find_entry(s, key, at);
    match found {
        Err(_) => Err(Refusal::NothingThere),
        Ok(row) => {
            record_delta_shortcut(s, row, v);
            Ok(Ok(v))
        }
    }
}

// The Rust's `Result<u128, DeltaOp>`; where it panics, a refusal. +1 makes sure we include the delta from txn_idx.
pub fn materialize_delta(
    s: &mut [u32],
    key: u32,
    txn_idx: TxnIndex,
) -> Result<Result<Number, DeltaOp>, Refusal>
    requires valid { data_valid s.old ≡ true }
    requires served { txn_idx < materialize_bound }
    ensures materialized { Materializes s.old key (suc txn_idx) (λ own. rule.materialize_delta own (down_from key (suc txn_idx) (entries_in s.old))) (rule.read_of (down_from key (suc txn_idx) (entries_in s.old))) result s.new }
{
    match read_at(s, key, ShiftedTxnIndex::new(txn_idx + 1))? {
        MVDataOutput::Resolved(n) => resolve_at(s, key, ShiftedTxnIndex::new(txn_idx), n),
        MVDataOutput::Unresolved(op) => Ok(Err(op)),
        _ => Err(Refusal::NotMaterializable),
    }
}
