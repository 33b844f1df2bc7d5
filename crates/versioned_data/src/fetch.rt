// What a transaction reads of a key: `VersionedData::fetch_data`.
ghost use Rattle.versioned_data.specs.First.{Wrote};
ghost use Rattle.std.specs.Prelude.{◌≡◌, true, IfSome, ◌-◌, ◌<◌};
ghost use Rattle.types.specs.Index.{index_bound, word_of};
ghost use Rattle.model.specs.Rows.{down_from};
ghost use Rattle.model.specs.Data.{read_of};
ghost use Rattle.versioned_data.specs.Layout.{entries_in, data_valid};
ghost use Rattle.versioned_data.specs.Output.{output_of};

use crate::find::spot;
use crate::layout::DataRows;
use crate::marks::{Marks, WRITE};
use crate::walk::Entries;
use store::read::Rows;
use types::index::{ShiftedTxnIndex, TxnIndex};
use types::output::MVDataOutput;
use types::refusal::Refusal;
use types::units::units;

// The walk down from the greatest shifted index below a bound, `range(zero_idx()..bound)`. A store of no units is not searched.
pub fn read_at(s: &[u32], key: u32, bound: ShiftedTxnIndex) -> Result<MVDataOutput, Refusal>
    requires store { data_valid s.now ≡ true }
    requires above_base { 0 < word_of bound }
    ensures read { result ≡ output_of (read_of (down_from key (word_of bound - 1) (entries_in s.now))) }
{
    let n = units(s);
    if n == 0 {
        return Ok(MVDataOutput::Uninitialized);
    }
    let y = spot(key, bound.word() - 1);
    let rows: DataRows = Rows { words: s, units: n };
    let entries = Entries { rows };
    let p = rows.find_place(y);
    entries.read_from(key, rows.cell_after(p))
}

pub fn fetch_data(s: &[u32], key: u32, txn_idx: TxnIndex) -> Result<MVDataOutput, Refusal>
    requires store { data_valid s.now ≡ true }
    requires served { txn_idx < index_bound }
    ensures read { result ≡ output_of (read_of (down_from key txn_idx (entries_in s.now))) }
{
    read_at(s, key, ShiftedTxnIndex::new(txn_idx))
}

// Where the content of a write begins, and its shifted index.
#[derive(Clone, Copy)]
pub struct First {
    pub content: usize,
    pub place: u32,
}

// The write at which a fetch ends, if that is the first row that it meets, as nearly always. It is answered from the store's words.
pub fn first_write(s: &[u32], key: u32, txn_idx: TxnIndex) -> Option<First>
    requires store { data_valid s.now ≡ true }
    requires served { txn_idx < index_bound }
    ensures wrote { IfSome result (λ w. Wrote s.now key txn_idx w.content w.place) }
{
    let n = units(s);
    if n == 0 {
        return None;
    }
    let y = spot(key, txn_idx);
    let rows: DataRows = Rows { words: s, units: n };
    let entries = Entries { rows };
    let p = rows.find_place(y);
    let met = entries.of_key(key, rows.cell_after(p))?;
    if Marks(rows.marks_at(met)) != WRITE {
        return None;
    }
    Some(First {
        content: rows.content_at(met),
        place: rows.place_at(met),
    })
}
