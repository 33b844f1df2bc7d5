// Finding an entry by its key and shifted index.
ghost use Rattle.std.specs.Prelude.{◌≡◌, true};
ghost use Rattle.types.specs.Index.{word_of};
ghost use Rattle.versioned_data.specs.Layout.{spot_of, data_valid};
ghost use Rattle.versioned_data.specs.Found.{FoundIn};

use crate::layout::DataRows;
use directory::cells::Place;
use store::read::Rows;
use types::index::ShiftedTxnIndex;
use types::units::units;

// A key and a shifted index as one value.
#[tactic(auto, unfolding(crate::specs::Layout::spot_of))]
pub fn spot(key: u32, place: u32) -> u64
    ensures spot { result ≡ spot_of key place }
{
    u64::from(place) + 4294967296 * u64::from(key)
}

// The place of an entry, or as an error, as of Rust's `binary_search`, the place where it would be inserted. A store of no units is not searched.
pub fn find_entry(s: &[u32], key: u32, at: ShiftedTxnIndex) -> Result<Place, Place>
    requires valid { data_valid s.now ≡ true }
    ensures found { FoundIn s.now key (word_of at) result }
{
    let n = units(s);
    if n == 0 {
        return Err(Place { page: 0, cell: 0 });
    }
    let y = spot(key, at.word());
    let rows: DataRows = Rows { words: s, units: n };
    let p = rows.find_place(y);
    let Some(c) = rows.cell_after(p) else {
        return Err(p);
    };
    if rows.spot_at(c) != y {
        return Err(p);
    }
    Ok(c)
}
