// Kinds 1 to 7, those of the data store: which of the refusals 2, 3 and 4 a request meets, in one pass. They have no tail, and their places are known.
ghost use Rattle.std.specs.Prelude.{◌≡◌, cond, ◌≤◌, ◌<◌, leb, length, get_or};
ghost use Rattle.types.specs.Refusal.{result_number, index_too_high};
ghost use Rattle.request.specs.Table.{number_of, index_place};
ghost use Rattle.request.specs.Request.{refusal_of};
ghost use Rattle.request.specs.Fields.{kind_at, asked_by, RoomIn, rule_in};

use super::kind::Kind;
use super::places::{BASE_VALUE, DELTA, INDEX, WRITE_VALUE};
use super::table;
use super::table::LARGEST;
use delta::words;
use types::refusal::Refusal;
use types::{response, value};

// The fields of kinds 1 to 3: a value, an exchanged value, a delta. Those of the others are free.
#[tactic(auto, unfolding(crate::specs::Fields::RoomIn, crate::specs::Fields::rule_in, crate::specs::Fields::asked_by, crate::specs::Fields::asked_as, crate::specs::Table::row_of, crate::specs::Table::table, crate::specs::Table::row))]
fn fields_ok(t: &[u32], kind: Kind) -> bool
    requires room { RoomIn t.now (asked_by kind t.now) }
    requires last { number_of kind ≤ 7 }
    ensures rule { result ≡ rule_in t.now (asked_by kind t.now) }
{
    match kind {
        Kind::Base => value::value_ok(t, BASE_VALUE),
        Kind::Write => (t[WRITE_VALUE] >> 29) % 2 == 1 && value::value_ok(t, WRITE_VALUE),
        Kind::AddDelta => words::is_delta(t, DELTA),
        _ => true,
    }
}

fn index_refusal(t: &[u32], last: u32) -> Result<(), Refusal>
    requires inside { index_place < length t.now }
    ensures served { result_number result ≡ cond (leb (get_or t.now index_place 0) last) 0 index_too_high }
{
    if t[INDEX] > last {
        return Err(Refusal::IndexTooHigh);
    }
    Ok(())
}

// 2, 3 or 4, the lowest that applies. Of kinds 4 to 7 only length, count and index are looked at: their other fields are free.
// Two cells of the table are enough. A whole row goes through memory, and a fetch takes a quarter longer with it.
pub fn data_refusal(t: &[u32], kind: Kind) -> Result<(), Refusal>
    requires some { 0 < length t.now }
    requires kind { number_of kind ≡ kind_at t.now }
    requires first { 1 ≤ number_of kind }
    requires last { number_of kind ≤ 7 }
    ensures refused { result_number result ≡ refusal_of t.now }
{
    let cells = table::cells_of(kind);
    let fixed = cells.0 as usize;
    let last = LARGEST - cells.3 as u32;
    if t.len() != fixed + 1 {
        return Err(Refusal::WrongCount);
    }
    if response::count_in(t[0]) != fixed {
        return Err(Refusal::WrongCount);
    }
    if !fields_ok(t, kind) {
        return Err(Refusal::BadField);
    }
    match kind {
        Kind::Base => Ok(()),
        _ => index_refusal(t, last),
    }
}
