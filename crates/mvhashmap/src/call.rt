// The call: the refusals 1 to 5, lowest first, and the store that does the work.
ghost use Rattle.std.specs.Prelude.{◌≡◌, true, false, ◌<◌, length};
ghost use Rattle.types.specs.Refusal.{result_number};
ghost use Rattle.types.specs.Response.{answer_width};
ghost use Rattle.request.specs.Table.{number_of};
ghost use Rattle.request.specs.Fields.{kind_at};
ghost use Rattle.group_slots.specs.Layout.{group_valid};
ghost use Rattle.mvhashmap.specs.Call.{stores, lent, sound, Calls};
ghost use Rattle.mvhashmap.specs.Served.{is_data, CallsGroup};

use crate::front::data::data_call;
use crate::front::group::group_call;
use group_slots::scan as group_scan;
use request::data::data_refusal;
use request::kind::Kind;
use types::refusal::Refusal;
use types::response::{ANSWER_WIDTH, kind_in};
use versioned_data::scan as data_scan;

fn kind_of(t: &[u32]) -> Kind
    requires some { 0 < length t.now }
    ensures kind { number_of result ≡ kind_at t.now }
{
    Kind::of(kind_in(t[0]))
}

fn is_data(kind: Kind) -> bool
    ensures data { result ≡ is_data (number_of kind) }
{
    matches!(
        kind,
        Kind::Base
            | Kind::Write
            | Kind::AddDelta
            | Kind::Estimate
            | Kind::Remove
            | Kind::Fetch
            | Kind::Materialize
    )
}

// A request for the group store.
fn group_request(t: &[u32], group: &mut [u32], out: &mut [u32; ANSWER_WIDTH]) -> Result<(), Refusal>
    requires valid { group_valid group.old ≡ true }
    requires kind { is_data (kind_at t.now) ≡ false }
    ensures called { CallsGroup t.now group.old out.old (result_number result) group.new out.new }
{
    let request = request::check(t)?;
    group_call(request, t, group, out)
}

// A call with words for the longest answer.
fn call_into(
    t: &[u32],
    data: &mut [u32],
    group: &mut [u32],
    out: &mut [u32; ANSWER_WIDTH],
) -> Result<(), Refusal>
    requires sound { sound (stores «data».old group.old) ≡ true }
    ensures called { Calls t.now (lent «data».old group.old out.old) (result_number result) (lent «data».new group.new out.new) }
    ensures size { length out.new ≡ answer_width }
{
    if t.is_empty() {
        return Err(Refusal::WrongCount);
    }
    let kind = kind_of(t);
    if !is_data(kind) {
        return group_request(&t[0..], &mut group[0..], out);
    }
    match data_refusal(t, kind) {
        Err(refusal) => Err(refusal),
        Ok(()) => data_call(kind, t, data, out),
    }
}

// A call by a caller who knows that the stores are sound.
pub fn inner_call(
    t: &[u32],
    data: &mut [u32],
    group: &mut [u32],
    out: &mut [u32],
) -> Result<(), Refusal>
    requires sound { sound (stores «data».old group.old) ≡ true }
    ensures called { Calls t.now (lent «data».old group.old out.old) (result_number result) (lent «data».new group.new out.new) }
{
    match out.first_chunk_mut::<ANSWER_WIDTH>() {
        Some(front) => call_into(t, data, group, front),
        None => Err(Refusal::AnswerTooShort),
    }
}

// A call over any words.
pub fn call(t: &[u32], data: &mut [u32], group: &mut [u32], out: &mut [u32]) -> Result<(), Refusal>
    ensures called { Calls t.now (lent «data».old group.old out.old) (result_number result) (lent «data».new group.new out.new) }
{
    if out.len() < ANSWER_WIDTH {
        return Err(Refusal::AnswerTooShort);
    }
    request::check(t)?;
    if !data_scan::is_valid(data) {
        return Err(Refusal::DamagedStore);
    }
    if !group_scan::is_valid(group) {
        return Err(Refusal::DamagedStore);
    }
    // The request is checked again: the scans take a hundred times as long.
    inner_call(t, data, group, out)
}
