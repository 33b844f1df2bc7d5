// The kinds that go to the data store, 1 to 7. The fields are read where they stand in the request: a struct of them goes through memory.
ghost use Rattle.std.specs.Prelude.{◌≡◌, true, ◌≤◌};
ghost use Rattle.types.specs.Refusal.{result_number};
ghost use Rattle.request.specs.Table.{number_of};
ghost use Rattle.versioned_data.specs.Layout.{data_valid};
ghost use Rattle.mvhashmap.specs.Served.{DataAsked, ServesData};

use crate::front::answer::{done, put_data_output, put_materialized, put_write};
use request::kind::Kind;
use request::places::{BASE_VALUE, DELTA, INCARNATION, INDEX, KEY, WRITE_VALUE};
use types::refusal::Refusal;
use types::response::ANSWER_WIDTH;
use versioned_data::{edit, fetch, materialize};

// A fetch that ends at no write.
fn fetch_other(t: &[u32], s: &[u32], out: &mut [u32; ANSWER_WIDTH]) -> Result<(), Refusal>
    requires valid { data_valid s.now ≡ true }
    requires asked { DataAsked t.now 6 }
    ensures served { ServesData t.now s.now out.old (result_number result) s.now out.new }
{
    let o = fetch::fetch_data(s, t[KEY], t[INDEX])?;
    put_data_output(out, o);
    Ok(())
}

// Nearly every fetch ends at a write, which is answered from the store's words.
fn fetch_data(t: &[u32], s: &[u32], out: &mut [u32; ANSWER_WIDTH]) -> Result<(), Refusal>
    requires valid { data_valid s.now ≡ true }
    requires asked { DataAsked t.now 6 }
    ensures served { ServesData t.now s.now out.old (result_number result) s.now out.new }
{
    match fetch::first_write(s, t[KEY], t[INDEX]) {
        Some(w) => {
            put_write(s, w.content, w.place, out);
            Ok(())
        }
        None => fetch_other(&t[0..], &s[0..], out),
    }
}

// The kinds that are seldom asked for.
fn rare_call(
    kind: Kind,
    t: &[u32],
    s: &mut [u32],
    out: &mut [u32; ANSWER_WIDTH],
) -> Result<(), Refusal>
    requires valid { data_valid s.old ≡ true }
    requires asked { DataAsked t.now (number_of kind) }
    requires some { 1 ≤ number_of kind }
    requires data { number_of kind ≤ 7 }
    requires no_fetch { kind ≡ Kind.Fetch → ⊥ }
    requires no_write { kind ≡ Kind.Write → ⊥ }
    requires no_removal { kind ≡ Kind.Remove → ⊥ }
    ensures served { ServesData t.now s.old out.old (result_number result) s.new out.new }
{
    match kind {
        Kind::Base => done(out, edit::set_base_value(s, t[KEY], &t[BASE_VALUE..])),
        Kind::AddDelta => done(out, edit::add_delta(s, t[KEY], t[INDEX], &t[DELTA..])),
        Kind::Estimate => done(out, edit::mark_estimate(s, t[KEY], t[INDEX])),
        _ => {
            let m = materialize::materialize_delta(s, t[KEY], t[INDEX])?;
            put_materialized(out, m);
            Ok(())
        }
    }
}

// Fetches, writes and removals first. The others are handed parts of the slices, so that the slices themselves stay out of memory.
pub fn data_call(
    kind: Kind,
    t: &[u32],
    s: &mut [u32],
    out: &mut [u32; ANSWER_WIDTH],
) -> Result<(), Refusal>
    requires valid { data_valid s.old ≡ true }
    requires asked { DataAsked t.now (number_of kind) }
    requires some { 1 ≤ number_of kind }
    requires data { number_of kind ≤ 7 }
    ensures served { ServesData t.now s.old out.old (result_number result) s.new out.new }
{
    match kind {
        Kind::Fetch => fetch_data(t, s, out),
        Kind::Write => done(
            out,
            edit::write(s, t[KEY], t[INDEX], t[INCARNATION], &t[WRITE_VALUE..]),
        ),
        Kind::Remove => done(out, edit::remove(s, t[KEY], t[INDEX])),
        _ => rare_call(kind, &t[0..], &mut s[0..], out),
    }
}
