// The kinds that go to the data store, 1 to 7, over a slice with room for the longest answer.
ghost use Rattle.std.specs.Prelude.{◌≡◌, true, ◌≤◌, length};
ghost use Rattle.types.specs.Refusal.{result_number};
ghost use Rattle.types.specs.Response.{answer_width};
ghost use Rattle.request.specs.Table.{number_of};
ghost use Rattle.versioned_data.specs.Layout.{data_valid};
ghost use Rattle.mvhashmap.specs.Served.{DataAsked, ServesData};

use crate::front::data;
use request::kind::Kind;
use types::refusal::Refusal;
use types::response::ANSWER_WIDTH;

// The array keeps its length.
fn front_call(
    kind: Kind,
    t: &[u32],
    s: &mut [u32],
    out: &mut [u32; ANSWER_WIDTH],
) -> Result<(), Refusal>
    requires valid { data_valid s.old ≡ true }
    requires asked { DataAsked t.now (number_of kind) }
    requires some { 1 ≤ number_of kind }
    requires data { number_of kind ≤ 7 }
    ensures served { ServesData t.now s.old out.old (result_number result) s.new out.new }
    ensures size { length out.new ≡ answer_width }
{
    data::data_call(kind, t, s, out)
}

pub fn data_call(kind: Kind, t: &[u32], s: &mut [u32], out: &mut [u32]) -> Result<(), Refusal>
    requires valid { data_valid s.old ≡ true }
    requires asked { DataAsked t.now (number_of kind) }
    requires room { answer_width ≤ length out.old }
    requires some { 1 ≤ number_of kind }
    requires data { number_of kind ≤ 7 }
    ensures served { ServesData t.now s.old out.old (result_number result) s.new out.new }
{
    let front = out.first_chunk_mut::<ANSWER_WIDTH>().unwrap();
    front_call(kind, t, s, front)
}
