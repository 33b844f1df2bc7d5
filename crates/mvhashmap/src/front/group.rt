// The kinds that go to the group store, 0 and 8 to 15.
ghost use Rattle.std.specs.Prelude.{◌≡◌, ◌+◌, ◌*◌, ◌≤◌, true, false, length};
ghost use Rattle.types.specs.Refusal.{result_number};
ghost use Rattle.types.specs.Value.{value_width};
ghost use Rattle.request.specs.Table.{number_of};
ghost use Rattle.request.specs.Set.{tags_of};
ghost use Rattle.request.specs.Fields.{kind_asked, members_from};
ghost use Rattle.request.specs.Members.{members_in};
ghost use Rattle.group_slots.specs.Layout.{group_valid};
ghost use Rattle.versioned_group_data.specs.Ruled.{answer_in};
ghost use Rattle.mvhashmap.specs.GroupAnswer.{written_answer};
ghost use Rattle.mvhashmap.specs.Served.{is_data, Asked, ServesGroup};

use crate::front::answer::{done, put_bare, put_group_output};
use request::asked::Request;
use request::members::Members;
use request::set::Set;
use types::refusal::Refusal;
use types::response::{ANSWER_WIDTH, AnswerKind};
use types::value::ValueWithLayout;
use versioned_group_data::update::Written;
use versioned_group_data::{base, committed, exchange, finalize, read, update};

#[tactic(auto, unfolding(crate::specs::GroupAnswer::written_answer, model::specs::Data::done_answer))]
fn put_written(out: &mut [u32; ANSWER_WIDTH], w: Written)
    ensures put { out.new ≡ answer_in (written_answer w) out.old }
{
    match w {
        Written::Done => put_bare(out, AnswerKind::Done),
        Written::Outside => put_bare(out, AnswerKind::WroteOutside),
    }
}

// The members whose values begin at a place of the request.
fn members_at(t: &[u32], set: Set, at: usize) -> Members<'_>
    requires inside { at + value_width * length (tags_of set.low set.high) ≤ length t.now }
    ensures members { members_in result ≡ members_from set at t.now }
{
    Members {
        set,
        values: &t[at..],
    }
}

pub fn group_call(
    request: Request,
    t: &[u32],
    s: &mut [u32],
    out: &mut [u32; ANSWER_WIDTH],
) -> Result<(), Refusal>
    requires valid { group_valid s.old ≡ true }
    requires asked { Asked t.now request }
    requires group { is_data (number_of (kind_asked request)) ≡ false }
    ensures served { ServesGroup t.now s.old out.old (result_number result) s.new out.new }
{
    match request {
        Request::LastCommitted { key } => Ok(committed::get_last_committed_group(s, key, out)),
        Request::GroupBase { key, set, values } => done(
            out,
            base::set_raw_base_values(s, key, members_at(t, set, values)),
        ),
        Request::Exchange { key, tag, value } => {
            let v = ValueWithLayout::read(t, value);
            done(
                out,
                exchange::update_tagged_base_value_with_layout(s, key, tag, v),
            )
        }
        Request::GroupWrite {
            key,
            index,
            incarnation,
            set,
            values,
        } => {
            let w = update::write(s, key, index, incarnation, members_at(t, set, values))?;
            Ok(put_written(out, w))
        }
        Request::GroupEstimate { key, index } => done(out, update::mark_estimate(s, key, index)),
        Request::GroupRemove { key, index } => {
            update::remove(s, key, index);
            Ok(put_bare(out, AnswerKind::Done))
        }
        Request::GroupFetch { key, tag, index } => Ok(put_group_output(
            out,
            read::fetch_tagged_data(s, key, tag, index),
        )),
        Request::GroupSize { key, index } => Ok(put_group_output(
            out,
            read::get_group_size(s, key, index),
        )),
        Request::Finalize { key, index } => finalize::finalize_group(s, key, index, out),
        // The kinds of the data store.
        _ => unreachable!(),
    }
}
