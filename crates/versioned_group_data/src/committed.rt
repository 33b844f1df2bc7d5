// `get_last_committed_group` of versioned_group_data.rs: the committed group as an answer.
ghost use Rattle.std.specs.Prelude.{◌≡◌, true, ◌∷◌, ◌+◌, ◌*◌, ◌≤◌, length, drop};
ghost use Rattle.types.specs.Value.{value_width};
ghost use Rattle.types.specs.Response.{head_of, committed_kind, set_width, most_tags, answer_width};
ghost use Rattle.model.specs.Group as rule;
ghost use Rattle.group_slots.specs.Layout.{group_valid, groups_in};
ghost use Rattle.versioned_group_data.specs.Ruled.{answer_in};

use crate::collect::{collect_tags, collect_values, set_words};
use group_slots::layout;
use group_slots::layout::committed_place;
use request::set::Set;
use slots::search::lower_bound;
use types::response::{AnswerKind, SET_WIDTH, head};
use types::value::VALUE_WIDTH;

// The first words of an answer of kind 9: the head, with the count of words for n values, and the set.
#[tactic(auto, using(crate::proofs::CollectedGroups::three_written))]
fn write_set(out: &mut [u32], n: usize, set: Set)
    requires room { 3 ≤ length out.old }
    requires few { n ≤ most_tags }
    ensures written { out.new ≡ head_of committed_kind (set_width + value_width * n) ∷ set.low ∷ set.high ∷ drop 3 out.old }
{
    out[0] = head(
        u32::from(AnswerKind::Committed),
        SET_WIDTH + VALUE_WIDTH * n,
    );
    out[1] = set.low;
    out[2] = set.high;
}

// The set and the values that are committed of a key, as an answer.
#[tactic(auto, using(crate::proofs::CollectedGroups::key_rises, crate::proofs::CollectedGroups::key_few, crate::proofs::CollectedGroups::key_inside_all, crate::proofs::CollectedGroups::key_from, crate::proofs::CollectedGroups::key_bits_fit, crate::proofs::CollectedGroups::key_answer, crate::proofs::CollectedGroups::three_room, group_slots::proofs::GroupHolding::packed_valid))]
pub fn get_last_committed_group(s: &[u32], key: u32, out: &mut [u32])
    requires valid { group_valid s.now ≡ true }
    requires room { answer_width ≤ length out.old }
    ensures answered { out.new ≡ answer_in (rule.committed_answer key (groups_in s.now).committed) out.old }
{
    let lo = lower_bound(s, committed_place(key, 0));
    let hi = lower_bound(s, committed_place(key, layout::AFTER_TAGS));
    let n = hi - lo;
    let set = set_words(collect_tags(s, lo, n, layout::PLACE, 0));
    write_set(out, n, set);
    collect_values(s, lo, n, out, 3);
}
