// `finalize_group` of versioned_group_data.rs.
ghost use Rattle.std.specs.Prelude.{◌≡◌, true, suc, ◌≤◌, ◌<◌, length};
ghost use Rattle.types.specs.Index.{index_bound};
ghost use Rattle.types.specs.Refusal.{result_number};
ghost use Rattle.types.specs.Response.{answer_width};
ghost use Rattle.model.specs.Group as rule;
ghost use Rattle.group_slots.specs.Layout.{group_valid, groups_in};
ghost use Rattle.versioned_group_data.specs.Ruled.{Ruled, Answered, committing};

use crate::collect::{collect_tags, collect_values, set_words};
use crate::commit::try_commit;
use crate::committed::get_last_committed_group;
use group_slots::find::GroupStore;
use group_slots::layout;
use request::members::Members;
use types::index::{ShiftedTxnIndex, TxnIndex};
use types::refusal::Refusal;
use types::response::MOST_TAGS;
use types::value::VALUE_WIDTH;

// Commits the update of a transaction.
#[tactic(auto, using(crate::proofs::GroupFinalizing::update_at, crate::proofs::GroupFinalizing::run_none, crate::proofs::GroupFinalizing::run_low, crate::proofs::GroupFinalizing::tried_members, crate::proofs::GroupFinalizing::ruled_absent, crate::proofs::GroupFinalizing::ruled_tried, crate::proofs::CollectedGroups::members_inside, crate::proofs::CollectedGroups::members_from, crate::proofs::CollectedGroups::members_bits_fit, crate::proofs::CollectedGroups::members_count, crate::proofs::CollectedGroups::members_fine, crate::proofs::CollectedGroups::set_length, crate::proofs::CollectedGroups::members_back, crate::proofs::CommitSteps::key_word))]
fn commit_update(s: &mut [u32], key: u32, txn_idx: TxnIndex) -> Result<(), Refusal>
    requires valid { group_valid s.old ≡ true }
    requires served { txn_idx < index_bound }
    ensures committed { Ruled s.old (committing (groups_in s.old) key (suc txn_idx) (rule.finalize_group key)) (result_number result) s.new }
{
    let run = GroupStore { words: s }.find_update(key, ShiftedTxnIndex::new(txn_idx));
    if run.len == 0 {
        return Err(Refusal::NothingThere);
    }
    let first = run.at + 1;
    let n = run.len - 1;
    let set = set_words(collect_tags(s, first, n, layout::PART, 1));
    let mut words = [0u32; MOST_TAGS * VALUE_WIDTH];
    collect_values(s, first, n, &mut words, 0);
    let members = Members {
        set,
        values: &words,
    };
    try_commit(s, key, members, 0)
}

// Commits the update of a transaction and answers the committed group. `NothingThere` stands for the Rust's error at an update that is not there.
#[tactic(auto, using(crate::proofs::CommitSteps::key_word, crate::proofs::GroupFinalizing::answered_none, crate::proofs::GroupFinalizing::finalized_valid, crate::proofs::GroupFinalizing::finalized_answered, crate::proofs::Results::refusal_some, crate::proofs::Results::none_refused))]
pub fn finalize_group(
    s: &mut [u32],
    key: u32,
    txn_idx: TxnIndex,
    out: &mut [u32],
) -> Result<(), Refusal>
    requires valid { group_valid s.old ≡ true }
    requires served { txn_idx < index_bound }
    requires room { answer_width ≤ length out.old }
    ensures finalized { Answered s.old out.old (committing (groups_in s.old) key (suc txn_idx) (rule.finalize_group key))
        (result_number result) s.new out.new }
{
    commit_update(s, key, txn_idx)?;
    get_last_committed_group(s, key, out);
    Ok(())
}
