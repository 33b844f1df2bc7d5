// `update_tagged_base_value_with_layout` of versioned_group_data.rs: identifiers in a base value are exchanged, there and where it is committed.
ghost use Rattle.std.specs.Prelude.{◌≡◌, true, ◌+◌, ◌*◌, ◌≤◌, ◌<◌, length};
ghost use Rattle.types.specs.Refusal.{result_number};
ghost use Rattle.types.specs.Value.{value_at, is_exchanged};
ghost use Rattle.types.specs.ValueWithLayout.{words_of};
ghost use Rattle.slots.specs.Slots.{slot_width, slot_at, written};
ghost use Rattle.types.specs.Units.{units_in};
ghost use Rattle.model.specs.Group as rule;
ghost use Rattle.group_slots.specs.Layout.{group_valid, groups_in};
ghost use Rattle.versioned_group_data.specs.Ruled.{Ruled, committing};
ghost use Rattle.versioned_group_data.specs.Exchange.{with_value};

use group_slots::find::{GroupStore, Tag};
use group_slots::layout;
use slots::slot::SLOT_WIDTH;
use types::index::ShiftedTxnIndex;
use types::refusal::Refusal;
use types::value::ValueWithLayout;

// Whether the value of slot i is `Exchanged`.
#[tactic(auto, using(crate::proofs::BaseExchanges::slot_room, crate::proofs::BaseExchanges::read_exchanged))]
fn is_exchanged(s: &[u32], i: usize) -> bool
    requires inside { i < units_in (length s.now) }
    ensures exchanged { result ≡ is_exchanged (value_at (slot_width * i + 7) s.now) }
{
    ValueWithLayout::read(s, SLOT_WIDTH * i + layout::VALUE).is_exchanged()
}

// The value of slot i replaced.
#[tactic(auto, using(crate::proofs::BaseExchanges::slot_room, crate::proofs::BaseExchanges::value_put))]
fn write_value(s: &mut [u32], i: usize, v: ValueWithLayout)
    requires slot { i < units_in (length s.old) }
    ensures written { s.new ≡ written i (with_value (words_of v) (slot_at i s.old)) s.old }
{
    v.write(s, SLOT_WIDTH * i + layout::VALUE);
}

// The base and the committed value are exchanged together. `NothingThere` stands for the Rust's panic at a base that is not there, `NothingToExchange`
// for that at a committed value that is not raw.
#[tactic(auto, using(crate::proofs::BaseExchanges::base_found, crate::proofs::BaseExchanges::committed_told, crate::proofs::BaseExchanges::base_inside, crate::proofs::BaseExchanges::value_inside, crate::proofs::BaseExchanges::base_length, crate::proofs::BaseExchanges::words_wide, crate::proofs::BaseExchanges::inside_as, crate::proofs::BaseExchanges::exchange_absent, crate::proofs::BaseExchanges::exchange_before, crate::proofs::BaseExchanges::exchange_none, crate::proofs::BaseExchanges::exchange_over, crate::proofs::BaseExchanges::exchange_done))]
pub fn update_tagged_base_value_with_layout(
    s: &mut [u32],
    key: u32,
    tag: u32,
    value: ValueWithLayout,
) -> Result<(), Refusal>
    requires valid { group_valid s.old ≡ true }
    requires tag { «tag» ≤ 63 }
    ensures exchanged { Ruled s.old
        (committing (groups_in s.old) key 0 (rule.update_tagged_base_value key «tag» (words_of value)))
        (result_number result) s.new }
{
    let store = GroupStore { words: s };
    let Ok(i) = store.find_member(key, ShiftedTxnIndex::zero_idx(), Tag { number: tag }) else {
        return Err(Refusal::NothingThere);
    };
    if is_exchanged(s, i) {
        return Ok(());
    }
    let Ok(j) = store.find_committed(key, tag) else {
        return Err(Refusal::NothingToExchange);
    };
    if is_exchanged(s, j) {
        return Err(Refusal::NothingToExchange);
    }
    write_value(s, i, value);
    write_value(s, j, value);
    Ok(())
}
