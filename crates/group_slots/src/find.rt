// Finding the slots of an update, of a member and of a committed value.
ghost use Rattle.std.specs.Prelude.{◌≡◌, true, suc, ◌≤◌};
ghost use Rattle.types.specs.Index.{word_of};
ghost use Rattle.group_slots.specs.Layout.{group_valid, groups_in};
ghost use Rattle.group_slots.specs.Found.{run_of, member_found, committed_found};

use crate::layout::{AFTER_PARTS, committed_place, update_place};
use slots::search::{find_slot, lower_bound};
use types::index::ShiftedTxnIndex;

// The slots of an update: where they begin or would, and how many they are, 0 where there is no such update.
// Kept: callers take the first slot and the count, as `resize(s, run.at, run.len, ..)`; of a `Range` they would count again.
#[derive(Clone, Copy)]
pub struct Run {
    pub at: usize,
    pub len: usize,
}

// A tag of a group.
#[derive(Clone, Copy)]
pub struct Tag {
    pub number: u32,
    ghost in_range: { number ≤ 63 },
}

impl Tag {
    // The part that a member with this tag is of its update.
    pub fn part(self) -> u32
        ensures part { result ≡ suc self.number }
    {
        self.number + 1
    }
}

// The words of a valid group store, for reading.
#[derive(Clone, Copy)]
pub struct GroupStore<'a> {
    pub words: &'a [u32],
    ghost valid: { group_valid words.now ≡ true },
}

impl<'a> GroupStore<'a> {
    #[tactic(auto, using(crate::proofs::GroupHolding::packed_valid, crate::proofs::GroupPlaces::run_rises, crate::proofs::GroupPlaces::run_is))]
    pub fn find_update(self, key: u32, at: ShiftedTxnIndex) -> Run
        ensures run { result ≡ run_of key (word_of at) (groups_in self.entry.words.now) }
    {
        let start = lower_bound(self.words, update_place(key, at, 0));
        let end = lower_bound(self.words, update_place(key, at, AFTER_PARTS));
        Run {
            at: start,
            len: end - start,
        }
    }

    // Where the slot of a member stands: its index, or where it would be inserted.
    #[tactic(auto, using(crate::proofs::GroupHolding::packed_valid, crate::proofs::GroupPlaces::member_is))]
    pub fn find_member(self, key: u32, at: ShiftedTxnIndex, tag: Tag) -> Result<usize, usize>
        ensures found { result ≡ member_found key (word_of at) tag.number (groups_in self.entry.words.now) }
    {
        find_slot(self.words, update_place(key, at, tag.part()))
    }

    // The same of a committed value.
    #[tactic(auto, using(crate::proofs::GroupHolding::packed_valid, crate::proofs::GroupPlaces::committed_found_valid))]
    pub fn find_committed(self, key: u32, tag: u32) -> Result<usize, usize>
        ensures found { result ≡ committed_found key «tag» (groups_in self.entry.words.now) }
    {
        find_slot(self.words, committed_place(key, tag))
    }
}
