// How updates and committed values stand in slots of 32 words (specs/Layout.antt).
ghost use Rattle.std.specs.Prelude.{◌≡◌};
ghost use Rattle.types.specs.Index.{word_of};
ghost use Rattle.types.specs.Value.{value_at};
ghost use Rattle.types.specs.ValueWithLayout.{value_from, words_of};
ghost use Rattle.group_slots.specs.Layout.{update_place, committed_place};
ghost use Rattle.group_slots.specs.Kinds.{kind_word, kind_read};

use slots::slot::{Place, Slot};
use types::index::ShiftedTxnIndex;
use types::response::MOST_TAGS;
use types::value::ValueWithLayout;

// What a slot is of.
#[derive(Clone, Copy, Debug, PartialEq, Eq)]
pub enum SlotKind {
    Update = 1,
    Committed = 2,
}

impl SlotKind {
    // The first word of such a slot.
    pub fn word(self) -> u32
        ensures stored { result ≡ kind_word self }
    {
        self as u32
    }

    #[tactic(auto, unfolding(crate::specs::Kinds::kind_read))]
    pub fn from_word(word: u32) -> Option<SlotKind>
        ensures read { result ≡ kind_read word }
    {
        match word {
            1 => Some(SlotKind::Update),
            2 => Some(SlotKind::Committed),
            _ => None,
        }
    }
}

pub const KEY: usize = 1;

// The shifted index of an update; the tag of a committed value.
pub const PLACE: usize = 2;

// 0 in the slot of the update itself; 1 more than the tag in that of a member.
pub const PART: usize = 3;

pub const FLAG: usize = 5;

pub const INCARNATION: usize = 6;

pub const VALUE: usize = 7;

// The words from here on are zero.
pub const AFTER_VALUE: usize = 14;

// After every part of an update, and after every tag.
pub const AFTER_PARTS: u32 = AFTER_TAGS + 1;

pub const AFTER_TAGS: u32 = MOST_TAGS as u32;

// The value in the slot of a member or of a committed value.
#[tactic(auto, using(types::proofs::ValueLaws::read_words))]
pub fn value_in(u: &Slot) -> ValueWithLayout
    ensures value { result ≡ value_from (value_at 7 u.now) }
    ensures words { words_of result ≡ value_at 7 u.now }
{
    ValueWithLayout::read(u, VALUE)
}

// The place of a part of an update.
pub fn update_place(key: u32, at: ShiftedTxnIndex, part: u32) -> Place
    ensures place { result ≡ update_place key (word_of «at») part }
{
    Place {
        kind: SlotKind::Update.word(),
        key,
        index: at.word(),
        part,
    }
}

// The place of a committed value.
pub fn committed_place(key: u32, tag: u32) -> Place
    ensures place { result ≡ committed_place key «tag» }
{
    Place {
        kind: SlotKind::Committed.word(),
        key,
        index: tag,
        part: 0,
    }
}
