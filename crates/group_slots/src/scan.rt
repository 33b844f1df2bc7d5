// Rule 5 for the group store: one pass over its slots.
ghost use Rattle.std.specs.Prelude.{◌≡◌, true, cond, eqb, length, get_or};
ghost use Rattle.types.specs.Value.{is_exchanged};
ghost use Rattle.types.specs.ValueWithLayout.{words_of};
ghost use Rattle.slots.specs.Slots.{held, sound};
ghost use Rattle.types.specs.Units.{units_in};
ghost use Rattle.group_slots.specs.Layout.{group_valid};
ghost use Rattle.group_slots.specs.Tests.{base_test, head_test, member_test, part_test, committed_test, slot_test, is_member, same_update, follows, first_test};

use crate::layout;
use crate::layout::SlotKind;
use moves::all_zero;
use slots::scan::{rest_zero, zero_from};
use slots::slot::{Slot, in_order, is_used, slots_of};
use types::flag::Flag;
use types::value::ValueWithLayout;

// Whether a slot may be at the base: only done, with incarnation 0.
#[tactic(auto, unfolding(crate::specs::Tests::base_test))]
fn base_ok(u: &Slot) -> bool
    ensures base { result ≡ base_test u.now }
{
    if u[layout::PLACE] != 0 {
        return true;
    }
    if u[layout::INCARNATION] != 0 {
        return false;
    }
    u[layout::FLAG] == u32::from(Flag::Done)
}

// Whether the head of a slot is that of a slot of an update.
#[tactic(auto, unfolding(crate::specs::Tests::head_test))]
fn head_ok(u: &Slot) -> bool
    ensures head { result ≡ head_test u.now }
{
    if layout::AFTER_PARTS <= u[layout::PART] {
        return false;
    }
    if u[4] != 0 {
        return false;
    }
    if u32::from(Flag::Estimate) < u[layout::FLAG] {
        return false;
    }
    base_ok(u)
}

// Whether a member with this value may stand in a slot: above the base it is exchanged.
fn place_ok(u: &Slot, v: ValueWithLayout) -> bool
    ensures place { result ≡ cond (eqb (get_or u.now 2 0) 0) true (is_exchanged (words_of v)) }
{
    if u[layout::PLACE] == 0 {
        return true;
    }
    v.is_exchanged()
}

// Whether a slot has a member's value after its head.
#[tactic(auto, unfolding(crate::specs::Tests::member_test))]
fn member_ok(u: &Slot) -> bool
    ensures member { result ≡ member_test u.now }
{
    let v = layout::value_in(u);
    if !v.ok() {
        return false;
    }
    if !place_ok(u, v) {
        return false;
    }
    rest_zero(u, layout::AFTER_VALUE)
}

// Whether a slot is that of an update itself or of a member.
#[tactic(auto, unfolding(crate::specs::Tests::part_test))]
fn part_ok(u: &Slot) -> bool
    ensures part { result ≡ part_test u.now }
{
    if !head_ok(u) {
        return false;
    }
    if u[layout::PART] == 0 {
        return rest_zero(u, layout::VALUE);
    }
    member_ok(u)
}

// Whether a slot is that of a committed value.
#[tactic(auto, unfolding(crate::specs::Tests::committed_test))]
fn committed_ok(u: &Slot) -> bool
    ensures committed { result ≡ committed_test u.now }
{
    if layout::AFTER_TAGS <= u[layout::PLACE] {
        return false;
    }
    if !all_zero(&u[layout::PART..layout::VALUE]) {
        return false;
    }
    let v = layout::value_in(u);
    if !v.ok() {
        return false;
    }
    if v.is_deletion() {
        return false;
    }
    rest_zero(u, layout::AFTER_VALUE)
}

// Whether a slot by itself is that of an update, a member or a committed value.
#[tactic(auto, unfolding(crate::specs::Tests::slot_test, crate::specs::Kinds::kind_read))]
fn slot_ok(u: &Slot) -> bool
    ensures slot { result ≡ slot_test u.now }
{
    match SlotKind::from_word(u[0]) {
        Some(SlotKind::Update) => part_ok(u),
        Some(SlotKind::Committed) => committed_ok(u),
        None => false,
    }
}

#[tactic(auto, unfolding(crate::specs::Tests::is_member))]
fn is_member(u: &Slot) -> bool
    ensures member { result ≡ is_member u.now }
{
    u[0] == SlotKind::Update.word() && u[layout::PART] != 0
}

// What all slots of an update have.
#[derive(Clone, Copy, PartialEq, Eq)]
struct Head {
    key: u32,
    index: u32,
    flag: u32,
    incarnation: u32,
}

impl Head {
    fn read(u: &Slot) -> Head
        ensures key { result.key ≡ get_or u.now 1 0 }
        ensures index { result.index ≡ get_or u.now 2 0 }
        ensures flag { result.flag ≡ get_or u.now 5 0 }
        ensures incarnation { result.incarnation ≡ get_or u.now 6 0 }
    {
        Head {
            key: u[layout::KEY],
            index: u[layout::PLACE],
            flag: u[layout::FLAG],
            incarnation: u[layout::INCARNATION],
        }
    }
}

// Whether a slot is of the update that another names: key and index, flag and incarnation.
#[tactic(auto, unfolding(crate::specs::Tests::same_update))]
fn same_update(u: &Slot, v: &Slot) -> bool
    ensures same { result ≡ same_update u.now v.now }
{
    if u[0] != SlotKind::Update.word() {
        return false;
    }
    let update = Head::read(u);
    let part = Head::read(v);
    update == part
}

// Whether a slot stands after the one before it, and is no member of another update.
#[tactic(auto, unfolding(crate::specs::Tests::follows, crate::specs::Tests::belongs))]
fn joins(last: &Slot, u: &Slot) -> bool
    ensures joined { result ≡ follows last.now u.now }
{
    if !in_order(last, u) {
        return false;
    }
    if !is_member(u) {
        return true;
    }
    same_update(last, u)
}

// Whether the first slot is no member: there is no update before it.
#[tactic(auto, using(crate::proofs::ScanExits::first_none, crate::proofs::ScanExits::first_there))]
fn first_ok(s: &[u32]) -> bool
    ensures first { result ≡ first_test (held s.now) }
{
    match slots_of(s).first() {
        None => true,
        Some(u) => !is_member(u),
    }
}

#[tactic(auto, using(crate::proofs::ScanExits::turns_done, crate::proofs::ScanExits::turn_stop, crate::proofs::ScanExits::turn_not_ok, crate::proofs::ScanExits::turn_not_joined, crate::proofs::ScanExits::turn_more, slots::proofs::StoreWords::slots_many, slots::proofs::SlotScans::passed_none))]
fn slots_ok(s: &[u32]) -> bool
    ensures sound { result ≡ sound slot_test follows s.now }
{
    let slots = slots_of(s);
    for i in 0..slots.len() {
        if !is_used(&slots[i]) {
            return zero_from(s, i);
        }
        if !slot_ok(&slots[i]) {
            return false;
        }
        if i > 0 && !joins(&slots[i - 1], &slots[i]) {
            return false;
        }
    }
    true
}

// Rule 5: whether the words are those of a store that holds fine updates and committed values.
#[tactic(auto, using(crate::proofs::ScanValid::valid_sound))]
pub fn is_valid(s: &[u32]) -> bool
    ensures valid { result ≡ group_valid s.now }
{
    first_ok(s) && slots_ok(s)
}
