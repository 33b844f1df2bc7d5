// Refusal 3: whether each field of a request keeps its rule.
ghost use Rattle.std.specs.Prelude.{◌≡◌, not, ◌&&◌};
ghost use Rattle.types.specs.Value.{is_deletion};
ghost use Rattle.types.specs.ValueWithLayout.{words_of};
ghost use Rattle.request.specs.Members.{members_in};
ghost use Rattle.request.specs.Request.{all, exchanged_ok, tag_ok};
ghost use Rattle.request.specs.Fields.{side_ok, RoomIn, rule_in};

use super::asked::Request;
use super::members::{Members, first_value};
use delta::words;
use types::value;
use types::value::{VALUE_WIDTH, ValueWithLayout};

const LAST_TAG: u32 = 63;

// A value that keeps its rule, and is exchanged, or raw.
#[tactic(auto, unfolding(crate::specs::Fields::side_ok, crate::specs::Request::exchanged_ok, crate::specs::Request::raw_ok))]
fn side_ok(v: ValueWithLayout, exchanged: bool) -> bool
    ensures rule { result ≡ side_ok exchanged (words_of v) }
{
    v.ok() && v.is_exchanged() == exchanged
}

// The values of a set.
fn values_ok(members: Members, exchanged: bool) -> bool
    ensures rule { result ≡ all (side_ok exchanged) (members_in members.entry) }
{
    let mut words = members.values;
    for _i in 0..members.len() {
        if !side_ok(first_value(words), exchanged) {
            return false;
        }
        words = &words[VALUE_WIDTH..];
    }
    true
}

// A tag, and an exchanged value that is no deletion.
#[tactic(auto, unfolding(crate::specs::Fields::side_ok, crate::specs::Request::tag_ok))]
fn exchange_ok(tag: u32, v: ValueWithLayout) -> bool
    ensures rule { result ≡ (tag_ok tag && exchanged_ok (words_of v) && not (is_deletion (words_of v))) }
{
    tag <= LAST_TAG && side_ok(v, true) && !v.is_deletion()
}

// The rule of the fields, by the kind. The other kinds have only fields that are free.
#[tactic(auto, unfolding(crate::specs::Fields::RoomIn, crate::specs::Fields::rule_in, crate::specs::Fields::side_ok, crate::specs::Request::tag_ok))]
pub fn fields_ok(t: &[u32], request: Request) -> bool
    requires room { RoomIn t.now request }
    ensures rule { result ≡ rule_in t.now request }
{
    match request {
        Request::Base { value, .. } => value::value_ok(t, value),
        Request::Write { value, .. } => side_ok(first_value(&t[value..]), true),
        Request::AddDelta { delta, .. } => words::is_delta(t, delta),
        Request::GroupBase { set, values, .. } => {
            let values = &t[values..];
            values_ok(Members { set, values }, false)
        }
        Request::Exchange { tag, value, .. } => exchange_ok(tag, first_value(&t[value..])),
        Request::GroupWrite { set, values, .. } => {
            let values = &t[values..];
            values_ok(Members { set, values }, true)
        }
        Request::GroupFetch { tag, .. } => tag <= LAST_TAG,
        _ => true,
    }
}
