// The members that a request hands over: the tags of a set, and the words of a value for each tag in rising order.
ghost use Rattle.std.specs.Prelude.{◌≡◌, [], ◌∷◌, ◌*◌, ◌≤◌, length, take, IfNone, IfSome};
ghost use Rattle.types.specs.Value.{value_width};
ghost use Rattle.types.specs.ValueWithLayout.{words_of};
ghost use Rattle.request.specs.Set.{tags_of};

use super::set::Set;
use types::value::{VALUE_WIDTH, ValueWithLayout};

#[derive(Clone, Copy)]
pub struct Members<'a> {
    pub set: Set,
    pub values: &'a [u32],
    pub ghost inside: { value_width * length (tags_of set.low set.high) ≤ length values.now },
}

// The value that stands first in words.
pub fn first_value(words: &[u32]) -> ValueWithLayout
    requires inside { value_width ≤ length words.now }
    ensures value { words_of result ≡ take value_width words.now }
{
    ValueWithLayout::read(words, 0)
}

impl<'a> Members<'a> {
    ghost use Rattle.request.specs.Members.{members_in};

    pub fn len(self) -> usize
        ensures counted { result ≡ length (members_in self.entry) }
    {
        self.set.len()
    }

    // The least tag, its value, and the members without it.
    pub fn split_first(self) -> Option<(u32, ValueWithLayout, Members<'a>)>
        ensures none { IfNone result (members_in self.entry ≡ []) }
        ensures some { IfSome result (λ x. members_in self.entry ≡ record { tag = x.0; value = words_of x.1 } ∷ members_in x.2) }
        ensures bound { IfSome result (λ x. x.0 ≤ 63) }
    {
        let (tag, set) = self.set.split_first()?;
        let value = first_value(self.values);
        let values = &self.values[VALUE_WIDTH..];
        Some((tag, value, Members { set, values }))
    }
}
