// What a base value is to do to the base that is there.
ghost use Rattle.std.specs.Prelude.{◌≡◌};
ghost use Rattle.types.specs.ValueWithLayout.{words_of};
ghost use Rattle.model.specs.Data.{same_exchanged};
ghost use Rattle.versioned_data.specs.Base.{over_base};

use types::value::ValueWithLayout;

#[derive(Clone, Copy)]
pub enum Base {
    // The base there is kept.
    Keep,
    // There is no base, or the new one holds more.
    Set,
    // The two cannot be the same value.
    Differs,
}

// With a layout, identifiers may have been exchanged since, and the bytes may differ.
#[tactic(auto, unfolding(model::specs::Data::same_exchanged))]
fn same_exchanged(v: ValueWithLayout, w: ValueWithLayout) -> bool
    ensures same { result ≡ same_exchanged (words_of v) (words_of w) }
{
    match (v.has_layout(), w.has_layout()) {
        (false, false) => v.same_bytes(w),
        (x, y) => x == y,
    }
}

// Exchanged holds more than raw: it replaces raw, and raw does nothing to it.
#[tactic(auto, unfolding(crate::specs::Base::over_base, crate::specs::Base::kept_if))]
pub fn over_base(value: ValueWithLayout, existing: ValueWithLayout) -> Base
    ensures base { result ≡ over_base (words_of value) (words_of existing) }
{
    let same = match (value.is_exchanged(), existing.is_exchanged()) {
        (true, true) => same_exchanged(value, existing),
        (true, false) => return Base::Set,
        (false, true) => return Base::Keep,
        (false, false) => value.same_bytes(existing),
    };
    if same {
        return Base::Keep;
    }
    Base::Differs
}
