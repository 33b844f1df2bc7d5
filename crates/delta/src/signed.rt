// Sums of signed numbers, and the greatest that two deltas reach.
#![tactic(auto, unfolding(number::specs::Number::sum_of, number::specs::Number::difference_of, crate::specs::Op::integer_of, crate::specs::Op::reach_of), using(crate::proofs::DeltaSums::sums))]

ghost use Rattle.std.specs.Prelude.{◌≡◌, ◌+◌, pos, neg_ℤ, ◌+ℤ◌, ◌-ℤ◌};
ghost use Rattle.number.specs.Number.{value_of};
ghost use Rattle.delta.specs.Delta.{signed, greater};
ghost use Rattle.delta.specs.Op.{integer_of, change_of, reach_of};

use number::Number;

// A signed number: its size, and whether it is below zero.
// Kept: a record has its sign beside the size, so an enum of two signs would be made from it and taken apart again by a match at each step.
#[derive(Clone, Copy)]
pub struct Signed {
    pub size: Number,
    pub minus: bool,
}

impl Signed {
    pub fn plus(size: Number) -> Signed
        ensures plus { integer_of result ≡ pos (value_of size) }
    {
        Signed { size, minus: false }
    }

    pub fn negated(self) -> Signed
        ensures turned { integer_of result ≡ neg_ℤ (integer_of self) }
    {
        Signed {
            size: self.size,
            minus: !self.minus,
        }
    }

    // self + other, if 128 bits hold its size.
    pub fn checked_add(self, other: Signed) -> Option<Signed>
        ensures exact { result ≡ change_of (integer_of self +ℤ integer_of other) }
    {
        if self.minus == other.minus {
            return add_sizes(self.size, other.size, self.minus);
        }
        if self.minus {
            return take_size(other.size, self.size);
        }
        take_size(self.size, other.size)
    }
}

// Two numbers of the same sign.
fn add_sizes(a: Number, b: Number, minus: bool) -> Option<Signed>
    ensures exact { result ≡ change_of (signed minus (value_of a + value_of b)) }
{
    let size = a.checked_add(b)?;
    Some(Signed {
        size,
        minus: minus && !size.is_zero(),
    })
}

// a - b, whichever is greater.
fn take_size(a: Number, b: Number) -> Option<Signed>
    ensures exact { result ≡ change_of (pos (value_of a) -ℤ pos (value_of b)) }
{
    if let Some(size) = a.checked_sub(b) {
        return Some(Signed { size, minus: false });
    }
    let size = b.checked_sub(a)?;
    Some(Signed { size, minus: true })
}

fn within(limit: Number, v: Number) -> Option<Number>
    ensures reach { result ≡ reach_of (value_of limit) (value_of v) }
{
    if v <= limit { Some(v) } else { None }
}

// The greater of `earlier` and of `newer` moved by a signed number, if the limit allows it.
pub fn reached(limit: Number, earlier: Number, newer: Number, by: Signed) -> Option<Number>
    ensures exact { result ≡ reach_of (value_of limit) (greater (value_of earlier) (pos (value_of newer) +ℤ integer_of by)) }
{
    if by.minus {
        let Some(moved) = newer.checked_sub(by.size) else {
            return within(limit, earlier);
        };
        return within(limit, earlier.max(moved));
    }
    let moved = newer.checked_add(by.size)?;
    within(limit, earlier.max(moved))
}
