// 128-bit numbers as two 64-bit halves, by value: sums, differences and comparisons that are
// exact. Halves are added with carry, and what the two halves do not hold is reported.
#![tactic(auto, unfolding(crate::specs::Number::range, crate::specs::Number::value_of, crate::specs::Number::number_of, crate::specs::Number::carry_of, crate::specs::Number::borrow_of, crate::specs::Number::sum_of, crate::specs::Number::difference_of))]

ghost use Rattle.std.specs.Prelude.{◌≡◌, ◌==◌, nat_eq};
ghost use Rattle.std.specs.Cmp.{partial_order_from_own_ties};
ghost use Rattle.std.specs.Cmp.Rules.{comparing};
ghost use Rattle.std.specs.Ordering.{nat_cmp, on, as_partial_cmp};
ghost use Rattle.std.proofs.Common.{rules};
ghost use Rattle.number.specs.Number.{value_of, number_of, carry_of, borrow_of, sum_of, difference_of};

use std::cmp::Ordering;

pub mod words;

// lo + hi * 2^64.
#[derive(Clone, Copy)]
pub struct Number {
    pub lo: u64,
    pub hi: u64,
}

// The carry of a + b out of 64 bits, 1 or 0: the wrapped sum is less than an addend exactly if
// the sum wrapped.
// Kept: wrapping halves, with a carry of 1 or 0 that is added to the next, are a rule of the project.
fn carry(a: u64, b: u64) -> u64
    ensures carries { result ≡ carry_of a b }
{
    let sum = a.wrapping_add(b);
    (sum < a) as u64
}

// The borrow of a - b, 1 or 0.
fn borrow(a: u64, b: u64) -> u64
    ensures borrows { result ≡ borrow_of a b }
{
    (a < b) as u64
}

impl Number {
    // self + other. The sum is too large exactly if the high halves carry, or their wrapped sum
    // does with the carry of the low halves.
    pub fn checked_add(self, other: Number) -> Option<Number>
        ensures exact { result ≡ sum_of self other }
    {
        let low_carry = carry(self.lo, other.lo);
        let lo = self.lo.wrapping_add(other.lo);
        let high = self.hi.wrapping_add(other.hi);
        let hi = high.wrapping_add(low_carry);
        let over = carry(self.hi, other.hi) + carry(high, low_carry);
        if over == 0 {
            Some(Number { lo, hi })
        } else {
            None
        }
    }

    // self - other. The difference is less than zero exactly if the high halves borrow, or their
    // wrapped difference does for the borrow of the low halves.
    // Kept: `checked_add` with the other two calls; one function that is handed them would have to say in its contract what they do, and hide the halves.
    pub fn checked_sub(self, other: Number) -> Option<Number>
        ensures exact { result ≡ difference_of self other }
    {
        let low_borrow = borrow(self.lo, other.lo);
        let lo = self.lo.wrapping_sub(other.lo);
        let high = self.hi.wrapping_sub(other.hi);
        let hi = high.wrapping_sub(low_borrow);
        let below = borrow(self.hi, other.hi) + borrow(high, low_borrow);
        if below == 0 {
            Some(Number { lo, hi })
        } else {
            None
        }
    }

    pub fn is_zero(self) -> bool
        ensures zero { result ≡ (value_of self == 0) }
    {
        self.lo == 0 && self.hi == 0
    }

    // The high halves decide, and the low ones where those are equal.
    fn order(self, other: Number) -> Ordering
        ensures order { result ≡ nat_cmp (value_of self) (value_of other) }
    {
        if self.hi == other.hi {
            return self.lo.cmp(&other.lo);
        }
        self.hi.cmp(&other.hi)
    }
}

// Kept: equality and order by hand. Tried, with the high half first: the derives prove, but speak of halves, so that in `delta` the proofs of `is_valid`,
// `within`, `reached`, `apply_to` and `merge_with_previous_delta`, which speak of values, stay open.
impl PartialEq for Number {
    ghost eq = { on value_of nat_eq };

    ghost laws = { Prim.search (comparing, rules) };

    fn eq(&self, other: &Number) -> bool {
        self.lo == other.lo && self.hi == other.hi
    }
}

impl Eq for Number {
    ghost laws = { Prim.search (comparing, rules) };
}

impl Ord for Number {
    ghost cmp = { on value_of nat_cmp };

    ghost total = { Prim.search (comparing, rules) };

    ghost matches_partial_cmp = { Prim.search (comparing, rules) };

    ghost matches_eq = { Prim.search (comparing, rules) };

    fn cmp(&self, other: &Number) -> Ordering {
        self.order(*other)
    }
}

impl PartialOrd for Number {
    ghost partial_cmp = { as_partial_cmp (on value_of nat_cmp) };

    ghost laws = { partial_order_from_own_ties (Prim.search (comparing, rules)) (Prim.search (comparing, rules)) };

    fn partial_cmp(&self, other: &Number) -> Option<Ordering> {
        Some(self.cmp(other))
    }
}
