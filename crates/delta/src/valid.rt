// A delta that is known to be valid, so that no step over it tests it again.
ghost use Rattle.std.specs.Prelude.{◌≡◌, true, if◌then◌else◌, Some, None};
ghost use Rattle.number.specs.Number.{value_of};
ghost use Rattle.delta.specs.Delta.{valid, apply_to, merge};
ghost use Rattle.delta.specs.Record.{exact, op_of, valid_op};
ghost use Rattle.delta.specs.Op.{applied_of, merged_of};

use crate::DeltaOp;
use crate::signed::{self, Signed};
use number::Number;
use std::marker::Model;

// A contract sees it as the exact delta that its record stands for.
#[derive(Clone, Copy)]
pub struct ValidDelta {
    op: DeltaOp,
}

impl Model for ValidDelta {
    ghost use Rattle.delta.specs.Delta.{Delta};
    ghost use Rattle.delta.specs.Record.{exact, op_of, IsDelta};

    ghost Value = { Delta };

    ghost view = { λ d. exact d.op };

    ghost invariant = { λ d. IsDelta d.op };

    ghost inverse = { λ e. record { op = op_of e } };

    ghost inverse_ok = { λ a h. λ i. record { op = h.canonical i } };
}

impl From<ValidDelta> for DeltaOp {
    ghost from_gives = { λ d o. o ≡ op_of d };

    fn from(d: ValidDelta) -> DeltaOp {
        d.op
    }
}

impl DeltaOp {
    // The record as a delta, if it is one.
    pub fn checked(self) -> Option<ValidDelta>
        ensures checks { result ≡ (if valid_op self then Some (exact self) else None) }
    {
        if self.is_valid() {
            Some(ValidDelta { op: self })
        } else {
            None
        }
    }
}

impl ValidDelta {
    // A record whose numbers are those of a delta. Its sign becomes 0 or 1, and that of zero plus.
    pub fn new(op: DeltaOp) -> ValidDelta
        requires is_delta { valid (exact op) ≡ true }
        ensures same { result ≡ exact op }
    {
        let sign = u64::from(op.sign_word());
        ValidDelta {
            op: DeltaOp { sign, ..op },
        }
    }

    // v + u, where v ≥ L and v + H ≤ M.
    pub fn apply_to(self, v: Number) -> Option<Number>
        ensures applies { result ≡ applied_of (apply_to self (value_of v)) }
    {
        let op = self.op;
        if v < op.low {
            return None;
        }
        let top = v.checked_add(op.high)?;
        if op.limit < top {
            return None;
        }
        let sum = Signed::plus(v).checked_add(op.signed_update())?;
        Some(sum.size)
    }

    // This delta, the newer, merged onto the previous one. What either reaches beyond the limit
    // is found before the updates are added, so that their sum fits.
    pub fn merge_with_previous_delta(self, previous: ValidDelta) -> Option<ValidDelta>
        ensures merges { result ≡ merged_of (merge self previous) }
    {
        let newer = self.op;
        let earlier = previous.op;
        if newer.limit != earlier.limit {
            return None;
        }
        let moved = earlier.signed_update();
        let high = signed::reached(newer.limit, earlier.high, newer.high, moved)?;
        let low = signed::reached(newer.limit, earlier.low, newer.low, moved.negated())?;
        let sum = moved.checked_add(newer.signed_update())?;
        let op = DeltaOp {
            limit: newer.limit,
            high,
            low,
            update: sum.size,
            sign: sum.minus as u64,
        };
        Some(ValidDelta { op })
    }
}
