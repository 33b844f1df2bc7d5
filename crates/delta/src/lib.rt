// Deltas by value: a change to a number that keeps within a limit on its way.
#![tactic(auto)]

ghost use Rattle.std.specs.Prelude.{◌≡◌, true};
ghost use Rattle.number.specs.Number.{value_of};
ghost use Rattle.delta.specs.Delta.{valid, apply_to, merge, accumulate, sign_word};
ghost use Rattle.delta.specs.Record.{exact, valid_op};
ghost use Rattle.delta.specs.Op.{integer_of, applied_of, merged_of, exactly, accumulator_of, accumulate_op};

use number::Number;
use signed::Signed;
pub use valid::ValidDelta;

pub mod lent;
mod signed;
mod valid;
pub mod words;

// A delta, or a record that may be none: anybody may have written it. The Rust's `DeltaOp` holds the same in its own form.
#[derive(Clone, Copy)]
pub struct DeltaOp {
    // The greatest number allowed (01: M; the Rust's max_value).
    pub limit: Number,
    // The highest reached above the start (01: H; max_achieved_positive_delta).
    pub high: Number,
    // The depth of the lowest reached below the start (01: L; min_achieved_negative_delta).
    pub low: Number,
    // The size of the update (01: u).
    pub update: Number,
    // The sign of the update (01: 0 plus, 1 minus).
    // Kept: a bad record may hold any number here, and a field narrower than the rest would leave padding, which is slow to copy.
    pub sign: u64,
}

// What a walk over deltas, newest first, has gathered.
// Kept: the scope names a three-way enum here, for the Rust's `Option<Result<DeltaOp, ()>>`.
#[derive(Clone, Copy)]
pub enum Accumulator {
    Empty,
    Gathered(ValidDelta),
    Failed,
}

impl DeltaOp {
    // 01: the sign is 0 or 1, H ≤ M, L ≤ M, −L ≤ u ≤ H, and no minus zero.
    #[tactic(auto, using(crate::proofs::DeltaOps::checking))]
    pub fn is_valid(self) -> bool
        ensures valid { result ≡ valid_op self }
    {
        if self.sign > 1 || self.limit < self.high || self.limit < self.low {
            return false;
        }
        if self.sign == 0 {
            return self.update <= self.high;
        }
        !self.update.is_zero() && self.update <= self.low
    }

    // The sign as words have it: 0 plus, 1 minus, and zero has the sign of plus.
    #[tactic(auto, using(crate::proofs::DeltaOps::sign_is))]
    fn sign_word(self) -> u32
        ensures sign { result ≡ sign_word (exact self).update }
    {
        if self.update.is_zero() {
            return 0;
        }
        (self.sign != 0) as u32
    }

    // The update, with its sign.
    #[tactic(auto, unfolding(crate::specs::Op::integer_of, crate::specs::Record::exact))]
    fn signed_update(self) -> Signed
        ensures update { integer_of result ≡ (exact self).update }
    {
        Signed {
            size: self.update,
            minus: self.sign != 0,
        }
    }

    // `ValidDelta::apply_to` of a record whose numbers are those of a delta.
    pub fn apply_to(self, v: Number) -> Option<Number>
        requires is_delta { valid (exact self) ≡ true }
        ensures applies { result ≡ applied_of (apply_to (exact self) (value_of v)) }
    {
        ValidDelta::new(self).apply_to(v)
    }

    // `ValidDelta::merge_with_previous_delta` of two such records.
    pub fn merge_with_previous_delta(self, previous: DeltaOp) -> Option<ValidDelta>
        requires is_delta { valid (exact self) ≡ true }
        requires previous_is_delta { valid (exact previous) ≡ true }
        ensures merges { result ≡ merged_of (merge (exact self) (exact previous)) }
    {
        ValidDelta::new(self).merge_with_previous_delta(ValidDelta::new(previous))
    }
}

impl Accumulator {
    // An earlier delta, met by a walk that goes newest first.
    #[tactic(auto, unfolding(crate::specs::Op::accumulator_of, crate::specs::Op::exactly, crate::specs::Op::merged_of, crate::specs::Delta::accumulate, crate::specs::Delta::gathered))]
    pub fn accumulate_valid(self, earlier: ValidDelta) -> Accumulator
        ensures accumulates { result ≡ accumulator_of (accumulate (exactly self) earlier) }
    {
        match self {
            Accumulator::Empty => Accumulator::Gathered(earlier),
            Accumulator::Gathered(newer) => match lent::merge_valid_copy(newer, earlier) {
                Some(delta) => Accumulator::Gathered(delta),
                None => Accumulator::Failed,
            },
            Accumulator::Failed => Accumulator::Failed,
        }
    }

    // The same of a record that is known to be a delta.
    #[tactic(auto, using(crate::proofs::RecordLaws::valid_op_valid))]
    pub fn accumulate(self, earlier: DeltaOp) -> Accumulator
        requires is_delta { valid_op earlier ≡ true }
        ensures accumulates { result ≡ accumulator_of (accumulate (exactly self) (exact earlier)) }
    {
        self.accumulate_valid(ValidDelta::new(earlier))
    }

    // An earlier record that anybody may have written: a bad one fails the merge.
    #[tactic(auto, unfolding(crate::specs::Op::accumulator_of, crate::specs::Op::accumulate_op))]
    pub fn accumulate_record(self, earlier: DeltaOp) -> Accumulator
        ensures accumulates { result ≡ accumulator_of (accumulate_op (exactly self) earlier) }
    {
        let Some(earlier) = earlier.checked() else {
            return Accumulator::Failed;
        };
        self.accumulate_valid(earlier)
    }
}
