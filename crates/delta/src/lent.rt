// The lent forms: a delta that is lent to each merge and updated, and a run of deltas in a lent slice.
ghost use Rattle.std.specs.Prelude.{◌≡◌, true, take, is_some, unwrap_or};
ghost use Rattle.delta.specs.Delta.{valid, merge};
ghost use Rattle.delta.specs.Record.{exact};
ghost use Rattle.delta.specs.Op.{merged_of, kept_or, accumulator_of, merge_ops, fold_records};

use crate::{Accumulator, DeltaOp, ValidDelta};

// The newer delta is lent, and merged onto the previous one where it stands. A failure leaves it as it was.
// Kept: the scope names a delta that is lent by &mut and updated; the answer can then only be whether it was merged.
pub fn merge_valid(newer: &mut ValidDelta, previous: ValidDelta) -> bool
    ensures answers { result ≡ is_some (merged_of (merge newer.old previous)) }
    ensures merges { newer.new ≡ unwrap_or (merged_of (merge newer.old previous)) newer.old }
{
    match newer.merge_with_previous_delta(previous) {
        Some(delta) => {
            *newer = delta;
            true
        }
        None => false,
    }
}

// The same of records whose numbers are those of a delta. A failure writes nothing, so a sign that no delta has stays too.
#[tactic(auto, unfolding(crate::specs::Op::kept_or))]
pub fn merge_with_previous_delta(newer: &mut DeltaOp, previous: DeltaOp) -> bool
    requires is_delta { valid (exact newer.old) ≡ true }
    requires previous_is_delta { valid (exact previous) ≡ true }
    ensures answers { result ≡ is_some (merged_of (merge (exact newer.old) (exact previous))) }
    ensures merges { newer.new ≡ kept_or newer.old (merged_of (merge (exact newer.old) (exact previous))) }
{
    let Some(delta) = newer.merge_with_previous_delta(previous) else {
        return false;
    };
    *newer = DeltaOp::from(delta);
    true
}

// The same merge with plain parameters: as in the Rust, a copy of the newer delta is lent, and kept if it was merged.
pub fn merge_valid_copy(mut newer: ValidDelta, previous: ValidDelta) -> Option<ValidDelta>
    ensures merges { result ≡ merged_of (merge newer previous) }
{
    if merge_valid(&mut newer, previous) {
        Some(newer)
    } else {
        None
    }
}

// The same of records whose numbers are those of a delta.
pub fn merge_copy(newer: DeltaOp, previous: DeltaOp) -> Option<ValidDelta>
    requires is_delta { valid (exact newer) ≡ true }
    requires previous_is_delta { valid (exact previous) ≡ true }
    ensures merges { result ≡ merged_of (merge (exact newer) (exact previous)) }
{
    merge_valid_copy(ValidDelta::new(newer), ValidDelta::new(previous))
}

// The same of structs that anybody may have written: a bad one is not merged.
#[tactic(auto, unfolding(crate::specs::Op::merge_ops, crate::specs::Op::merged_of))]
pub fn merge_records(newer: DeltaOp, previous: DeltaOp) -> Option<ValidDelta>
    ensures merges { result ≡ merged_of (merge_ops newer previous) }
{
    merge_valid_copy(newer.checked()?, previous.checked()?)
}

// A run of records, newest first. Anybody may have written them: a bad one fails the merge.
pub fn fold(records: &[DeltaOp]) -> Accumulator
    ensures folds { result ≡ accumulator_of (fold_records records.now) }
{
    let mut acc = Accumulator::Empty;
    for record in records {
        acc = acc.accumulate_record(*record);
    }
    acc
}

// The same with plain parameters: the first `count` records of an array, or all of them.
// Kept: the scope names arrays in the program, and plain parameters above the lent form.
pub fn fold_first(run: [DeltaOp; 8], count: usize) -> Accumulator
    ensures folds { result ≡ accumulator_of (fold_records (take count run)) }
{
    fold(&run[..count.min(8)])
}
