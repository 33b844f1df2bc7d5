// What reads find: the Rust's `MVDataOutput` and `MVDataError` in one enum, and so for groups. A read that is refused, as over a value with a layout below
// deltas, finds none of it.
use super::index::{Incarnation, ShiftedTxnIndex, TxnIndex};
use super::value::ValueWithLayout;
use delta::DeltaOp;
use number::Number;

#[derive(Clone, Copy)]
pub enum MVDataOutput {
    // The last versioned write. At the base its index is the storage version.
    Versioned(ShiftedTxnIndex, Incarnation, ValueWithLayout),
    // Result of a resolved delta.
    Resolved(Number),
    // No value below the deltas: what they come to together.
    Unresolved(DeltaOp),
    Uninitialized,
    // An estimate of another transaction is in the way.
    Dependency(TxnIndex),
    DeltaApplicationFailure,
}

#[derive(Clone, Copy)]
pub enum MVGroupOutput {
    Versioned(ShiftedTxnIndex, Incarnation, ValueWithLayout),
    // Members that have bytes, and the sum of their lengths plus 1 each.
    Size(u32, u32),
    Uninitialized,
    TagNotFound,
    Dependency(TxnIndex),
}
