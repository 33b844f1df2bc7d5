// Where the fields of a request stand, the head being word 0. Each is the same in every kind that has it, but for the index of kind 13, which stands
// after its tag, and for sets, values and deltas, which come last.
pub const KEY: usize = 1;

pub const INDEX: usize = 2;

pub const TAG: usize = 2;

pub const TAGGED_INDEX: usize = 3;

pub const INCARNATION: usize = 3;

pub const BASE_VALUE: usize = 2;

pub const WRITE_VALUE: usize = 4;

pub const DELTA: usize = 3;

pub const EXCHANGE_VALUE: usize = 3;

// A set is two words, and its values follow it.
pub const BASE_SET: usize = 2;

pub const BASE_VALUES: usize = 4;

pub const WRITE_SET: usize = 4;

pub const WRITE_VALUES: usize = 6;
