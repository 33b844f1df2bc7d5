// A sorted list of cells in pages of lent words.
#![tactic(auto)]

pub mod cells;
pub mod edits;
pub mod search;
pub mod shifts;
