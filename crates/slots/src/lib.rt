// Slots of 32 words in a lent store: find, move, write and scan.
#![tactic(auto, unfolding(types::specs::Units::units_in))]

pub mod edit;
pub mod scan;
pub mod search;
pub mod slot;
