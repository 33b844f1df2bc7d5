// How the group store stands in slots: finding updates, members and committed values, and the scan for rule 5.
#![tactic(auto, unfolding(types::specs::Units::units_in))]

pub mod find;
pub mod layout;
pub mod scan;
