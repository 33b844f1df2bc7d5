// versioned_data.rs over a store in lent words: kinds 1 to 7.
#![tactic(auto)]

pub mod base;
pub mod edit;
pub mod fetch;
pub mod find;
mod layout;
mod marks;
pub mod materialize;
mod put;
pub mod scan;
pub mod walk;
