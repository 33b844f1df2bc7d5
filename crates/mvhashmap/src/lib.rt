// The call over both stores.
#![tactic(auto)]

pub mod answer;
pub mod call;
pub mod data;
mod front;
pub mod group;
