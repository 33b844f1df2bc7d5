// The types that both stores read and answer with, and what every crate above names: the refusals, the heads, and lack of units.
#![tactic(auto)]

pub mod flag;
pub mod index;
pub mod output;
pub mod refusal;
pub mod response;
pub mod units;
pub mod value;
