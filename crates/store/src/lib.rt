// A sorted map in lent words: rows found, read, put in, taken out and rewritten, and the scan for rule 5.
#![tactic(auto)]

pub mod edit;
pub mod payloads;
pub mod read;
pub mod scan;
