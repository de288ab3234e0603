// Entries: the fields of their records.
#![tactic(auto)]

pub mod entries;
