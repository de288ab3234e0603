// The search through the successors of an entry (14, 15).
#![tactic(auto)]

mod boxes;
pub mod search;
