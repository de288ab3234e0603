// Looking up the entry of a cell and a mode; the index by cell and the table of ranks.
#![tactic(auto)]

pub mod index;
pub mod lookup;
pub mod ranks;
