// Grids of queue boxes and arrival boxes: the fields of their records and their tests (refusals 7 and 8).
#![tactic(auto)]

pub mod arrivals;
pub mod grids;
