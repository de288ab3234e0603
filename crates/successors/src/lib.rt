// The cells that meet an image: the ranges of their intervals, and the runs of consecutive cells in these.
#![tactic(auto)]

pub mod ranges;
pub mod seek;
pub mod starts;
