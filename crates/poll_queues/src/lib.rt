// Polls of loop detectors: the readings in their bytes, the queue of each link, and the cell of the queues.
#![tactic(auto)]

pub mod cells;
pub mod frames;
pub mod levels;
