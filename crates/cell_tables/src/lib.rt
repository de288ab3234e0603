// Tables made once for a certificate: edges and counts of the links, and the intervals of each cell; the cell of given queues.
#![tactic(auto)]

pub mod digits;
pub mod queues;
pub mod tables;
