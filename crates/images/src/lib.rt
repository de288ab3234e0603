// The image of a closed box of queues.
#![tactic(auto)]

pub mod ends;
