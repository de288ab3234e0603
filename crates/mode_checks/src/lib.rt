// The tests of the records of modes (refusal 6).
#![tactic(auto)]

pub mod goals;
pub mod modes;
