// Modes: what each remembers of signals, and its goals.
#![tactic(auto)]

pub mod goals;
pub mod modes;
