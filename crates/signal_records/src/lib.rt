// Signals: the fields of their records and their tests (refusal 6).
#![tactic(auto)]

pub mod signals;
