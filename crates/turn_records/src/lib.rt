// Turns: the fields of their records and their tests (refusal 5).
#![tactic(auto)]

pub mod turns;
