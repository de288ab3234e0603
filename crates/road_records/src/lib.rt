// Links: the fields of their records and their tests (refusal 4).
#![tactic(auto)]

pub mod links;
