// The lines of a listing: what each is made of, how long it is, and putting it into a lent buffer.
#![tactic(auto)]

pub mod entries;
pub mod line;
pub mod lines;
