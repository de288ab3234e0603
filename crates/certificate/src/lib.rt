// Reports, the answer of every call, and the limits of the format. The definitions of a certificate stand in specs/: there is
// nothing to execute.
#![tactic(auto)]

pub mod limits;

// The answer of a call: its number (0 is success, else the refusal), places A and B, and the count of successors looked up.
#[derive(Clone, Copy)]
pub struct Report {
    pub number: u8,
    pub a: u32,
    pub b: u32,
    pub count: u32,
}

// What the street cabinet reads of an entry of the policy: all but its rank.
#[derive(Clone, Copy)]
pub struct CabinetEntry {
    pub cell: usize,
    pub mode: usize,
    pub signal: usize,
    pub next_mode: usize,
}

// What the bench reads of it: the rank as well.
#[derive(Clone, Copy)]
pub struct BenchEntry {
    pub shown: CabinetEntry,
    pub rank: usize,
}
