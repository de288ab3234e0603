// What judging finds out once of a certificate, as tables, and once of an entry: where the ranks of its successors stand, the edges of its
// cell, what its links may send, and the ends of its image before arrivals.
#![tactic(auto)]

ghost use Rattle.std.specs.Prelude.{◌≡◌};
ghost use Rattle.network.specs.Conditions.{screening_of};
ghost use Rattle.supply.specs.Supply.{FirstTurns};
ghost use Rattle.cell_tables.specs.Tables.{CountsOf, EdgesOf, DigitsOf};
ghost use Rattle.rank_tables.specs.Index.{RanksOf};
ghost use Rattle.entry_setup.specs.Tables.{CapsOf, ArrivalsOf};

pub mod amounts;
pub mod entry;

use cell_tables::{digits, tables};
use certificate::limits;
pub use entry::Entry;
use rank_tables::ranks;
use reading::Certificate;

// A certificate that passes the tests before 12, and the tables made of it once: for each link how many intervals it has, its cap, and where
// its turns begin; the edges of the intervals, and the arrivals of each box; the interval of each link in each cell, and the ranks.
#[derive(Clone, Copy)]
pub struct Tables<'t> {
    pub certificate: &'t Certificate<'t>,
    pub counts: &'t [usize; limits::MAX_LINKS],
    pub caps: &'t [usize; limits::MAX_LINKS],
    pub first_turns: &'t [usize; limits::MAX_LINKS + 1],
    pub edges: &'t [usize; tables::EDGES],
    pub arrivals: &'t [usize; amounts::ARRIVALS],
    pub digits: &'t [u8; digits::DIGITS],
    pub ranks: &'t [u32; ranks::RANKS],
    ghost screened: { (screening_of certificate.now.bytes.now).number ≡ 0 },
    ghost counted: { CountsOf certificate.now.bytes.now counts.now },
    ghost capped: { CapsOf certificate.now.bytes.now caps.now },
    ghost begun: { FirstTurns certificate.now.bytes.now first_turns.now },
    ghost edged: { EdgesOf certificate.now.bytes.now edges.now },
    ghost arriving: { ArrivalsOf certificate.now.bytes.now arrivals.now },
    ghost placed: { DigitsOf certificate.now.bytes.now digits.now },
    ghost ranked: { RanksOf certificate.now.bytes.now ranks.now },
}
