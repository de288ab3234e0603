// How an entry stands before its successors are looked up: its cell is safe (12), and its rank is 0 exactly at the goal of its mode (13).
#![tactic(auto)]

ghost use Rattle.std.specs.Prelude.{◌≡◌, ◌≤◌};
ghost use Rattle.certificate.specs.Layout.{max_entries, max_links, links_of, rank_of};
ghost use Rattle.judging.specs.EntryTests.{is_safe, is_goal, standing_fault};
ghost use Rattle.octets.specs.Refusals.{told};
ghost use Rattle.entry_standing.specs.Standing.{UpperEdges, GoalsIn};

use certificate::limits;
use entry_records::entries::Entries;
use mode_records::modes::Modes;
use octets::refusals::{Refusal, Refused, refuse_at};
use road_records::links;

// What the standing of an entry goes by: how many links there are, and the records of modes and of entries.
#[derive(Clone, Copy)]
pub struct Standing<'a> {
    pub links: usize,
    pub modes: Modes<'a>,
    pub entries: Entries<'a>,
    ghost links_are: { links ≡ links_of entries.bytes.now },
    ghost links_most: { links ≤ max_links },
    ghost same: { modes.bytes.now ≡ entries.bytes.now },
}

// Where the goals of an entry's mode stand: that of link 0, and how far apart those of two links are.
#[derive(Clone, Copy)]
struct GoalRow {
    first: usize,
    apart: usize,
}

// In H3, by the size of its records of modes, the goals of a mode stand in its record, in HD and H2 in those of the links.
fn goal_row(at: &Standing<'_>, e: usize) -> GoalRow
    requires { e ≤ max_entries }
    ensures { GoalsIn at.now.entries.bytes.now e result }
{
    if at.modes.size != limits::PLAIN_MODE_SIZE {
        let mode = at.entries.mode_of(e);
        let record = at.modes.record_at(mode);
        return GoalRow {
            first: record + 4,
            apart: 2,
        };
    }
    let memory = header_record::has_memory(at.entries.bytes);
    GoalRow {
        first: limits::HEADER_SIZE + 10,
        apart: links::size_for(at.entries.bytes, memory),
    }
}

// The upper edges of entry e's cell are all at most safe; all at most the goal of its mode. Both by one loop, which is not left early,
// for speed.
#[derive(Clone, Copy)]
struct CellFits {
    safe: bool,
    goal: bool,
}

fn cell_fits(
    at: &Standing<'_>,
    row: GoalRow,
    e: usize,
    upper: &[usize; limits::MAX_LINKS],
) -> CellFits
    requires { GoalsIn at.now.entries.bytes.now e row × UpperEdges at.now.entries.bytes.now e upper.now }
    ensures { (result.safe ≡ is_safe at.now.entries.bytes.now e) × (result.goal ≡ is_goal at.now.entries.bytes.now e) }
{
    let bytes = at.entries.bytes;
    let mut safe = true;
    let mut goal = true;
    for l in 0..at.links {
        safe &= upper[l] <= links::safe_of(bytes, l);
        goal &= upper[l] <= octets::u16_at(bytes, row.first + row.apart * l);
    }
    CellFits { safe, goal }
}

// The tests 12 and 13 of entry e, given its rank and the upper edges of its cell.
pub fn check_standing(
    at: &Standing<'_>,
    e: usize,
    rank: usize,
    upper: &[usize; limits::MAX_LINKS],
    count: u32,
) -> Result<(), Refused>
    requires { (e ≤ max_entries) × (rank ≡ rank_of at.now.entries.bytes.now e) × UpperEdges at.now.entries.bytes.now e upper.now }
    ensures { told result ≡ standing_fault at.now.entries.bytes.now e count }
{
    let cell = cell_fits(at, goal_row(at, e), e, upper);
    if !cell.safe {
        return Err(refuse_at(Refusal::Unsafe, e, 0, count));
    }
    if (rank == 0) != cell.goal {
        return Err(refuse_at(Refusal::Rank, e, 0, count));
    }
    Ok(())
}
