// The verdict of any bytes: all tests before 12, then every entry in order; and how many entries may turn arrivals away.
#![tactic(auto)]

ghost use Rattle.std.specs.Prelude.{◌≡◌, ◌+◌, ◌*◌, ◌<◌, ◌≤◌, IfOk};
ghost use Rattle.certificate.specs.Checks.{report_with};
ghost use Rattle.certificate.specs.Layout.{max_boxes, max_modes, max_cells, entries_of, boxes_of, cells_of};
ghost use Rattle.network.specs.Conditions.{screening_of};
ghost use Rattle.rank_tables.specs.Index.{RanksOf};
ghost use Rattle.judging.specs.EntryTests.{judging_from};
ghost use Rattle.judging.specs.Verdict.{verdict_of};
ghost use Rattle.judging.specs.Overflow.{entry_overflows, overflows_of};
ghost use Rattle.octets.specs.Refusals.{told_after};
ghost use Rattle.entry_setup.specs.Bytes.{bytes_of};
ghost use Rattle.verdict.specs.Entries.{entry_alone, JudgedAs, verdict_told, overflows_in, judged_as};

use cell_tables::{digits, tables as cell_tables_of};
use certificate::{Report, limits};
use entry_search::search::{self, Searched};
use entry_setup::{Entry, Tables, amounts, entry};
use entry_standing::Standing;
use images::ends::Ends;
use octets::refusals::Refused;
use rank_tables::{index, ranks};
use reading::Certificate;
use supply::QueueBox;

// What an acceptance says: how many successors were looked up, and how many entries may turn arrivals away.
#[derive(Clone, Copy)]
pub struct Accepted {
    pub count: u32,
    pub overflows: u32,
}

// The report of an acceptance.
impl From<Accepted> for Report {
    ghost from_gives = { λ a r. r ≡ report_with 0 0 0 a.count };

    fn from(accepted: Accepted) -> Report {
        Report {
            number: 0,
            a: 0,
            b: 0,
            count: accepted.count,
        }
    }
}

// The verdict with the certificate that is accepted.
#[derive(Clone, Copy)]
pub struct Judged<'a> {
    pub certificate: Certificate<'a>,
    pub accepted: Accepted,
}

// One entry judged alone: its standing (12, 13), then its successors. `runs` is room for the starts of the runs of a box.
fn judge_entry(
    tables: &Tables<'_>,
    e: usize,
    count: u32,
    runs: &mut [u16; limits::MAX_CELLS],
) -> Result<Searched, Refused>
    requires { (e < entries_of (bytes_of tables.now)) × (count ≤ max_boxes * max_cells * e) }
    ensures told { told_after (λ r. r.count) result ≡ entry_alone (bytes_of tables.now) e count }
    ensures most { (told_after (λ r. r.count) result).count ≤ max_boxes * max_cells * (e + 1) }
    ensures over { IfOk result (λ r. r.over ≡ entry_overflows (bytes_of tables.now) e) }
{
    let certificate = tables.certificate;
    let entry = Entry::of(tables, e);
    let mut queues = QueueBox {
        lower: [0; limits::MAX_LINKS],
        upper: [0; limits::MAX_LINKS],
    };
    entry::cell_edges(tables, certificate.cell_of(e), &mut queues);
    let standing = Standing {
        links: certificate.layout.links,
        modes: certificate.modes(),
        entries: certificate.entries(),
    };
    entry_standing::check_standing(&standing, e, entry.rank, &queues.upper, count)?;
    let mut ends = Ends {
        low: [0; limits::MAX_LINKS],
        high: [0; limits::MAX_LINKS],
    };
    entry::entry_ends(tables, e, &queues, &mut ends);
    search::search_boxes(&entry, &ends, runs, count)
}

// Entries in order: the first refusal, or accepted with the count and the number of entries that may turn arrivals away.
fn judge_entries(tables: &Tables<'_>) -> Result<Accepted, Refused>
    ensures { JudgedAs (bytes_of tables.now) (judging_from (bytes_of tables.now) 0 0) result }
{
    let mut runs = [0u16; limits::MAX_CELLS];
    let mut accepted = Accepted {
        count: 0,
        overflows: 0,
    };
    for e in 0..tables.certificate.layout.entries {
        let searched = judge_entry(tables, e, accepted.count, &mut runs)?;
        accepted.count = searched.count;
        accepted.overflows += u32::from(searched.over);
    }
    Ok(accepted)
}

// Fills the table of ranks, by way of the index.
fn rank_table(certificate: &Certificate<'_>, ranks: &mut [u32; ranks::RANKS])
    ensures { RanksOf certificate.now.bytes.now ranks.new }
{
    let layout = &certificate.layout;
    let index = index::index_of(certificate.entries(), layout.entries, layout.cells);
    ranks::fill_ranks(&index, layout.modes, ranks);
}

// Makes the tables, once, and judges by them.
fn judge_screened(certificate: &Certificate<'_>) -> Result<Accepted, Refused>
    requires { (screening_of certificate.now.bytes.now).number ≡ 0 }
    ensures { JudgedAs certificate.now.bytes.now (judging_from certificate.now.bytes.now 0 0) result }
{
    let layout = &certificate.layout;
    let counts = cell_tables_of::counts_of(certificate);
    let mut digits = [0u8; digits::DIGITS];
    digits::fill_digits(certificate, &counts, &mut digits);
    let mut ranks = [0u32; ranks::RANKS];
    rank_table(certificate, &mut ranks);
    let tables = Tables {
        certificate,
        counts: &counts,
        caps: &amounts::caps_of(certificate.bytes, layout.links),
        first_turns: &supply::first_turns(certificate),
        edges: &cell_tables_of::edges_of(certificate),
        arrivals: &amounts::arrivals_of(&certificate.arrivals(), layout.boxes),
        digits: &digits,
        ranks: &ranks,
    };
    judge_entries(&tables)
}

// The verdict, and the certificate where it is no refusal.
pub fn judge_with_layout(s: &[u8]) -> Result<Judged<'_>, Refused>
    ensures told { verdict_told (judged_as result) ≡ verdict_of s.now }
    ensures overflows { overflows_in (judged_as result) ≡ overflows_of s.now }
    ensures bytes { IfOk result (λ judged. judged.certificate.bytes.now ≡ s.now) }
{
    let certificate = screening::screen(s)?;
    let accepted = judge_screened(&certificate)?;
    Ok(Judged {
        certificate,
        accepted,
    })
}

// The verdict.
pub fn judge(s: &[u8]) -> Result<Accepted, Refused>
    ensures told { verdict_told result ≡ verdict_of s.now }
    ensures overflows { overflows_in result ≡ overflows_of s.now }
    ensures count { (verdict_told result).count ≤ entries_of s.now * boxes_of s.now * cells_of s.now }
    ensures at_most { overflows_in result ≤ entries_of s.now }
{
    Ok(judge_with_layout(s)?.accepted)
}
