// Reading: the records in the order of the file, each whole before the next.
ghost use Rattle.std.specs.Prelude.{◌≡◌, ◌≤◌, IfOk};
ghost use Rattle.certificate.specs.Layout.{links_of, end_at};
ghost use Rattle.certificate.specs.Records.{header_fault, end_fault};
ghost use Rattle.certificate.specs.Reading.{reading_of};
ghost use Rattle.box_records.specs.GridRecords.{GridsLaid};
ghost use Rattle.octets.specs.Bounds.{entry_bound};
ghost use Rattle.octets.specs.Refusals.{told};
ghost use Rattle.reading.specs.Layouts.{LaidOut};
ghost use Rattle.reading.specs.ReadingResults.{StartsOf, ReadAs, network_fault, tail_fault, back_fault};

use crate::{Certificate, Layout};
use box_records::arrivals::Arrivals;
use box_records::grids::{self, Grids};
use certificate::limits;
use entry_checks::EntryChecks;
use entry_records::entries::Entries;
use mode_records::modes::Modes;
use octets::refusals::{self, Refusal, Refused};
use road_records::links;
use signal_records::signals::Signals;
use turn_records::turns::Turns;

// Where the records of turns, signals, modes and grids begin, behind an HD that passes.
#[derive(Clone, Copy)]
struct Starts<'a> {
    bytes: &'a [u8],
    turns: usize,
    signals: usize,
    modes: usize,
    grids: usize,
    ghost header: { (header_fault bytes.now).number ≡ 0 },
    ghost placed: { StartsOf bytes.now turns signals modes grids },
}

impl<'a> Starts<'a> {
    fn of(s: &'a [u8]) -> Starts<'a>
        requires { (header_fault s.now).number ≡ 0 }
        ensures { result.bytes.now ≡ s.now }
    {
        let turns = links::link_at(s, header_record::links_of(s));
        let first_turn = Turns {
            bytes: s,
            start: turns,
        };
        let signals = first_turn.record_at(header_record::turns_of(s));
        let first_signal = Signals {
            bytes: s,
            start: signals,
        };
        let modes = first_signal.record_at(header_record::signals_of(s));
        let first_mode = Modes::of(s, modes);
        let grids = first_mode.record_at(first_mode.records());
        Starts {
            bytes: s,
            turns,
            signals,
            modes,
            grids,
        }
    }

    // LK, TN, SG and MD.
    fn check_network(&self) -> Result<(), Refused>
        ensures { told result ≡ network_fault self.now.bytes.now }
    {
        let s = self.bytes;
        let links = header_record::links_of(s);
        links::check_links(s, links)?;
        let turns = Turns {
            bytes: s,
            start: self.turns,
        };
        turns.check_all(links, header_record::turns_of(s))?;
        let signals = Signals {
            bytes: s,
            start: self.signals,
        };
        signals.check_all(links, header_record::signals_of(s))?;
        mode_checks::modes::check_modes(&Modes::of(s, self.modes))
    }

    // The layout of a certificate whose records up to the last GR are as they must be.
    fn lay_out(&self, found: &Grids) -> Layout
        requires { GridsLaid self.now.bytes.now (links_of self.now.bytes.now) found.now.places found.now.«end» found.now.cells }
        ensures { LaidOut self.now.bytes.now result }
    {
        let s = self.bytes;
        let boxes = header_record::boxes_of(s);
        let arrivals = Arrivals {
            bytes: s,
            start: found.end,
            links: header_record::links_of(s),
        };
        Layout {
            links: arrivals.links,
            turns: header_record::turns_of(s),
            signals: header_record::signals_of(s),
            modes: header_record::modes_of(s),
            boxes,
            entries: header_record::entries_of(s),
            turns_start: self.turns,
            signals_start: self.signals,
            modes_start: self.modes,
            mode_size: Modes::of(s, self.modes).size,
            grids: found.places,
            arrivals_start: found.end,
            entries_start: arrivals.record_at(boxes),
            cells: found.cells,
        }
    }

    // From GR on.
    fn read_back(&self) -> Result<Layout, Refused>
        ensures told { told result ≡ back_fault self.now.bytes.now }
        ensures laid { IfOk result (λ layout. LaidOut self.now.bytes.now layout) }
    {
        let s = self.bytes;
        let found = grids::check_grids(s, self.grids, header_record::links_of(s))?;
        let layout = self.lay_out(&found);
        check_tail(s, &layout)?;
        Ok(layout)
    }
}

// AR, EN and ZZ.
fn check_tail(s: &[u8], layout: &Layout) -> Result<(), Refused>
    requires { LaidOut s.now layout.now }
    ensures { told result ≡ tail_fault s.now }
{
    let arrivals = Arrivals {
        bytes: s,
        start: layout.arrivals_start,
        links: layout.links,
    };
    arrivals.check_all(layout.boxes)?;
    let entries = Entries {
        bytes: s,
        start: layout.entries_start,
    };
    let modes = Modes::of(s, layout.modes_start);
    let checks = EntryChecks {
        entries,
        modes,
        signal_count: layout.signals,
        mode_count: layout.modes,
        cell_count: layout.cells,
        has_memory: header_record::has_memory(s),
        in_turn: header_record::takes_turns(s),
        greatest: modes.greatest_goal(),
    };
    checks.check_entries(layout.entries)?;
    check_end(s, entries.record_at(layout.entries))
}

// ZZ: nothing follows.
fn check_end(s: &[u8], at: usize) -> Result<(), Refused>
    requires { (at ≤ entry_bound) × (at ≡ end_at s.now) }
    ensures { told result ≡ end_fault s.now }
{
    refusals::check_opened(s, at, octets::marked_as(s, at, 90, 90), limits::END_SIZE)?;
    let after = at + limits::END_SIZE;
    refusals::require(s.len() <= after, Refusal::Mark, after)
}

// Reads any bytes: refusals 1 to 9, 22, 23 and 24, or the certificate that they are.
pub fn read(s: &[u8]) -> Result<Certificate<'_>, Refused>
    ensures { ReadAs s.now (reading_of s.now) result }
{
    header_record::check_header(s)?;
    let starts = Starts::of(s);
    starts.check_network()?;
    let layout = starts.read_back()?;
    Ok(Certificate { bytes: s, layout })
}
