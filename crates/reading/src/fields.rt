// The fields of a certificate that reading passes. Every record is there whole.
ghost use Rattle.std.specs.Prelude.{true, ◌≡◌, ◌<◌, ◌≤◌};
ghost use Rattle.certificate.specs.Layout.{max_cap, max_share, max_pull, max_intervals, links_of, turns_of, cap_of, flow_of, safe_of, start_flow_of, from_of, to_of, share_of, pull_of, green_byte_of, remembers, takes_turns, shown_before, goal_for, intervals_of, cut_of, cell_of, mode_of, signal_of, next_mode_of, rank_of};
ghost use Rattle.certificate.specs.Entries.{cabinet_entry_of, bench_entry_of};

use crate::Certificate;
use box_records::arrivals::Arrivals;
use box_records::grids;
use certificate::{BenchEntry, CabinetEntry};
use entry_records::entries::Entries;
use mode_records::modes::Modes;
use road_records::links;
use signal_records::signals::Signals;
use turn_records::turns::Turns;

impl<'a> Certificate<'a> {
    pub fn turns(&self) -> Turns<'a>
        ensures { result.bytes.now ≡ self.now.bytes.now }
    {
        Turns {
            bytes: self.bytes,
            start: self.layout.turns_start,
        }
    }

    pub fn signals(&self) -> Signals<'a>
        ensures { result.bytes.now ≡ self.now.bytes.now }
    {
        Signals {
            bytes: self.bytes,
            start: self.layout.signals_start,
        }
    }

    pub fn modes(&self) -> Modes<'a>
        ensures { result.bytes.now ≡ self.now.bytes.now }
    {
        Modes {
            bytes: self.bytes,
            start: self.layout.modes_start,
            size: self.layout.mode_size,
        }
    }

    pub fn arrivals(&self) -> Arrivals<'a>
        ensures { result.bytes.now ≡ self.now.bytes.now }
    {
        Arrivals {
            bytes: self.bytes,
            start: self.layout.arrivals_start,
            links: self.layout.links,
        }
    }

    pub fn entries(&self) -> Entries<'a>
        ensures { result.bytes.now ≡ self.now.bytes.now }
    {
        Entries {
            bytes: self.bytes,
            start: self.layout.entries_start,
        }
    }

    pub fn cap_of(&self, l: usize) -> usize
        requires { l < links_of self.now.bytes.now }
        ensures { (result ≡ cap_of self.now.bytes.now l) × (result ≤ max_cap) }
    {
        links::cap_within(self.bytes, l)
    }

    pub fn flow_of(&self, l: usize) -> usize
        requires { l < links_of self.now.bytes.now }
        ensures { (result ≡ flow_of self.now.bytes.now l) × (result ≤ max_cap) }
    {
        links::flow_within(self.bytes, l)
    }

    pub fn safe_of(&self, l: usize) -> usize
        requires { l < links_of self.now.bytes.now }
        ensures { (result ≡ safe_of self.now.bytes.now l) × (result ≤ max_cap) }
    {
        links::safe_of(self.bytes, l)
    }

    pub fn start_flow_of(&self, l: usize) -> usize
        requires { l < links_of self.now.bytes.now }
        ensures { (result ≡ start_flow_of self.now.bytes.now l) × (result ≤ max_cap) }
    {
        links::start_flow_of(self.bytes, l)
    }

    pub fn from_of(&self, t: usize) -> usize
        requires { t < turns_of self.now.bytes.now }
        ensures { (result ≡ from_of self.now.bytes.now t) × (result < links_of self.now.bytes.now) }
    {
        self.turns().from_within(t)
    }

    pub fn to_of(&self, t: usize) -> usize
        requires { t < turns_of self.now.bytes.now }
        ensures { (result ≡ to_of self.now.bytes.now t) × (result < links_of self.now.bytes.now) }
    {
        self.turns().to_within(t)
    }

    pub fn share_of(&self, t: usize) -> usize
        requires { t < turns_of self.now.bytes.now }
        ensures { (result ≡ share_of self.now.bytes.now t) × (result ≤ max_share) }
    {
        self.turns().share_within(t)
    }

    pub fn pull_of(&self, t: usize) -> usize
        requires { t < turns_of self.now.bytes.now }
        ensures { (result ≡ pull_of self.now.bytes.now t) × (result ≤ max_pull) }
    {
        self.turns().pull_within(t)
    }

    pub fn green_byte_of(&self, g: usize) -> usize
        requires { g < 256 }
        ensures { (result ≡ green_byte_of self.now.bytes.now g) × (result < 256) }
    {
        self.signals().green_byte_of(g)
    }

    // The signal that mode m remembers, where modes do.
    pub fn shown_before(&self, m: usize) -> usize
        requires { (m < 256) × (remembers self.now.bytes.now ≡ true) }
        ensures { (result ≡ shown_before self.now.bytes.now m) × (result < 256) }
    {
        self.modes().shown_before(m)
    }

    // How many intervals link l's queues are cut into.
    pub fn intervals_of(&self, l: usize) -> usize
        requires { l < links_of self.now.bytes.now }
        ensures { (result ≡ intervals_of self.now.bytes.now l) × (result ≤ max_intervals) }
    {
        grids::count_at(self.bytes, self.layout.grids[l])
    }

    pub fn cut_of(&self, l: usize, i: usize) -> usize
        requires { (l < links_of self.now.bytes.now) × (i < 256) }
        ensures { (result ≡ cut_of self.now.bytes.now l i) × (result < 65536) }
    {
        grids::cut_at(self.bytes, self.layout.grids[l], i)
    }

    pub fn cell_of(&self, e: usize) -> usize
        requires { e < 65536 }
        ensures { (result ≡ cell_of self.now.bytes.now e) × (result < 65536) }
    {
        self.entries().cell_of(e)
    }

    pub fn mode_of(&self, e: usize) -> usize
        requires { e < 65536 }
        ensures { (result ≡ mode_of self.now.bytes.now e) × (result < 256) }
    {
        self.entries().mode_of(e)
    }

    pub fn signal_of(&self, e: usize) -> usize
        requires { e < 65536 }
        ensures { (result ≡ signal_of self.now.bytes.now e) × (result < 256) }
    {
        self.entries().signal_of(e)
    }

    pub fn next_mode_of(&self, e: usize) -> usize
        requires { e < 65536 }
        ensures { (result ≡ next_mode_of self.now.bytes.now e) × (result < 256) }
    {
        self.entries().next_mode_of(e)
    }

    pub fn rank_of(&self, e: usize) -> usize
        requires { e < 65536 }
        ensures { (result ≡ rank_of self.now.bytes.now e) × (result < 65536) }
    {
        self.entries().rank_of(e)
    }

    // The cabinet's reading of entry e: all but its rank.
    pub fn cabinet_entry(&self, e: usize) -> CabinetEntry
        requires { e < 65536 }
        ensures { (result ≡ cabinet_entry_of self.now.bytes.now e) × (result.cell < 65536) × (result.mode < 256) × (result.signal < 256) × (result.next_mode < 256) }
    {
        self.entries().cabinet_entry(e)
    }

    // The bench's: the rank as well.
    pub fn bench_entry(&self, e: usize) -> BenchEntry
        requires { e < 65536 }
        ensures { (result ≡ bench_entry_of self.now.bytes.now e) × (result.shown.cell < 65536) × (result.shown.mode < 256) × (result.shown.signal < 256) × (result.shown.next_mode < 256) × (result.rank < 65536) }
    {
        self.entries().bench_entry(e)
    }

    pub fn has_memory(&self) -> bool
        ensures { result ≡ remembers self.now.bytes.now }
    {
        header_record::has_memory(self.bytes)
    }
}
