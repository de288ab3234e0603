// EN: one record an entry of the policy, and its fields.
ghost use Rattle.std.specs.Prelude.{◌≡◌, ◌+◌, ◌*◌, ◌<◌, ◌≤◌};
ghost use Rattle.certificate.specs.Octets.{byte_at, u16_at};
ghost use Rattle.certificate.specs.Layout.{entries_start, entry_at, entry_size, cell_of, mode_of, signal_of, next_mode_of, rank_of};
ghost use Rattle.certificate.specs.Entries.{cabinet_entry_of, bench_entry_of};
ghost use Rattle.octets.specs.Bounds.{start_bound};

use certificate::{BenchEntry, CabinetEntry, limits};

// Where the record of entry e stands, behind where those of entries begin.
pub fn entry_at(start: usize, e: usize) -> usize
    requires { (e < 65536) × (start ≤ start_bound) }
    ensures { (result ≡ start + entry_size * e) × (result ≤ 700000) }
{
    start + limits::ENTRY_SIZE * e
}

// The records of entries of a certificate: where they begin.
#[derive(Clone, Copy)]
pub struct Entries<'a> {
    pub bytes: &'a [u8],
    pub start: usize,
    ghost placed: { start ≡ entries_start bytes.now },
    ghost low: { start ≤ start_bound },
}

impl Entries<'_> {
    // Where the record of entry e stands.
    pub fn record_at(&self, e: usize) -> usize
        requires { e < 65536 }
        ensures { (result ≡ entry_at self.now.bytes.now e) × (result ≤ 700000) }
    {
        entry_at(self.start, e)
    }

    // The byte and the two-byte number at offset k of the record of entry e.
    fn entry_byte(&self, e: usize, k: usize) -> usize
        requires { (e < 65536) × (k < 256) }
        ensures { (result ≡ byte_at self.now.bytes.now (entry_at self.now.bytes.now e + k)) × (result < 256) }
    {
        octets::byte_at(self.bytes, self.record_at(e) + k)
    }

    fn entry_u16(&self, e: usize, k: usize) -> usize
        requires { (e < 65536) × (k < 256) }
        ensures { (result ≡ u16_at self.now.bytes.now (entry_at self.now.bytes.now e + k)) × (result < 65536) }
    {
        octets::u16_at(self.bytes, self.record_at(e) + k)
    }

    pub fn cell_of(&self, e: usize) -> usize
        requires { e < 65536 }
        ensures { (result ≡ cell_of self.now.bytes.now e) × (result < 65536) }
    {
        self.entry_u16(e, 2)
    }

    pub fn mode_of(&self, e: usize) -> usize
        requires { e < 65536 }
        ensures { (result ≡ mode_of self.now.bytes.now e) × (result < 256) }
    {
        self.entry_byte(e, 4)
    }

    pub fn signal_of(&self, e: usize) -> usize
        requires { e < 65536 }
        ensures { (result ≡ signal_of self.now.bytes.now e) × (result < 256) }
    {
        self.entry_byte(e, 5)
    }

    pub fn next_mode_of(&self, e: usize) -> usize
        requires { e < 65536 }
        ensures { (result ≡ next_mode_of self.now.bytes.now e) × (result < 256) }
    {
        self.entry_byte(e, 6)
    }

    pub fn rank_of(&self, e: usize) -> usize
        requires { e < 65536 }
        ensures { (result ≡ rank_of self.now.bytes.now e) × (result < 65536) }
    {
        self.entry_u16(e, 7)
    }

    // The cabinet's reading of entry e: all but its rank.
    pub fn cabinet_entry(&self, e: usize) -> CabinetEntry
        requires { e < 65536 }
        ensures { (result ≡ cabinet_entry_of self.now.bytes.now e) × (result.cell < 65536) × (result.mode < 256) × (result.signal < 256) × (result.next_mode < 256) }
    {
        CabinetEntry {
            cell: self.cell_of(e),
            mode: self.mode_of(e),
            signal: self.signal_of(e),
            next_mode: self.next_mode_of(e),
        }
    }

    // The bench's: the rank as well.
    pub fn bench_entry(&self, e: usize) -> BenchEntry
        requires { e < 65536 }
        ensures { (result ≡ bench_entry_of self.now.bytes.now e) × (result.shown.cell < 65536) × (result.shown.mode < 256) × (result.shown.signal < 256) × (result.shown.next_mode < 256) × (result.rank < 65536) }
    {
        BenchEntry {
            shown: self.cabinet_entry(e),
            rank: self.rank_of(e),
        }
    }
}
