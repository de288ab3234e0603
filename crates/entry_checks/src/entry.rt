// The tests of one entry whose record is there whole, and the key of its pair.
ghost use Rattle.std.specs.Prelude.{◌≡◌, ◌+◌, ◌<◌, ◌≤◌, eqb, length};
ghost use Rattle.certificate.specs.Octets.{byte_at, u16_at};
ghost use Rattle.certificate.specs.Loops.{pick};
ghost use Rattle.certificate.specs.Layout.{entry_at, entry_size, cell_of, mode_of, signal_of, next_mode_of, rank_of};
ghost use Rattle.certificate.specs.Records.{names_exist, passes_on, turns_on};
ghost use Rattle.entry_checks.specs.Keys.{IsKey};
ghost use Rattle.octets.specs.Bounds.{entry_bound};

use crate::EntryChecks;

// Entry e, which is there whole: its record stands at `at`.
#[derive(Clone, Copy)]
pub struct Entry<'a> {
    pub checks: &'a EntryChecks<'a>,
    pub e: usize,
    pub at: usize,
    ghost placed: { at ≡ entry_at checks.now.entries.bytes.now e },
    ghost low: { at ≤ entry_bound },
    ghost whole: { at + entry_size ≤ length checks.now.entries.bytes.now },
}

impl Entry<'_> {
    // The byte and the two-byte number at offset k of the record: no test.
    fn byte_within(&self, k: usize) -> usize
        requires { k < entry_size }
        ensures { (result ≡ byte_at self.now.checks.now.entries.bytes.now (self.now.at + k)) × (result < 256) }
    {
        let checks = self.checks;
        octets::byte_within(checks.entries.bytes, self.at + k)
    }

    fn u16_within(&self, k: usize) -> usize
        requires { k + 1 < entry_size }
        ensures { (result ≡ u16_at self.now.checks.now.entries.bytes.now (self.now.at + k)) × (result < 65536) }
    {
        let checks = self.checks;
        octets::u16_within(checks.entries.bytes, self.at + k)
    }

    fn cell(&self) -> usize
        ensures { (result ≡ cell_of self.now.checks.now.entries.bytes.now self.now.e) × (result < 65536) }
    {
        self.u16_within(2)
    }

    fn mode(&self) -> usize
        ensures { (result ≡ mode_of self.now.checks.now.entries.bytes.now self.now.e) × (result < 256) }
    {
        self.byte_within(4)
    }

    fn signal(&self) -> usize
        ensures { (result ≡ signal_of self.now.checks.now.entries.bytes.now self.now.e) × (result < 256) }
    {
        self.byte_within(5)
    }

    fn next_mode(&self) -> usize
        ensures { (result ≡ next_mode_of self.now.checks.now.entries.bytes.now self.now.e) × (result < 256) }
    {
        self.byte_within(6)
    }

    fn rank(&self) -> usize
        ensures { (result ≡ rank_of self.now.checks.now.entries.bytes.now self.now.e) × (result < 65536) }
    {
        self.u16_within(7)
    }

    // Its pair of cell and mode as one number: cell × 256 + mode.
    pub fn key(&self) -> usize
        ensures { IsKey self.now.checks.now.entries.bytes.now self.now.e result }
    {
        self.cell() * 256 + self.mode()
    }

    // The cell, mode, signal and next mode that it names exist. It has that key.
    pub fn names_exist(&self, key: usize) -> bool
        requires { IsKey self.now.checks.now.entries.bytes.now self.now.e key }
        ensures { result ≡ names_exist self.now.checks.now.entries.bytes.now self.now.e }
    {
        let checks = self.checks;
        (key < checks.cell_count * 256)
            & (key % 256 < checks.mode_count)
            & (self.signal() < checks.signal_count)
            & (self.next_mode() < checks.mode_count)
    }

    // Where modes remember, its next mode remembers its signal.
    pub fn passes_on(&self) -> bool
        ensures { result ≡ passes_on self.now.checks.now.entries.bytes.now self.now.e }
    {
        let checks = self.checks;
        if !checks.has_memory {
            return true;
        }
        checks.modes.shown_before(self.next_mode()) == self.signal()
    }

    // Where modes have goals in turn, its next mode has the goal number due.
    pub fn turns_on(&self) -> bool
        ensures { result ≡ turns_on self.now.checks.now.entries.bytes.now self.now.e }
    {
        let checks = self.checks;
        if !checks.in_turn {
            return true;
        }
        let own = checks.modes.goal_number(self.mode());
        let next = checks.modes.goal_number(self.next_mode());
        next == number_due(self.rank(), own, checks.greatest)
    }
}

// The goal number that the next mode of an entry must have, by its rank and the number of its own mode: the next one at rank 0, 0 after
// the greatest.
fn number_due(rank: usize, own: usize, greatest: usize) -> usize
    requires { own < 256 }
    ensures { result ≡ pick (eqb rank 0) (pick (eqb own greatest) 0 (own + 1)) own }
{
    if rank != 0 {
        return own;
    }
    if own == greatest {
        return 0;
    }
    own + 1
}
