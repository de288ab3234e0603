// The tests of the records of entries (refusals 9, 22, 23 and 24).
#![tactic(auto)]

ghost use Rattle.std.specs.Prelude.{◌≡◌, ℕ, ◌+◌, ◌<◌, ◌≤◌};
ghost use Rattle.std.specs.Option.{IfSome};
ghost use Rattle.std.specs.Result.{IfOk};
ghost use Rattle.certificate.specs.Checks.{first_bad};
ghost use Rattle.certificate.specs.Layout.{max_cells, signals_of, modes_of, cells_of, remembers, takes_turns, greatest_goal};
ghost use Rattle.certificate.specs.Records.{entry_fault};
ghost use Rattle.entry_checks.specs.Keys.{IsKey, KeyBefore, Ordered};
ghost use Rattle.octets.specs.Refusals.{told};

mod entry;

use certificate::limits;
use entry::Entry;
use entry_records::entries::Entries;
use mode_records::modes::Modes;
use octets::refusals::{self, Refusal, Refused};

// The entries of a certificate and what they are tested against: its modes, how many signals, modes and cells there are, whether modes
// remember the signal shown before, whether they have goals in turn, and the greatest goal number.
#[derive(Clone, Copy)]
pub struct EntryChecks<'a> {
    pub entries: Entries<'a>,
    pub modes: Modes<'a>,
    pub signal_count: usize,
    pub mode_count: usize,
    pub cell_count: usize,
    pub has_memory: bool,
    pub in_turn: bool,
    pub greatest: usize,
    ghost together: { modes.bytes.now ≡ entries.bytes.now },
    ghost signals_are: { signal_count ≡ signals_of entries.bytes.now },
    ghost modes_are: { mode_count ≡ modes_of entries.bytes.now },
    ghost cells_are: { cell_count ≡ cells_of entries.bytes.now },
    ghost cells_most: { cell_count ≤ max_cells },
    ghost memory_is: { has_memory ≡ remembers entries.bytes.now },
    ghost turns_are: { in_turn ≡ takes_turns entries.bytes.now },
    ghost greatest_is: { greatest ≡ greatest_goal entries.bytes.now },
}

impl EntryChecks<'_> {
    // A quick yes for entry e: its record is there whole, its mark is right, and its tests up to 22 pass. One above its key then.
    // `least` is one above the key of the entry before it, and 0 for the first entry.
    fn quick(&self, e: usize, least: usize) -> Option<usize>
        requires { (e < 65536) × KeyBefore self.now.entries.bytes.now e least }
        ensures { IfSome result (λ next. Ordered self.now.entries.bytes.now e × KeyBefore self.now.entries.bytes.now (e + 1) next) }
    {
        let bytes = self.entries.bytes;
        let at = self.entries.record_at(e);
        if bytes.len() < at + limits::ENTRY_SIZE {
            return None;
        }
        let entry = Entry {
            checks: &*self,
            e,
            at,
        };
        let key = entry.key();
        // joined from the right for speed: from the left, the order would be tested before the mark
        if octets::marked_within(bytes, at, 69, 78) & (entry.names_exist(key) & (least <= key)) {
            return Some(key + 1);
        }
        None
    }

    // Entry e by its tests one after another: its key, or the first refusal.
    fn check_entry(&self, e: usize, least: usize) -> Result<usize, Refused>
        requires { (e < 65536) × KeyBefore self.now.entries.bytes.now e least }
        ensures told { told result ≡ entry_fault self.now.entries.bytes.now e }
        ensures key { IfOk result (λ key. IsKey self.now.entries.bytes.now e key) }
    {
        let at = self.entries.record_at(e);
        let mark = octets::marked_as(self.entries.bytes, at, 69, 78);
        refusals::check_opened(self.entries.bytes, at, mark, limits::ENTRY_SIZE)?;
        let entry = Entry {
            checks: &*self,
            e,
            at,
        };
        let key = entry.key();
        refusals::require(entry.names_exist(key), Refusal::Names, at)?;
        refusals::require(least <= key, Refusal::Order, at)?;
        refusals::require(entry.passes_on(), Refusal::Memory, at)?;
        refusals::require(entry.turns_on(), Refusal::Goal, at)?;
        Ok(key)
    }

    // All entries, each by its tests one after another.
    fn check_each(&self, count: usize) -> Result<(), Refused>
        requires { count < 65536 }
        ensures { told result ≡ first_bad count (entry_fault self.now.entries.bytes.now) }
    {
        let mut least = 0;
        for e in 0..count {
            least = self.check_entry(e, least)? + 1;
        }
        Ok(())
    }

    // 23 and 24 of all entries, which pass the tests before them. They have a loop of their own, so that HD has no part in it.
    fn check_memories(&self, count: usize) -> Result<(), Refused>
        requires { (count < 65536) × ((e : ℕ) → e < count → Ordered self.now.entries.bytes.now e) }
        ensures { told result ≡ first_bad count (entry_fault self.now.entries.bytes.now) }
    {
        for e in 0..count {
            let at = self.entries.record_at(e);
            let entry = Entry {
                checks: &*self,
                e,
                at,
            };
            refusals::require(entry.passes_on(), Refusal::Memory, entry.at)?;
            refusals::require(entry.turns_on(), Refusal::Goal, entry.at)?;
        }
        Ok(())
    }

    // All entries, of which there are so many: quickly as long as the quick test says yes, and then 23 and 24; where it says no, each
    // again with care.
    pub fn check_entries(&self, count: usize) -> Result<(), Refused>
        requires { count < 65536 }
        ensures { told result ≡ first_bad count (entry_fault self.now.entries.bytes.now) }
    {
        let mut least = 0;
        for e in 0..count {
            let Some(next) = self.quick(e, least) else {
                return self.check_each(count);
            };
            least = next;
        }
        if self.has_memory {
            return self.check_memories(count);
        }
        Ok(())
    }
}
