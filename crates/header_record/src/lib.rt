// HD, H2 or H3: the kind, how many links, turns, signals, modes, arrival boxes and entries there are, and its tests (refusal 3).
#![tactic(auto)]

ghost use Rattle.std.specs.Prelude.{◌≡◌, ◌<◌, ◌≤◌, length};
ghost use Rattle.certificate.specs.Layout.{kind_byte_of, remembers, takes_turns, links_of, turns_of, signals_of, modes_of, boxes_of, entries_of};
ghost use Rattle.certificate.specs.Records.{header_ok, header_marked, header_fault};
ghost use Rattle.octets.specs.Refusals.{told};
ghost use Rattle.header_record.specs.Kinds.{kind_of_byte, kind_remembers, kind_takes_turns};

use certificate::limits;
use octets::refusals;
use octets::refusals::{Refusal, Refused};

// The kinds of certificates, each with the second byte of its mark: HD, H2 or H3.
#[derive(Clone, Copy, PartialEq, Eq, Debug)]
pub enum Kind {
    Plain = 68,
    // links have start flows, and modes remember the signal shown before
    StartFlow = 50,
    // modes have goals in turn besides
    Goals = 51,
}

impl Kind {
    pub fn of(s: &[u8]) -> Kind
        ensures { result ≡ kind_of_byte (kind_byte_of s.now) }
    {
        Kind::of_byte(octets::byte_at(s, 1))
    }

    // The same where there are two bytes at least: no test.
    pub fn of_within(s: &[u8]) -> Kind
        requires { 2 ≤ length s.now }
        ensures { result ≡ kind_of_byte (kind_byte_of s.now) }
    {
        Kind::of_byte(octets::byte_within(s, 1))
    }

    // A mark of another byte is refused, and counts as plain until then.
    fn of_byte(byte: usize) -> Kind
        ensures { result ≡ kind_of_byte byte }
    {
        match byte {
            51 => Kind::Goals,
            50 => Kind::StartFlow,
            _ => Kind::Plain,
        }
    }

    // Whether links have start flows, and modes remember the signal shown before.
    pub fn has_memory(self) -> bool
        ensures { result ≡ kind_remembers self }
    {
        self != Kind::Plain
    }

    // Whether modes have goals in turn.
    pub fn takes_turns(self) -> bool
        ensures { result ≡ kind_takes_turns self }
    {
        self == Kind::Goals
    }
}

pub fn has_memory(s: &[u8]) -> bool
    ensures { result ≡ remembers s.now }
{
    Kind::of(s).has_memory()
}

// The same where there are two bytes at least: no test.
pub fn has_memory_within(s: &[u8]) -> bool
    requires { 2 ≤ length s.now }
    ensures { result ≡ remembers s.now }
{
    Kind::of_within(s).has_memory()
}

pub fn takes_turns(s: &[u8]) -> bool
    ensures { result ≡ takes_turns s.now }
{
    Kind::of(s).takes_turns()
}

pub fn links_of(s: &[u8]) -> usize
    ensures { (result ≡ links_of s.now) × (result < 256) }
{
    octets::byte_at(s, 2)
}

pub fn turns_of(s: &[u8]) -> usize
    ensures { (result ≡ turns_of s.now) × (result < 256) }
{
    octets::byte_at(s, 3)
}

pub fn signals_of(s: &[u8]) -> usize
    ensures { (result ≡ signals_of s.now) × (result < 256) }
{
    octets::byte_at(s, 4)
}

pub fn modes_of(s: &[u8]) -> usize
    ensures { (result ≡ modes_of s.now) × (result < 256) }
{
    octets::byte_at(s, 5)
}

pub fn boxes_of(s: &[u8]) -> usize
    ensures { (result ≡ boxes_of s.now) × (result < 256) }
{
    octets::byte_at(s, 6)
}

pub fn entries_of(s: &[u8]) -> usize
    ensures { (result ≡ entries_of s.now) × (result < 65536) }
{
    octets::u16_at(s, 7)
}

fn counts_ok(s: &[u8]) -> bool
    ensures { result ≡ header_ok s.now }
{
    (1..=limits::MAX_LINKS).contains(&links_of(s))
        & (turns_of(s) <= limits::MAX_TURNS)
        & (1..=limits::MAX_SIGNALS).contains(&signals_of(s))
        & (1..=limits::MAX_MODES).contains(&modes_of(s))
        & (1..=limits::MAX_BOXES).contains(&boxes_of(s))
        & (1..=limits::MAX_ENTRIES).contains(&entries_of(s))
}

// The mark is HD, H2 or H3.
fn header_marked(s: &[u8]) -> bool
    ensures { result ≡ header_marked s.now }
{
    octets::marked_as(s, 0, 72, Kind::Plain as usize)
        | octets::marked_as(s, 0, 72, Kind::StartFlow as usize)
        | octets::marked_as(s, 0, 72, Kind::Goals as usize)
}

pub fn check_header(s: &[u8]) -> Result<(), Refused>
    ensures { told result ≡ header_fault s.now }
{
    refusals::check_opened(s, 0, header_marked(s), limits::HEADER_SIZE)?;
    refusals::require(counts_ok(s), Refusal::Header, 0)
}
