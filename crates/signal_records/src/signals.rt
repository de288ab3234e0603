// SG: one record a signal, the byte of its green links.
ghost use Rattle.std.specs.Prelude.{◌≡◌, ◌+◌, ◌*◌, ◌<◌, ◌≤◌, ◌^◌};
ghost use Rattle.certificate.specs.Octets.{bit_of};
ghost use Rattle.certificate.specs.Checks.{first_bad};
ghost use Rattle.certificate.specs.Layout.{max_links, links_of, signal_size, signals_start, signal_at, green_byte_of};
ghost use Rattle.certificate.specs.Records.{signal_ok, signal_fault};
ghost use Rattle.octets.specs.Bounds.{start_bound};
ghost use Rattle.octets.specs.Refusals.{told};

use certificate::limits;
use octets::refusals::{self, Refusal, Refused};

// Where the record of signal g stands, behind where those of signals begin.
pub fn signal_at(start: usize, g: usize) -> usize
    requires { (g < 256) × (start ≤ start_bound) }
    ensures { (result ≡ start + signal_size * g) × (result ≤ 101000) }
{
    start + limits::SIGNAL_SIZE * g
}

// The records of signals of a certificate: where they begin.
#[derive(Clone, Copy)]
pub struct Signals<'a> {
    pub bytes: &'a [u8],
    pub start: usize,
    ghost placed: { start ≡ signals_start bytes.now },
    ghost low: { start ≤ start_bound },
}

impl<'a> Signals<'a> {
    // Where the record of signal g stands.
    pub fn record_at(&self, g: usize) -> usize
        requires { g < 256 }
        ensures { (result ≡ signal_at self.now.bytes.now g) × (result ≤ 101000) }
    {
        signal_at(self.start, g)
    }

    // The byte of its green links.
    pub fn green_byte_of(&self, g: usize) -> usize
        requires { g < 256 }
        ensures { (result ≡ green_byte_of self.now.bytes.now g) × (result < 256) }
    {
        octets::byte_at(self.bytes, self.record_at(g) + 2)
    }

    fn check(&self, links: usize, g: usize) -> Result<(), Refused>
        requires { (g < 256) × (links ≤ max_links) × (links ≡ links_of self.now.bytes.now) }
        ensures { told result ≡ signal_fault self.now.bytes.now g }
    {
        let o = self.record_at(g);
        let marked = octets::marked_as(self.bytes, o, 83, 71);
        refusals::check_opened(self.bytes, o, marked, limits::SIGNAL_SIZE)?;
        refusals::require(self.green_byte_of(g) < power(links), Refusal::Signal, o)
    }

    // The tests of so many signals.
    pub fn check_all(&self, links: usize, count: usize) -> Result<(), Refused>
        requires { (count < 256) × (links ≤ max_links) × (links ≡ links_of self.now.bytes.now) }
        ensures { told result ≡ first_bad count (signal_fault self.now.bytes.now) }
    {
        for g in 0..count {
            self.check(links, g)?;
        }
        Ok(())
    }
}

// Whether link l is green, by a signal's byte.
pub fn is_green(byte: usize, l: usize) -> bool
    requires { l < max_links }
    ensures { result ≡ bit_of byte l }
{
    (byte >> l) % 2 == 1
}

// 2 to the n.
fn power(n: usize) -> usize
    requires { n ≤ 8 }
    ensures { result ≡ 2 ^ n }
{
    1 << n
}
