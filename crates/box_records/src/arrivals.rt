// AR: one record an arrival box, for each link the least and the most that arrives in a step.
ghost use Rattle.std.specs.Prelude.{◌≡◌, ◌+◌, ◌*◌, ◌<◌, ◌≤◌, length};
ghost use Rattle.certificate.specs.Checks.{first_bad};
ghost use Rattle.certificate.specs.Layout.{max_links, links_of, arrivals_start, arrival_size, arrival_at, low_of, high_of};
ghost use Rattle.certificate.specs.Records.{range_ok, range_fault, arrival_fault};
ghost use Rattle.octets.specs.Bounds.{start_bound};
ghost use Rattle.octets.specs.Refusals.{told};

use certificate::limits;
use octets::refusals;
use octets::refusals::{Refusal, Refused};

// Where the record of box b stands, behind where those of boxes begin.
pub fn arrival_at(start: usize, links: usize, b: usize) -> usize
    requires { (b < 256) × (links ≤ max_links) × (start ≤ start_bound) }
    ensures { (result ≡ start + arrival_size links * b) × (result ≤ 120000) }
{
    start + (2 + 4 * links) * b
}

// The records of arrival boxes of a certificate: where they begin, and of how many links each is.
#[derive(Clone, Copy)]
pub struct Arrivals<'a> {
    pub bytes: &'a [u8],
    pub start: usize,
    pub links: usize,
    ghost placed: { start ≡ arrivals_start bytes.now },
    ghost low: { start ≤ start_bound },
    ghost counted: { links ≡ links_of bytes.now },
    ghost few: { links ≤ max_links },
}

impl<'a> Arrivals<'a> {
    // Where the record of box b stands.
    pub fn record_at(&self, b: usize) -> usize
        requires { b < 256 }
        ensures { (result ≡ arrival_at self.now.bytes.now b) × (result ≤ 120000) }
    {
        arrival_at(self.start, self.links, b)
    }

    fn record_size(&self) -> usize
        ensures { (result ≡ arrival_size (links_of self.now.bytes.now)) × (result ≤ 34) }
    {
        2 + 4 * self.links
    }

    // The range of link l in a box that is there whole: its ends, and its test.
    fn low_within(&self, b: usize, l: usize) -> usize
        requires { (l < self.now.links) × (b < 256) × (arrival_at self.now.bytes.now b + arrival_size self.now.links ≤ length self.now.bytes.now) }
        ensures { (result ≡ low_of self.now.bytes.now b l) × (result < 65536) }
    {
        octets::u16_within(self.bytes, self.record_at(b) + (2 + 4 * l))
    }

    fn high_within(&self, b: usize, l: usize) -> usize
        requires { (l < self.now.links) × (b < 256) × (arrival_at self.now.bytes.now b + arrival_size self.now.links ≤ length self.now.bytes.now) }
        ensures { (result ≡ high_of self.now.bytes.now b l) × (result < 65536) }
    {
        octets::u16_within(self.bytes, self.record_at(b) + (4 + 4 * l))
    }

    fn range_ok(&self, b: usize, l: usize) -> bool
        requires { (l < self.now.links) × (b < 256) × (arrival_at self.now.bytes.now b + arrival_size self.now.links ≤ length self.now.bytes.now) }
        ensures { result ≡ range_ok self.now.bytes.now b l }
    {
        let high = self.high_within(b, l);
        (self.low_within(b, l) <= high) & (high <= limits::MAX_ARRIVAL)
    }

    fn check_range(&self, b: usize, l: usize) -> Result<(), Refused>
        requires { (l < self.now.links) × (b < 256) × (arrival_at self.now.bytes.now b + arrival_size self.now.links ≤ length self.now.bytes.now) }
        ensures { told result ≡ range_fault self.now.bytes.now b l }
    {
        refusals::require(self.range_ok(b, l), Refusal::Arrivals, self.record_at(b))
    }

    fn check_ranges(&self, b: usize) -> Result<(), Refused>
        requires { (b < 256) × (arrival_at self.now.bytes.now b + arrival_size self.now.links ≤ length self.now.bytes.now) }
        ensures { told result ≡ first_bad self.now.links (range_fault self.now.bytes.now b) }
    {
        for l in 0..self.links {
            self.check_range(b, l)?;
        }
        Ok(())
    }

    fn check_box(&self, b: usize) -> Result<(), Refused>
        requires { b < 256 }
        ensures { told result ≡ arrival_fault self.now.bytes.now b }
    {
        let o = self.record_at(b);
        let mark = octets::marked_as(self.bytes, o, 65, 82);
        refusals::check_opened(self.bytes, o, mark, self.record_size())?;
        self.check_ranges(b)
    }

    // The records of all boxes.
    pub fn check_all(&self, boxes: usize) -> Result<(), Refused>
        requires { boxes < 256 }
        ensures { told result ≡ first_bad boxes (arrival_fault self.now.bytes.now) }
    {
        for b in 0..boxes {
            self.check_box(b)?;
        }
        Ok(())
    }
}
