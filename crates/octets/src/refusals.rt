// Refusals: why a call refuses, and tests that refuse. A test answers `Ok` or the refusal, so that `?` goes on to the next test.
ghost use Rattle.std.specs.Prelude.{◌≡◌, ◌+◌, ◌≤◌};
ghost use Rattle.certificate.specs.Checks.{report_with, refusal, fine, need, opened};
ghost use Rattle.octets.specs.Refusals.{number_of, report_of, told};
ghost use Rattle.octets.specs.Bounds.{offset_bound};

use certificate::Report;

// Why a call refuses; each has its number in reports.
#[derive(Clone, Copy, PartialEq, Eq, Debug)]
pub enum Refusal {
    // a record is not there whole
    Short = 1,
    // its mark is another than the one due, or a byte follows the end
    Mark = 2,
    // a field of the record breaks its line
    Header = 3,
    Link = 4,
    Turn = 5,
    // of a signal or a mode
    Signal = 6,
    Grid = 7,
    Arrivals = 8,
    // an entry names what does not exist
    Names = 9,
    // the pull sum of a link is too large
    PullSum = 10,
    // a turn leaves too little room
    Room = 11,
    // an upper edge of an entry's cell is above safe
    Unsafe = 12,
    // an entry's rank is 0 off the goal, or above 0 at it
    Rank = 13,
    // a successor is not listed
    Unlisted = 14,
    // a successor's rank is not lower
    NotLower = 15,
    // the queues or the bytes asked about are not as they must be
    Improper = 16,
    // the buffer has too little room
    NoRoom = 17,
    // the state holds no certificate
    NoCertificate = 18,
    // no entry has the cell and the mode
    NoEntry = 19,
    // a detector's reading is no queue up to cap
    BadReading = 20,
    // both detectors of a link report faults
    NoReading = 21,
    // an entry's pair is not above that of the entry before it
    Order = 22,
    // the next mode remembers another signal
    Memory = 23,
    // the next mode has another goal number than the one due
    Goal = 24,
}

// A refusal with its places A and B, and the count of successors looked up.
#[derive(Clone, Copy, Debug)]
pub struct Refused {
    pub why: Refusal,
    pub a: u32,
    pub b: u32,
    pub count: u32,
}

impl Refusal {
    // Its number in reports.
    pub fn number(self) -> u8
        ensures { result ≡ number_of self }
    {
        self as u8
    }
}

// The report that a refusal is.
impl From<Refused> for Report {
    ghost from_gives = { λ e r. r ≡ report_of e };

    fn from(e: Refused) -> Report {
        Report {
            number: e.why.number(),
            a: e.a,
            b: e.b,
            count: e.count,
        }
    }
}

// The refusal with both places and the count.
pub fn refuse_at(why: Refusal, a: usize, b: usize, count: u32) -> Refused
    requires { (a ≤ offset_bound) × (b ≤ offset_bound) }
    ensures { report_of result ≡ report_with (number_of why) a b count }
{
    Refused {
        why,
        a: a as u32,
        b: b as u32,
        count,
    }
}

// The refusal that names place A alone.
pub fn refuse(why: Refusal, a: usize) -> Refused
    requires { a ≤ offset_bound }
    ensures { report_of result ≡ refusal (number_of why) a }
{
    refuse_at(why, a, 0, 0)
}

// A test: refuses where it does not hold.
pub fn require(holds: bool, why: Refusal, a: usize) -> Result<(), Refused>
    requires { a ≤ offset_bound }
    ensures { told result ≡ need holds (refusal (number_of why) a) fine }
{
    if holds { Ok(()) } else { Err(refuse(why, a)) }
}

// The record at o: its mark present (1), right (2), which `mark` says, and all of its size there (1).
pub fn check_opened(s: &[u8], o: usize, mark: bool, size: usize) -> Result<(), Refused>
    requires { (o ≤ offset_bound) × (size ≤ 1000) }
    ensures { told result ≡ opened s.now o mark size }
{
    require(o + 2 <= s.len(), Refusal::Short, o)?;
    require(mark, Refusal::Mark, o)?;
    require(o + size <= s.len(), Refusal::Short, o)
}
