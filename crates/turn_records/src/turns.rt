// TN: one record a turn, its fields and its tests.
ghost use Rattle.std.specs.Prelude.{true, ◌≡◌, ◌+◌, ◌*◌, ◌<◌, ◌≤◌, IfOk};
ghost use Rattle.certificate.specs.Octets.{byte_at};
ghost use Rattle.certificate.specs.Checks.{first_bad};
ghost use Rattle.certificate.specs.Layout.{links_of, turns_start, turn_at, turn_size, from_of, to_of, share_of, pull_of};
ghost use Rattle.turn_records.specs.ShareTotals.{TurnWhole, SharesBefore, turn_fits};
ghost use Rattle.certificate.specs.Records.{turn_ascends, share_total, turn_ok, turn_fault};
ghost use Rattle.octets.specs.Bounds.{start_bound};
ghost use Rattle.octets.specs.Refusals.{told};

use certificate::limits;
use octets::refusals::{self, Refusal, Refused};
use road_records::links;

// Where the record of turn t stands, behind where those of turns begin.
pub fn turn_at(start: usize, t: usize) -> usize
    requires { (t < 256) × (start ≤ start_bound) }
    ensures { (result ≡ start + turn_size * t) × (result ≤ 102000) }
{
    start + limits::TURN_SIZE * t
}

// The records of turns of a certificate: where they begin.
#[derive(Clone, Copy)]
pub struct Turns<'a> {
    pub bytes: &'a [u8],
    pub start: usize,
    ghost placed: { start ≡ turns_start bytes.now },
    ghost low: { start ≤ start_bound },
}

impl<'a> Turns<'a> {
    // Where the record of turn t stands.
    pub fn record_at(&self, t: usize) -> usize
        requires { t < 256 }
        ensures { (result ≡ turn_at self.now.bytes.now t) × (result ≤ 102000) }
    {
        turn_at(self.start, t)
    }

    // The byte at offset k of the record of turn t; and where the turn is there whole, with no test.
    fn byte_at(&self, t: usize, k: usize) -> usize
        requires { (t < 256) × (k < 256) }
        ensures { (result ≡ byte_at self.now.bytes.now (turn_at self.now.bytes.now t + k)) × (result < 256) }
    {
        octets::byte_at(self.bytes, self.record_at(t) + k)
    }

    fn byte_within(&self, t: usize, k: usize) -> usize
        requires { (t < 256) × (k < turn_size) × TurnWhole self.now.bytes.now t }
        ensures { (result ≡ byte_at self.now.bytes.now (turn_at self.now.bytes.now t + k)) × (result < 256) }
    {
        octets::byte_within(self.bytes, self.record_at(t) + k)
    }

    // The fields of a turn, which may be cut short: a byte past the end reads as 0.
    pub fn from_of(&self, t: usize) -> usize
        requires { t < 256 }
        ensures { (result ≡ from_of self.now.bytes.now t) × (result < 256) }
    {
        self.byte_at(t, 2)
    }

    pub fn to_of(&self, t: usize) -> usize
        requires { t < 256 }
        ensures { (result ≡ to_of self.now.bytes.now t) × (result < 256) }
    {
        self.byte_at(t, 3)
    }

    pub fn pull_of(&self, t: usize) -> usize
        requires { t < 256 }
        ensures { (result ≡ pull_of self.now.bytes.now t) × (result < 65536) }
    {
        octets::u16_at(self.bytes, self.record_at(t) + 5)
    }

    // The same fields of a turn that is there whole: no test.
    pub fn from_within(&self, t: usize) -> usize
        requires { (t < 256) × TurnWhole self.now.bytes.now t }
        ensures { (result ≡ from_of self.now.bytes.now t) × (result < 256) }
    {
        self.byte_within(t, 2)
    }

    pub fn to_within(&self, t: usize) -> usize
        requires { (t < 256) × TurnWhole self.now.bytes.now t }
        ensures { (result ≡ to_of self.now.bytes.now t) × (result < 256) }
    {
        self.byte_within(t, 3)
    }

    pub fn share_within(&self, t: usize) -> usize
        requires { (t < 256) × TurnWhole self.now.bytes.now t }
        ensures { (result ≡ share_of self.now.bytes.now t) × (result < 256) }
    {
        self.byte_within(t, 4)
    }

    pub fn pull_within(&self, t: usize) -> usize
        requires { (t < 256) × TurnWhole self.now.bytes.now t }
        ensures { (result ≡ pull_of self.now.bytes.now t) × (result < 65536) }
    {
        octets::u16_within(self.bytes, self.record_at(t) + 5)
    }

    // The pair of turn t is above that of the turn before it.
    fn ascends(&self, t: usize) -> bool
        requires { (t < 256) × TurnWhole self.now.bytes.now t }
        ensures { result ≡ turn_ascends self.now.bytes.now t }
    {
        if t == 0 {
            return true;
        }
        (self.from_within(t - 1), self.to_within(t - 1)) < (self.from_within(t), self.to_within(t))
    }

    // What the shares from the link of turn t total up to it, where `before` is that total up to the turn before.
    // Pairs ascend, so the turns of a link stand together.
    fn share_total(&self, t: usize, before: usize) -> usize
        requires { (t < 256) × TurnWhole self.now.bytes.now t × SharesBefore self.now.bytes.now t before }
        ensures { turn_ascends self.now.bytes.now t ≡ true → result ≡ share_total self.now.bytes.now t }
    {
        let share = self.share_within(t);
        if t == 0 {
            return share;
        }
        if self.from_within(t - 1) == self.from_within(t) {
            return before + share;
        }
        share
    }

    // The tests of a turn that do not look at other turns.
    fn fits(&self, links: usize, t: usize) -> bool
        requires { (t < 256) × TurnWhole self.now.bytes.now t × (links ≡ links_of self.now.bytes.now) }
        ensures { result ≡ turn_fits self.now.bytes.now t }
    {
        let from = self.from_within(t);
        let to = self.to_within(t);
        let share = self.share_within(t);
        let pull = self.pull_within(t);
        (from < links)
            & (to < links)
            & (links::head_of(self.bytes, from) == links::tail_of(self.bytes, to))
            & (1 <= share)
            & (share <= limits::MAX_SHARE)
            & (1 <= pull)
            & (pull <= limits::MAX_PULL)
    }

    fn passes(&self, links: usize, t: usize, total: usize) -> bool
        requires { (t < 256) × TurnWhole self.now.bytes.now t × (links ≡ links_of self.now.bytes.now)
            × (turn_ascends self.now.bytes.now t ≡ true → total ≡ share_total self.now.bytes.now t) }
        ensures { result ≡ turn_ok self.now.bytes.now t }
    {
        self.fits(links, t) & self.ascends(t) & (total <= limits::MAX_SHARE)
    }

    // The tests of turn t, where those before it pass; answers what the shares from its link total up to it.
    fn check(&self, links: usize, t: usize, before: usize) -> Result<usize, Refused>
        requires { (t < 256) × (links ≡ links_of self.now.bytes.now) × SharesBefore self.now.bytes.now t before }
        ensures { (told result ≡ turn_fault self.now.bytes.now t) × IfOk result (λ total. SharesBefore self.now.bytes.now (t + 1) total) }
    {
        let o = self.record_at(t);
        let marked = octets::marked_as(self.bytes, o, 84, 78);
        refusals::check_opened(self.bytes, o, marked, limits::TURN_SIZE)?;
        let total = self.share_total(t, before);
        refusals::require(self.passes(links, t, total), Refusal::Turn, o)?;
        Ok(total)
    }

    // The tests of so many turns.
    pub fn check_all(&self, links: usize, count: usize) -> Result<(), Refused>
        requires { (count < 256) × (links ≡ links_of self.now.bytes.now) }
        ensures { told result ≡ first_bad count (turn_fault self.now.bytes.now) }
    {
        let mut total = 0;
        for t in 0..count {
            total = self.check(links, t, total)?;
        }
        Ok(())
    }
}
