// Where each link's turns begin, and what the links that they lead into have room for.
#![tactic(auto)]

ghost use Rattle.std.specs.Prelude.{◌≡◌, ◌<◌, ◌≤◌, min, max, leb, eqb};
ghost use Rattle.certificate.specs.Loops.{pick, find};
ghost use Rattle.certificate.specs.Layout.{turns_of, from_of};
ghost use Rattle.supply.specs.Supply.{at, FirstTurns, WithinCaps, supply_at, Supplies};

use certificate::limits;
use reading::Certificate;

// No link sends more, in hundredths: the greatest cap.
const MOST_SENT: usize = 100 * limits::MAX_CAP;

// A closed box of queues: of each link the least and the greatest.
#[derive(Clone, Copy)]
pub struct QueueBox {
    pub lower: [usize; limits::MAX_LINKS],
    pub upper: [usize; limits::MAX_LINKS],
}

// What is found at the lower queues of a box, and at the upper.
#[derive(Clone, Copy)]
pub struct BySide<T> {
    pub lower: T,
    pub upper: T,
}

// The least of some numbers, and the least of the others.
#[derive(Clone, Copy)]
pub struct Two {
    pub least: usize,
    pub next: usize,
}

impl Two {
    // Of no numbers: no supply counts that is above what a link may send.
    const NONE: Two = Two {
        least: MOST_SENT,
        next: MOST_SENT,
    };

    // The two least of the numbers and one more.
    fn with(self, v: usize) -> Two
        ensures { (result.least ≡ min v self.least) × (result.next ≡ min (max v self.least) self.next) }
    {
        Two {
            least: v.min(self.least),
            next: v.max(self.least).min(self.next),
        }
    }

    // The least of the others, where v is one of the numbers.
    pub fn others_of(self, v: usize) -> usize
        ensures { result ≡ pick (eqb v self.least) self.next self.least }
    {
        if v == self.least {
            self.next
        } else {
            self.least
        }
    }
}

// The supplies of a link's turns at one side of a box, turn by turn, and the two least of them.
#[derive(Clone, Copy)]
pub struct SideSupplies {
    pub of_turn: [usize; limits::MAX_TURNS],
    pub two: Two,
}

impl SideSupplies {
    // Of no turn yet.
    pub const NONE: SideSupplies = SideSupplies {
        of_turn: [0; limits::MAX_TURNS],
        two: Two::NONE,
    };
}

// The first turn from link j or a later one, and the number of turns where there is none.
fn first_turn(certificate: &Certificate<'_>, j: usize) -> usize
    ensures { result ≡ find (turns_of certificate.now.bytes.now) (λ t. leb j (from_of certificate.now.bytes.now t)) }
{
    let turns = certificate.layout.turns;
    (0..turns)
        .find(
            |&t|
                requires { t < turns_of certificate.now.bytes.now }
            { j <= certificate.from_of(t) },
        )
        .unwrap_or(turns)
}

// Where the turns of each link begin; the last element is where all end.
pub fn first_turns(certificate: &Certificate<'_>) -> [usize; limits::MAX_LINKS + 1]
    ensures { FirstTurns certificate.now.bytes.now result }
{
    let mut first = [0usize; limits::MAX_LINKS + 1];
    for j in 0..limits::MAX_LINKS + 1 {
        first[j] = first_turn(certificate, j);
    }
    first
}

// What the to link of turn t has room for: pull × (cap − queue), in hundredths.
fn rooms_of(certificate: &Certificate<'_>, t: usize, queues: &QueueBox) -> BySide<usize>
    requires { (t < turns_of certificate.now.bytes.now) × WithinCaps certificate.now.bytes.now queues.now }
    ensures { (result.lower ≡ supply_at certificate.now.bytes.now (at queues.now.lower) t) × (result.upper ≡ supply_at certificate.now.bytes.now (at queues.now.upper) t) }
{
    let to = certificate.to_of(t);
    let cap = certificate.cap_of(to);
    let pull = certificate.pull_of(t);
    BySide {
        lower: pull * (cap - queues.lower[to]),
        upper: pull * (cap - queues.upper[to]),
    }
}

// The supplies of the turns from..end at the two sides of a box, into `found`.
pub fn supplies(
    certificate: &Certificate<'_>,
    from: usize,
    end: usize,
    queues: &QueueBox,
    found: &mut BySide<SideSupplies>,
)
    requires { (from ≤ end) × (end ≤ turns_of certificate.now.bytes.now) × WithinCaps certificate.now.bytes.now queues.now }
    ensures { Supplies certificate.now.bytes.now (at queues.now.lower) from end found.new.lower × Supplies certificate.now.bytes.now (at queues.now.upper) from end found.new.upper }
{
    let mut lower = Two::NONE;
    let mut upper = Two::NONE;
    for t in from..end {
        let rooms = rooms_of(certificate, t, queues);
        found.lower.of_turn[t] = rooms.lower;
        found.upper.of_turn[t] = rooms.upper;
        lower = lower.with(rooms.lower);
        upper = upper.with(rooms.upper);
    }
    found.lower.two = lower;
    found.upper.two = upper;
}
