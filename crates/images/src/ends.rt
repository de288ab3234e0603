// The ends of the image of a closed box of queues, before arrivals and with them, in ten thousandths of a vehicle.
// `first` has where each link's turns begin, `limits` the most that each link may send.
ghost use Rattle.std.specs.Prelude.{◌≡◌, ℕ, ◌+◌, ◌*◌, ◌<◌, ◌≤◌, min, eqb, ltb};
ghost use Rattle.certificate.specs.Loops.{pick};
ghost use Rattle.certificate.specs.Layout.{max_turns, links_of, turns_of, share_of};
ghost use Rattle.supply.specs.Supply.{at, FirstTurns, WithinCaps, TwoLeast, sent_by};
ghost use Rattle.images.specs.Ends.{most_queue, most_passed, end_bound, LimitsFit, PassedOn, EndsSoFar, EndsBefore};

use certificate::limits;
use reading::Certificate;
use supply::{BySide, QueueBox, SideSupplies};

// The ends of an image, link by link.
#[derive(Clone, Copy)]
pub struct Ends {
    pub low: [usize; limits::MAX_LINKS],
    pub high: [usize; limits::MAX_LINKS],
}

// Ten thousand times each queue.
fn scale(certificate: &Certificate<'_>, queues: &QueueBox, ends: &mut Ends)
    requires { WithinCaps certificate.now.bytes.now queues.now }
    ensures { (l : ℕ) → l < links_of certificate.now.bytes.now → (at ends.new.low l ≡ 10000 * at queues.now.lower l) × (at ends.new.high l ≡ 10000 * at queues.now.upper l) }
{
    for l in 0..certificate.layout.links {
        ends.low[l] = 10000 * queues.lower[l];
        ends.high[l] = 10000 * queues.upper[l];
    }
}

// What turn t lets pass: the least of its own supply at one side, the others' at the other and the most that its link may send.
fn sent_by(own: &SideSupplies, other: &SideSupplies, most: usize, t: usize) -> usize
    requires { t < max_turns }
    ensures { (result ≡ min (min (at own.now.of_turn t) (pick (eqb (at other.now.of_turn t) other.now.two.least) other.now.two.next other.now.two.least)) most) × (result ≤ most) }
{
    let others = other.two.others_of(other.of_turn[t]);
    own.of_turn[t].min(others).min(most)
}

// A link that sends: its number, where its turns begin and end, and the most that it may send, in hundredths.
#[derive(Clone, Copy)]
struct Sender {
    link: usize,
    from: usize,
    end: usize,
    flow: usize,
}

// A link sends at one side, where it has that queue: its own end loses what it sends, and each of its turns adds its share of what it lets
// pass to its to link.
fn pass_on(
    certificate: &Certificate<'_>,
    sender: Sender,
    queue: usize,
    own: &SideSupplies,
    other: &SideSupplies,
    ends: &mut [usize; limits::MAX_LINKS],
)
    requires { (sender.from ≤ sender.end) × (sender.end ≤ turns_of certificate.now.bytes.now) × (sender.link < links_of certificate.now.bytes.now) × (queue ≤ 10000) × (10000 * queue ≤ at ends.old sender.link) × TwoLeast (at other.now.of_turn) sender.from sender.end other.now.two × ((k : ℕ) → k < links_of certificate.now.bytes.now → at ends.old k ≤ most_queue + sender.from * most_passed) }
    ensures { PassedOn certificate.now.bytes.now (λ t. share_of certificate.now.bytes.now t * sent_by (at own.now.of_turn) (at other.now.of_turn) sender.from sender.end (min (100 * queue) sender.flow) t) sender.from sender.end sender.link (100 * min own.now.two.least (min (100 * queue) sender.flow)) ends.old ends.new }
{
    let most = (100 * queue).min(sender.flow);
    ends[sender.link] -= 100 * own.two.least.min(most);
    for t in sender.from..sender.end {
        let to = certificate.to_of(t);
        let more = certificate.share_of(t) * sent_by(own, other, most, t);
        ends[to] += more;
    }
}

// The ends of both sides once link l has sent too: nothing where its limit is 0. `supplies` is lent for the supplies of its turns.
fn send(
    certificate: &Certificate<'_>,
    limits: &[usize; limits::MAX_LINKS],
    first: &[usize; limits::MAX_LINKS + 1],
    queues: &QueueBox,
    l: usize,
    supplies: &mut BySide<SideSupplies>,
    ends: &mut Ends,
)
    requires { FirstTurns certificate.now.bytes.now first.now × WithinCaps certificate.now.bytes.now queues.now × (l < links_of certificate.now.bytes.now) × LimitsFit certificate.now.bytes.now limits.now × EndsSoFar certificate.now.bytes.now (at limits.now) queues.now first.now l ends.old }
    ensures { EndsSoFar certificate.now.bytes.now (at limits.now) queues.now first.now (l + 1) ends.new }
{
    if limits[l] == 0 {
        return;
    }
    let sender = Sender {
        link: l,
        from: first[l],
        end: first[l + 1],
        flow: 100 * limits[l],
    };
    supply::supplies(certificate, sender.from, sender.end, queues, supplies);
    let BySide { lower, upper } = supplies;
    let Ends { low, high } = ends;
    pass_on(certificate, sender, queues.lower[l], lower, upper, low);
    pass_on(certificate, sender, queues.upper[l], upper, lower, high);
}

// The ends of the image of a closed box, before arrivals: `ends` receives them.
pub fn ends_of(
    certificate: &Certificate<'_>,
    limits: &[usize; limits::MAX_LINKS],
    first: &[usize; limits::MAX_LINKS + 1],
    queues: &QueueBox,
    ends: &mut Ends,
)
    requires { FirstTurns certificate.now.bytes.now first.now × WithinCaps certificate.now.bytes.now queues.now × LimitsFit certificate.now.bytes.now limits.now }
    ensures { EndsBefore certificate.now.bytes.now (at limits.now) queues.now ends.new }
{
    let mut supplies = BySide {
        lower: SideSupplies::NONE,
        upper: SideSupplies::NONE,
    };
    scale(certificate, queues, ends);
    for l in 0..certificate.layout.links {
        send(certificate, limits, first, queues, l, &mut supplies, ends);
    }
}

// An end with arrivals, cut at cap; all in ten thousandths.
pub fn end_of(cap: usize, before: usize, arrivals: usize) -> usize
    requires { (before ≤ end_bound) × (arrivals ≤ end_bound) }
    ensures { result ≡ min cap (before + arrivals) }
{
    cap.min(before + arrivals)
}

// Whether an end with arrivals, not cut at cap, exceeds cap.
pub fn exceeds(cap: usize, before: usize, arrivals: usize) -> bool
    requires { (before ≤ end_bound) × (arrivals ≤ end_bound) }
    ensures { result ≡ ltb cap (before + arrivals) }
{
    cap < before + arrivals
}
