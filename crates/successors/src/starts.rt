// The list of all runs of cells in the ranges: where each starts. The numbers so far of the links are kept in the list, and built link by
// link: with one link more, each is taken times the link's interval count, plus its interval, for every interval of its range. From the
// run link on only the first interval is taken, since a run has the others. The list is not in order: it has a row of numbers for each
// interval of a link, the rows of later links outside.
ghost use Rattle.std.specs.Prelude.{◌≡◌, ◌⊎◌, ℕ, ◌+◌, ◌*◌, ◌-◌, ◌<◌, ◌≤◌, get_or};
ghost use Rattle.certificate.specs.Layout.{max_intervals, max_cells};
ghost use Rattle.cell_tables.specs.Tables.{CountsOf};
ghost use Rattle.successors.specs.Ranges.{Bounded, RunsOf};

use crate::ranges::Ranges;
use crate::seek;
use cell_tables::queues;
use certificate::limits;
use reading::Certificate;

// How many runs there are, and how many cells each has.
#[derive(Clone, Copy)]
pub struct Runs {
    pub count: usize,
    pub size: usize,
}

// The number so far of a place of the list, with one link more.
fn longer(number: u16, count: u16, i: u16) -> u16
    requires { number * count + i ≤ max_cells }
    ensures { result ≡ number * count + i }
{
    queues::with_link(usize::from(number), usize::from(count), usize::from(i)) as u16
}

// A row of the list, behind its first n numbers or in their place: these numbers with interval i of a link more.
fn row(starts: &mut [u16; limits::MAX_CELLS], n: usize, at: usize, count: u16, i: u16)
    requires { ((at ≡ 0) ⊎ (n ≤ at)) × (at + n ≤ max_cells) × ((m : ℕ) → m < n → get_or starts.old m 0 * count + i ≤ max_cells) }
    ensures { ((m : ℕ) → m < n → get_or starts.new (at + m) 0 ≡ get_or starts.old m 0 * count + i) × ((m : ℕ) → (m < at) ⊎ (at + n ≤ m) → get_or starts.new m 0 ≡ get_or starts.old m 0) }
{
    for m in 0..n {
        starts[at + m] = longer(starts[m], count, i);
    }
}

// The n numbers of the list with one link more, for its intervals from .. to: a row for each. The answer is how many they are.
fn widen(
    starts: &mut [u16; limits::MAX_CELLS],
    n: usize,
    count: u16,
    from: usize,
    to: usize,
) -> usize
    requires { (from ≤ to) × (to ≤ max_intervals) × ((to + 1 - from) * n ≤ max_cells) × ((m : ℕ) → m < n → get_or starts.old m 0 * count + to ≤ max_cells) }
    ensures { (result ≡ (to + 1 - from) * n) × ((j m : ℕ) → from ≤ j → j ≤ to → m < n → get_or starts.new ((j - from) * n + m) 0 ≡ get_or starts.old m 0 * count + j) }
{
    let mut at = n;
    for i in from + 1..to + 1 {
        row(starts, n, at, count, i as u16);
        at += n;
    }
    row(starts, n, 0, count, from as u16);
    at
}

// The runs of cells in the ranges: the list is filled with their starts. Before the run link every interval of a range is listed; from
// there on the first alone, and a run has as many cells as the ranges of these links have intervals, multiplied.
pub fn runs_of(
    certificate: &Certificate<'_>,
    counts: &[usize; limits::MAX_LINKS],
    ranges: &Ranges,
    starts: &mut [u16; limits::MAX_CELLS],
) -> Runs
    requires { CountsOf certificate.now.bytes.now counts.now × Bounded certificate.now.bytes.now ranges.now }
    ensures { RunsOf certificate.now.bytes.now ranges.now starts.new result.count result.size }
{
    let run = seek::run_link(certificate, counts, ranges);
    starts[0] = 0;
    let mut count = 1;
    for l in 0..run {
        let from = ranges.first[l];
        let to = ranges.last[l];
        if to < from {
            return Runs { count: 0, size: 0 };
        }
        count = widen(starts, count, counts[l] as u16, from, to);
    }
    let mut size = 1;
    for l in run..certificate.layout.links {
        let from = ranges.first[l];
        let to = ranges.last[l];
        if to < from {
            return Runs { count: 0, size: 0 };
        }
        size *= to + 1 - from;
        row(starts, count, 0, counts[l] as u16, from as u16);
    }
    Runs { count, size }
}
