// The intervals of each link that meet an image: first .. last, since edges ascend. Ends are in ten thousandths of a vehicle.
ghost use Rattle.std.specs.Prelude.{◌≡◌, ◌+◌, ◌*◌, ◌<◌, leb};
ghost use Rattle.certificate.specs.Loops.{pick};
ghost use Rattle.certificate.specs.Layout.{links_of, intervals_of};
ghost use Rattle.grid.specs.Intervals.{upper_edge};
ghost use Rattle.cell_tables.specs.Tables.{edge_row, EdgesOf, CountsOf};
ghost use Rattle.successors.specs.Ranges.{IsFirst, IsLast, RangesOf};

use cell_tables::tables;
use certificate::limits;
use reading::Certificate;

// The ranges of all links.
#[derive(Clone, Copy)]
pub struct Ranges {
    pub first: [usize; limits::MAX_LINKS],
    pub last: [usize; limits::MAX_LINKS],
}

// The range of one link.
#[derive(Clone, Copy)]
struct Range {
    first: usize,
    last: usize,
}

// The upper edge of interval i of link l: the lower edge of the next.
fn upper_at(
    certificate: &Certificate<'_>,
    edges: &[usize; tables::EDGES],
    l: usize,
    i: usize,
) -> usize
    requires { EdgesOf certificate.now.bytes.now edges.now × (l < links_of certificate.now.bytes.now) × (i < intervals_of certificate.now.bytes.now l) }
    ensures { result ≡ 10000 * upper_edge certificate.now.bytes.now l i }
{
    10000 * edges[tables::EDGE_ROW * l + i + 1]
}

// How many edges are at most `end`, where n were so before this one.
fn passed(n: usize, edge: usize, end: usize) -> usize
    requires { n < edge_row }
    ensures { result ≡ pick (leb edge end) (n + 1) n }
{
    if edge <= end { n + 1 } else { n }
}

// The first interval of link l whose upper edge is above low, and the last whose lower edge is at most high. The last interval holds
// its upper edge; where low is above that too, the first is the count.
fn range_of(
    certificate: &Certificate<'_>,
    edges: &[usize; tables::EDGES],
    l: usize,
    count: usize,
    low: usize,
    high: usize,
) -> Range
    requires { EdgesOf certificate.now.bytes.now edges.now × (l < links_of certificate.now.bytes.now) × (count ≡ intervals_of certificate.now.bytes.now l) }
    ensures { IsFirst certificate.now.bytes.now l low result.first × IsLast certificate.now.bytes.now l high result.last }
{
    let mut first = 0;
    let mut last = 0;
    let inner = count - 1;
    for i in 0..inner {
        let edge = upper_at(certificate, edges, l, i);
        first = passed(first, edge, low);
        last = passed(last, edge, high);
    }
    if upper_at(certificate, edges, l, inner) < low {
        first = count;
    }
    Range { first, last }
}

// The ranges of all links: `ranges` receives them.
pub fn ranges_of(
    certificate: &Certificate<'_>,
    edges: &[usize; tables::EDGES],
    counts: &[usize; limits::MAX_LINKS],
    low: &[usize; limits::MAX_LINKS],
    high: &[usize; limits::MAX_LINKS],
    ranges: &mut Ranges,
)
    requires { EdgesOf certificate.now.bytes.now edges.now × CountsOf certificate.now.bytes.now counts.now }
    ensures { RangesOf certificate.now.bytes.now low.now high.now ranges.new }
{
    for l in 0..certificate.layout.links {
        let range = range_of(certificate, edges, l, counts[l], low[l], high[l]);
        ranges.first[l] = range.first;
        ranges.last[l] = range.last;
    }
}
