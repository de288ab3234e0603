// The edges of every link's intervals, and how many there are.
ghost use Rattle.std.specs.Prelude.{◌≡◌, ◌<◌};
ghost use Rattle.certificate.specs.Layout.{links_of};
ghost use Rattle.cell_tables.specs.Tables.{edge_row, edge_of, EdgesOf, CountsOf};

use certificate::limits;
use reading::Certificate;

// The edges of a link: one more than its intervals. The table has a row of them for each link.
pub const EDGE_ROW: usize = limits::MAX_INTERVALS + 1;

pub const EDGES: usize = limits::MAX_LINKS * EDGE_ROW;

// Edge i of link l: 0, then the cuts, then cap.
fn edge_at(certificate: &Certificate<'_>, l: usize, i: usize) -> usize
    requires { (l < links_of certificate.now.bytes.now) × (i < edge_row) }
    ensures { result ≡ edge_of certificate.now.bytes.now l i }
{
    if i == 0 {
        return 0;
    }
    if i < certificate.intervals_of(l) {
        return certificate.cut_of(l, i - 1);
    }
    certificate.cap_of(l)
}

// Sixteen edges a link.
pub fn edges_of(certificate: &Certificate<'_>) -> [usize; EDGES]
    ensures { EdgesOf certificate.now.bytes.now result }
{
    let mut edges = [0; EDGES];
    for k in 0..EDGE_ROW * certificate.layout.links {
        edges[k] = edge_at(certificate, k / EDGE_ROW, k % EDGE_ROW);
    }
    edges
}

// How many intervals each link has.
pub fn counts_of(certificate: &Certificate<'_>) -> [usize; limits::MAX_LINKS]
    ensures { CountsOf certificate.now.bytes.now result }
{
    let mut counts = [1; limits::MAX_LINKS];
    for l in 0..certificate.layout.links {
        counts[l] = certificate.intervals_of(l);
    }
    counts
}
