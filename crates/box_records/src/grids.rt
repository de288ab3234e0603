// GR: one record a link, how many intervals its queues are cut into, and the cuts. The records differ in size.
ghost use Rattle.std.specs.Prelude.{◌≡◌, ◌*◌, ◌-◌, ◌<◌, ◌≤◌, IfOk};
ghost use Rattle.certificate.specs.Checks.{first_bad};
ghost use Rattle.certificate.specs.Layout.{max_cells, max_links, cap_of, grid_start, count_at, cut_at, grid_at, product_of};
ghost use Rattle.certificate.specs.Records.{cut_fault, count_ok, grid_fault};
ghost use Rattle.box_records.specs.GridRecords.{cuts_fault, GridsLaid};
ghost use Rattle.octets.specs.Bounds.{grids_bound, start_bound};
ghost use Rattle.octets.specs.Refusals.{told};

use certificate::limits;
use octets::refusals;
use octets::refusals::{Refusal, Refused};
use road_records::links;

// What reading the grids finds: where each link's record stands, where the last one ends, and how many cells there are.
#[derive(Clone, Copy)]
pub struct Grids {
    pub places: [usize; limits::MAX_LINKS],
    pub end: usize,
    pub cells: usize,
}

// How many intervals the record at o has.
pub fn count_at(s: &[u8], o: usize) -> usize
    requires { o ≤ start_bound }
    ensures { (result ≡ count_at s.now o) × (result < 256) }
{
    octets::byte_at(s, o + 2)
}

// Cut i of the record at o.
pub fn cut_at(s: &[u8], o: usize, i: usize) -> usize
    requires { (o ≤ start_bound) × (i < 256) }
    ensures { (result ≡ cut_at s.now o i) × (result < 65536) }
{
    octets::u16_at(s, o + 3 + 2 * i)
}

// The first n cuts of link l: they ascend, each below the cap.
fn check_cuts(s: &[u8], l: usize, o: usize, cap: usize, n: usize) -> Result<(), Refused>
    requires { (o ≤ start_bound) × (n < 256) × (o ≡ grid_at s.now l) × (cap ≡ cap_of s.now l) }
    ensures { told result ≡ first_bad n (cut_fault s.now l) }
{
    let mut before = 0;
    for i in 0..n {
        let cut = cut_at(s, o, i);
        refusals::require((before < cut) & (cut < cap), Refusal::Grid, o)?;
        before = cut;
    }
    Ok(())
}

// The count of link l, and the product of the counts up to it.
fn count_ok(s: &[u8], l: usize, o: usize, product: usize) -> bool
    requires { (o ≤ start_bound) × (product ≤ max_cells) × (o ≡ grid_at s.now l) × (product ≡ product_of s.now l) }
    ensures { result ≡ count_ok s.now l }
{
    let count = count_at(s, o);
    (1 <= count) & (count <= limits::MAX_INTERVALS) & (product * count <= limits::MAX_CELLS)
}

// The cuts of link l: all present, and in order.
fn check_cuts_of(s: &[u8], l: usize, o: usize) -> Result<(), Refused>
    requires { (l < 256) × (o ≤ start_bound) × (o ≡ grid_at s.now l) }
    ensures { told result ≡ cuts_fault s.now l }
{
    let count = count_at(s, o);
    refusals::require(o + (1 + 2 * count) <= s.len(), Refusal::Short, o)?;
    check_cuts(s, l, o, links::cap_of(s, l), count.saturating_sub(1))
}

// The record of link l at o; `product` is that of the counts before it.
fn check_grid(s: &[u8], l: usize, o: usize, product: usize) -> Result<(), Refused>
    requires { (l < 256) × (o ≤ start_bound) × (product ≤ max_cells) × (o ≡ grid_at s.now l) × (product ≡ product_of s.now l) }
    ensures { told result ≡ grid_fault s.now l }
{
    refusals::check_opened(s, o, octets::marked_as(s, o, 71, 82), 3)?;
    refusals::require(count_ok(s, l, o, product), Refusal::Grid, o)?;
    check_cuts_of(s, l, o)
}

// The records of all links, the first at `start`.
pub fn check_grids(s: &[u8], start: usize, links: usize) -> Result<Grids, Refused>
    requires { (links ≤ max_links) × (start ≤ grids_bound) × (start ≡ grid_start s.now) }
    ensures told { told result ≡ first_bad links (grid_fault s.now) }
    ensures laid { IfOk result (λ g. GridsLaid s.now links g.places g.end g.cells) }
{
    let mut places = [0; limits::MAX_LINKS];
    let mut at = start;
    let mut product = 1;
    for l in 0..links {
        check_grid(s, l, at, product)?;
        places[l] = at;
        let count = count_at(s, at);
        product *= count;
        at += 1 + 2 * count;
    }
    Ok(Grids {
        places,
        end: at,
        cells: product,
    })
}
