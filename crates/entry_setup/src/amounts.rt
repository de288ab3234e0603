// Caps and arrivals in ten thousandths of a vehicle, as tables made once for a certificate.
ghost use Rattle.std.specs.Prelude.{◌≡◌, ◌*◌, ◌≤◌, ◌<◌};
ghost use Rattle.certificate.specs.Layout.{max_boxes, max_links, links_of, boxes_of};
ghost use Rattle.entry_setup.specs.Tables.{arrival_row, CapsOf, arrival_entry, ArrivalsOf};

use box_records::arrivals::Arrivals;
use certificate::limits;
use road_records::links as link_records;

// Two for each link that there may be: the table has a row of them for each box.
pub const ARRIVAL_ROW: usize = 2 * limits::MAX_LINKS;

pub const ARRIVALS: usize = limits::MAX_BOXES * ARRIVAL_ROW;

pub fn caps_of(s: &[u8], links: usize) -> [usize; limits::MAX_LINKS]
    requires { (links ≤ max_links) × (links ≡ links_of s.now) }
    ensures { CapsOf s.now result }
{
    let mut caps = [0; limits::MAX_LINKS];
    for l in 0..links {
        caps[l] = 10000 * link_records::cap_of(s, l);
    }
    caps
}

// Entry k: field k % 16 of box k / 16. The fields of a box go link by link, the least that arrives and then the most.
fn amount_at(arrivals: &Arrivals<'_>, k: usize) -> usize
    requires { k < max_boxes * arrival_row }
    ensures { result ≡ arrival_entry arrivals.now.bytes.now k }
{
    let record = arrivals.record_at(k / ARRIVAL_ROW);
    10000 * octets::u16_at(arrivals.bytes, record + (2 + 2 * (k % ARRIVAL_ROW)))
}

// Sixteen a box.
pub fn arrivals_of(arrivals: &Arrivals<'_>, boxes: usize) -> [usize; ARRIVALS]
    requires { (boxes ≤ max_boxes) × (boxes ≡ boxes_of arrivals.now.bytes.now) }
    ensures { ArrivalsOf arrivals.now.bytes.now result }
{
    let mut amounts = [0; ARRIVALS];
    for k in 0..ARRIVAL_ROW * boxes {
        amounts[k] = amount_at(arrivals, k);
    }
    amounts
}
