// The successors of an entry under one arrival box, as ranges of intervals.
ghost use Rattle.std.specs.Prelude.{◌≡◌, ℕ, ◌+◌, ◌*◌, ◌<◌, ◌≤◌, min, false, ltb, get_or};
ghost use Rattle.certificate.specs.Layout.{max_boxes, max_links, links_of, boxes_of};
ghost use Rattle.certificate.specs.Loops.{any_to};
ghost use Rattle.judging.specs.Overflow.{box_overflows};
ghost use Rattle.images.specs.Ends.{end_bound};
ghost use Rattle.entry_setup.specs.Bytes.{bytes_of};
ghost use Rattle.entry_setup.specs.Tables.{arrival_row, EntryEnds};
ghost use Rattle.entry_search.specs.Search.{EntryImage, BoxRanges};

use certificate::limits;
use entry_setup::{Entry, Tables, amounts};
use images::ends::{self, Ends};
use successors::ranges::{self, Ranges};

// The low or the high ends with the arrivals of a box, which stand at every second place from `from` on, at most cap: `ends` receives them,
// and `over` of each link whether its end, not cut at cap, exceeds cap. The answer is whether some link's does, gathered in the same loop:
// `any` in a loop of its own reads all again.
fn ends_under(
    tables: &Tables<'_>,
    before: &[usize; limits::MAX_LINKS],
    from: usize,
    ends: &mut [usize; limits::MAX_LINKS],
    over: &mut [bool; limits::MAX_LINKS],
) -> bool
    requires { (from + 2 * max_links ≤ max_boxes * arrival_row + 1) × ((l : ℕ) → l < links_of (bytes_of tables.now) → (get_or before.now l 0 ≤ end_bound) × (get_or tables.now.arrivals.now (from + 2 * l) 0 ≤ end_bound)) }
    ensures { ((l : ℕ) → l < links_of (bytes_of tables.now) → get_or ends.new l 0 ≡ min (get_or tables.now.caps.now l 0) (get_or before.now l 0 + get_or tables.now.arrivals.now (from + 2 * l) 0)) × ((l : ℕ) → l < links_of (bytes_of tables.now) → get_or over.new l false ≡ ltb (get_or tables.now.caps.now l 0) (get_or before.now l 0 + get_or tables.now.arrivals.now (from + 2 * l) 0)) × (result ≡ any_to (links_of (bytes_of tables.now)) (λ l. get_or over.new l false)) }
{
    let mut any = false;
    for l in 0..tables.certificate.layout.links {
        let arrivals = tables.arrivals[from + 2 * l];
        ends[l] = ends::end_of(tables.caps[l], before[l], arrivals);
        let exceeds = ends::exceeds(tables.caps[l], before[l], arrivals);
        over[l] = exceeds;
        any |= exceeds;
    }
    any
}

// The image of an entry's cell under its signal and box b: the smallest closed box that holds all exact next queues, and which of them
// exceed cap where they are not cut. `ends` has its ends before arrivals, `image` receives them, and `over` what the high ends say, which
// come last. The answer is whether some link exceeds.
fn image_of(
    entry: &Entry<'_>,
    ends: &Ends,
    b: usize,
    image: &mut Ends,
    over: &mut [bool; limits::MAX_LINKS],
) -> bool
    requires { EntryEnds (bytes_of entry.now.tables.now) entry.now.number ends.now × (b < boxes_of (bytes_of entry.now.tables.now)) }
    ensures { EntryImage (bytes_of entry.now.tables.now) entry.now.number b image.new over.new × (result ≡ box_overflows (bytes_of entry.now.tables.now) entry.now.number b) }
{
    ends_under(
        entry.tables,
        &ends.low,
        amounts::ARRIVAL_ROW * b,
        &mut image.low,
        over,
    );
    ends_under(
        entry.tables,
        &ends.high,
        amounts::ARRIVAL_ROW * b + 1,
        &mut image.high,
        over,
    )
}

// The ranges of intervals of each link that an entry's successors under box b have, and whether some link may exceed its cap: `ranges`
// receives them. `ends` has the ends of the entry's image before arrivals.
pub fn box_ranges(entry: &Entry<'_>, ends: &Ends, b: usize, ranges: &mut Ranges) -> bool
    requires { EntryEnds (bytes_of entry.now.tables.now) entry.now.number ends.now × (b < boxes_of (bytes_of entry.now.tables.now)) }
    ensures { BoxRanges (bytes_of entry.now.tables.now) entry.now.number b ranges.new × (result ≡ box_overflows (bytes_of entry.now.tables.now) entry.now.number b) }
{
    let tables = entry.tables;
    let mut image = Ends {
        low: [0; limits::MAX_LINKS],
        high: [0; limits::MAX_LINKS],
    };
    let mut over = [false; limits::MAX_LINKS];
    let any = image_of(entry, ends, b, &mut image, &mut over);
    ranges::ranges_of(
        tables.certificate,
        tables.edges,
        tables.counts,
        &image.low,
        &image.high,
        ranges,
    );
    any
}
