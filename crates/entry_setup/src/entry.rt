// What judging finds out once of an entry: where the ranks of its successors stand, the edges of its cell, its limits, and the ends of its
// image before arrivals.
ghost use Rattle.std.specs.Prelude.{◌≡◌, ℕ, ◌<◌};
ghost use Rattle.certificate.specs.Layout.{links_of, green_byte_of, cells_of, cell_of, signal_of, entries_of};
ghost use Rattle.octets.specs.Tables.{Holds};
ghost use Rattle.network.specs.Network.{entry_limit};
ghost use Rattle.entry_setup.specs.Bytes.{bytes_of};
ghost use Rattle.entry_setup.specs.Tables.{CellEdges, limit_by, EntryLimits, EntryEnds, bound_for, IsEntry};

use crate::Tables;
use cell_tables::{digits, tables as edges};
use certificate::limits;
use images::ends::{self, Ends};
use reading::Certificate;
use signal_records::signals;
use supply::QueueBox;

// What the search through an entry's successors goes by: the entry's number, where the ranks of its next mode stand, its own rank, and the
// most that the table of ranks may have for a successor.
#[derive(Clone, Copy)]
pub struct Entry<'t> {
    pub tables: &'t Tables<'t>,
    pub number: usize,
    pub row: usize,
    pub rank: usize,
    pub bound: u32,
    ghost found: { IsEntry (bytes_of tables.now) number row rank bound },
}

// The greatest number of 32 bits: nothing in the table of ranks is above it.
const ANY_RANK: u32 = 4294967295;

// The most that the table of ranks, which has them raised by one, may have for a successor of an entry of that rank.
fn bound_for(rank: usize) -> u32
    requires { rank < 65536 }
    ensures { result ≡ bound_for rank }
{
    if rank == 0 {
        return ANY_RANK;
    }
    rank as u32
}

impl<'t> Entry<'t> {
    // Entry e.
    pub fn of(tables: &'t Tables<'t>, e: usize) -> Entry<'t>
        requires { e < entries_of (bytes_of tables.now) }
        ensures { (result.tables.now ≡ tables.now) × (result.number ≡ e) }
    {
        let certificate = tables.certificate;
        let rank = certificate.rank_of(e);
        Entry {
            tables,
            number: e,
            row: certificate.next_mode_of(e) * certificate.layout.cells,
            rank,
            bound: bound_for(rank),
        }
    }
}

// The edges of a cell: `queues` receives them.
pub fn cell_edges(tables: &Tables<'_>, cell: usize, queues: &mut QueueBox)
    requires { cell < cells_of (bytes_of tables.now) }
    ensures { CellEdges (bytes_of tables.now) cell queues.new }
{
    for l in 0..tables.certificate.layout.links {
        let i = digits::interval_in(tables.certificate, tables.digits, cell, l);
        queues.lower[l] = tables.edges[edges::EDGE_ROW * l + i];
        queues.upper[l] = tables.edges[edges::EDGE_ROW * l + i + 1];
    }
}

// The most that link l may send, by the bytes of the signal shown before and of the one shown: 0 where it is red, its flow where it is and
// was green, its start flow where it was red.
fn limit_under(certificate: &Certificate<'_>, before: usize, byte: usize, l: usize) -> usize
    requires { l < links_of certificate.now.bytes.now }
    ensures { result ≡ limit_by certificate.now.bytes.now before byte l }
{
    if !signals::is_green(byte, l) {
        return 0;
    }
    if signals::is_green(before, l) {
        return certificate.flow_of(l);
    }
    certificate.start_flow_of(l)
}

// The same of each link.
fn limits_under(
    certificate: &Certificate<'_>,
    before: usize,
    byte: usize,
) -> [usize; limits::MAX_LINKS]
    ensures { Holds (links_of certificate.now.bytes.now) (limit_by certificate.now.bytes.now before byte) result }
{
    let mut limits = [0; limits::MAX_LINKS];
    for l in 0..certificate.layout.links {
        limits[l] = limit_under(certificate, before, byte, l);
    }
    limits
}

// The byte of the signal shown before entry e, whose own signal has that byte: by the memory of its mode. HD has no memory, and no start flow
// either, so that the entry's own byte does.
fn byte_before(certificate: &Certificate<'_>, e: usize, byte: usize) -> usize
    requires { (e < entries_of certificate.now.bytes.now) × (byte ≡ green_byte_of certificate.now.bytes.now (signal_of certificate.now.bytes.now e)) }
    ensures { (l : ℕ) → limit_by certificate.now.bytes.now result byte l ≡ entry_limit certificate.now.bytes.now e l }
{
    if !certificate.has_memory() {
        return byte;
    }
    let shown = certificate.shown_before(certificate.mode_of(e));
    certificate.green_byte_of(shown)
}

// The most that each link may send under entry e.
fn entry_limits(certificate: &Certificate<'_>, e: usize) -> [usize; limits::MAX_LINKS]
    requires { e < entries_of certificate.now.bytes.now }
    ensures { EntryLimits certificate.now.bytes.now e result }
{
    let byte = certificate.green_byte_of(certificate.signal_of(e));
    limits_under(certificate, byte_before(certificate, e, byte), byte)
}

// The ends of entry e's image before arrivals, given the edges of its cell: `ends` receives them.
pub fn entry_ends(tables: &Tables<'_>, e: usize, queues: &QueueBox, ends: &mut Ends)
    requires { (e < entries_of (bytes_of tables.now)) × CellEdges (bytes_of tables.now) (cell_of (bytes_of tables.now) e) queues.now }
    ensures { EntryEnds (bytes_of tables.now) e ends.new }
{
    let limits = entry_limits(tables.certificate, e);
    ends::ends_of(
        tables.certificate,
        &limits,
        tables.first_turns,
        queues,
        ends,
    )
}
