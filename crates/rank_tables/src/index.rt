// The index by cell: for each cell the first entry at or above it, so that an entry is found without a search through all.
ghost use Rattle.std.specs.Prelude.{◌≡◌, ◌≤◌};
ghost use Rattle.certificate.specs.Layout.{max_cells, max_entries, entries_of, cells_of};
ghost use Rattle.rank_tables.specs.Index.{entry_from, IsIndex};

use certificate::limits;
use entry_records::entries::Entries;

// The index of the entries: element d is the first entry at or above cell d, for every cell and the end.
#[derive(Clone, Copy)]
pub struct Index<'a> {
    pub entries: Entries<'a>,
    pub count: usize,
    pub cells: usize,
    pub first: [u16; limits::MAX_CELLS + 1],
    ghost count_is: { count ≡ entries_of entries.bytes.now },
    ghost count_most: { count ≤ max_entries },
    ghost cells_are: { cells ≡ cells_of entries.bytes.now },
    ghost cells_most: { cells ≤ max_cells },
    ghost is: { IsIndex entries.bytes.now first },
}

// The first entry at or above cell d, from entry e on, where no entry before e is.
fn first_from(entries: &Entries<'_>, count: usize, e: usize, d: usize) -> usize
    requires { (count ≤ max_entries) × (count ≡ entries_of entries.now.bytes.now) × (e ≤ entry_from entries.now.bytes.now d) }
    ensures { (result ≡ entry_from entries.now.bytes.now d) × (result ≤ max_cells) }
{
    for f in e..count {
        if d <= entries.cell_of(f) {
            return f;
        }
    }
    count
}

// One pass over cells and entries.
pub fn index_of<'a>(entries: Entries<'a>, count: usize, cells: usize) -> Index<'a>
    requires { (count ≤ max_entries) × (count ≡ entries_of entries.bytes.now) × (cells ≤ max_cells) × (cells ≡ cells_of entries.bytes.now) }
    ensures { result.entries.bytes.now ≡ entries.entry.bytes.now }
{
    let mut first = [0u16; limits::MAX_CELLS + 1];
    let mut e = 0;
    for d in 0..cells + 1 {
        e = first_from(&entries, count, e, d);
        first[d] = e as u16;
    }
    Index {
        entries,
        count,
        cells,
        first,
    }
}
