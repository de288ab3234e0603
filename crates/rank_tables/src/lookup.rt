// Looking up the entry of a cell and a mode.
ghost use Rattle.std.specs.Prelude.{◌≡◌, ℕ, ◌≤◌, ◌<◌};
ghost use Rattle.std.specs.Option.{IfSome, unwrap_or};
ghost use Rattle.certificate.specs.Layout.{max_cells, max_entries, entries_of, cells_of};
ghost use Rattle.judging.specs.Lookup.{entry_for};
ghost use Rattle.rank_tables.specs.Index.{entry_from, CellsAscend, CellFrom};

use crate::index::Index;
use entry_records::entries::Entries;
use reading::Certificate;

// The first entry at or above cell d, by bisection; the number of entries where there is none. By hand, since std's `partition_point` is
// for slices, and entries are records among bytes.
fn first_at(certificate: &Certificate<'_>, d: usize) -> usize
    ensures { (result ≡ entry_from certificate.now.bytes.now d) × (result ≤ entries_of certificate.now.bytes.now) }
{
    let mut low = 0;
    let mut high = certificate.layout.entries;
    while low < high {
        let middle = (low + high) / 2;
        if d <= certificate.cell_of(middle) {
            high = middle;
        } else {
            low = middle + 1;
        }
    }
    low
}

// The entry of a mode among those of one cell, which stand from first to before end.
fn among(entries: &Entries<'_>, first: usize, end: usize, m: usize) -> Option<usize>
    requires { CellsAscend entries.now.bytes.now × (end ≤ max_entries) × (end ≤ entries_of entries.now.bytes.now) }
    ensures { IfSome result (λ e. e < entries_of entries.now.bytes.now) × ((d : ℕ) → CellFrom entries.now.bytes.now d first end → unwrap_or result (entries_of entries.now.bytes.now) ≡ entry_for entries.now.bytes.now d m) }
{
    for e in first..end {
        if entries.mode_of(e) == m {
            return Some(e);
        }
    }
    None
}

// The entry of a cell and a mode, by bisection.
pub fn find_entry(certificate: &Certificate<'_>, cell: usize, mode: usize) -> Option<usize>
    requires { cell ≤ max_cells }
    ensures { (unwrap_or result (entries_of certificate.now.bytes.now) ≡ entry_for certificate.now.bytes.now cell mode) × IfSome result (λ e. e < entries_of certificate.now.bytes.now) }
{
    let first = first_at(certificate, cell);
    let end = first_at(certificate, cell + 1);
    among(&certificate.entries(), first, end, mode)
}

impl<'a> Index<'a> {
    // The same by the index: the entries of a cell stand one after another.
    pub fn lookup(&self, d: usize, m: usize) -> Option<usize>
        requires { CellsAscend self.now.entries.bytes.now × (d < cells_of self.now.entries.bytes.now) }
        ensures { (unwrap_or result (entries_of self.now.entries.bytes.now) ≡ entry_for self.now.entries.bytes.now d m) × IfSome result (λ e. e < entries_of self.now.entries.bytes.now) }
    {
        let first = usize::from(self.first[d]);
        let end = usize::from(self.first[d + 1]);
        among(&self.entries, first, end, m)
    }
}
