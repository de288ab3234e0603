// The table of ranks: for each mode and cell the rank of their entry, so that a successor is looked up by one read.
ghost use Rattle.std.specs.Prelude.{◌≡◌, ◌*◌, ◌≤◌, ◌<◌, length};
ghost use Rattle.certificate.specs.Layout.{max_cells, max_modes, modes_of, cells_of};
ghost use Rattle.rank_tables.specs.Index.{CellsAscend, rank_at, RanksOf};

use crate::index::Index;
use certificate::limits;

// One for each mode and cell.
pub const RANKS: usize = limits::MAX_MODES * limits::MAX_CELLS;

// The rank of the entry of cell d and mode m, raised by one; 0 where there is none.
fn rank_at(index: &Index<'_>, d: usize, m: usize) -> u32
    requires { CellsAscend index.now.entries.bytes.now × (d < cells_of index.now.entries.bytes.now) }
    ensures { result ≡ rank_at index.now.entries.bytes.now d m }
{
    match index.lookup(d, m) {
        Some(e) => index.entries.rank_of(e) as u32 + 1,
        None => 0,
    }
}

// Fills the table: the cells of one mode after those of the mode before it.
pub fn fill_ranks(index: &Index<'_>, modes: usize, ranks: &mut [u32])
    requires { CellsAscend index.now.entries.bytes.now × (modes ≤ max_modes) × (modes ≡ modes_of index.now.entries.bytes.now) × (length ranks.old ≡ max_modes * max_cells) }
    ensures { RanksOf index.now.entries.bytes.now ranks.new }
{
    let cells = index.cells;
    for m in 0..modes {
        for d in 0..cells {
            ranks[m * cells + d] = rank_at(index, d, m);
        }
    }
}
