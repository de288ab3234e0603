// The cell that holds given queues, each at most cap, over a scale.
ghost use Rattle.std.specs.Prelude.{◌≡◌, ◌+◌, ◌*◌, ◌<◌, ◌≤◌, length, get_or};
ghost use Rattle.certificate.specs.Layout.{max_cells, max_scale, links_of, cells_of};
ghost use Rattle.grid.specs.Intervals.{interval_at};
ghost use Rattle.grid.specs.Cells.{cell_at};
ghost use Rattle.cell_tables.specs.Tables.{QueuesFit};

use reading::Certificate;

// The interval of link l that holds x over scale: the first whose upper edge is above x, else the last.
fn interval_at(certificate: &Certificate<'_>, l: usize, scale: usize, x: usize) -> usize
    requires { (l < links_of certificate.now.bytes.now) × (scale ≤ max_scale) }
    ensures { result ≡ interval_at certificate.now.bytes.now l scale x }
{
    let last = certificate.intervals_of(l) - 1;
    (0..last)
        .find(|&i| x < scale * certificate.cut_of(l, i))
        .unwrap_or(last)
}

// The number so far with one link more: times the link's interval count, plus its interval.
pub fn with_link(cell: usize, count: usize, i: usize) -> usize
    requires { cell * count + i ≤ max_cells }
    ensures { result ≡ cell * count + i }
{
    cell * count + i
}

// The number of the cell, the last link fastest.
pub fn cell_at(certificate: &Certificate<'_>, queues: &[u32], scale: u32) -> usize
    requires { (length queues.now ≡ links_of certificate.now.bytes.now) × (scale ≤ max_scale) × QueuesFit certificate.now.bytes.now scale queues.now }
    ensures { (result ≡ cell_at certificate.now.bytes.now scale (λ l. get_or queues.now l 0)) × (result < cells_of certificate.now.bytes.now) }
{
    let mut cell = 0;
    for (l, &x) in queues.iter().enumerate() {
        let i = interval_at(certificate, l, scale as usize, x as usize);
        cell = with_link(cell, certificate.intervals_of(l), i);
    }
    cell
}
