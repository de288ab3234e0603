// The interval of each link in each cell, eight a cell, counted up from one cell to the next: the last link counts fastest.
ghost use Rattle.std.specs.Prelude.{◌≡◌, ◌+◌, ◌*◌, ◌<◌};
ghost use Rattle.certificate.specs.Layout.{max_intervals, links_of, intervals_of, cells_of};
ghost use Rattle.grid.specs.Cells.{interval_in};
ghost use Rattle.octets.specs.Tables.{Holds};
ghost use Rattle.cell_tables.specs.Tables.{CountsOf, DigitsOf};

use certificate::limits;
use reading::Certificate;

// One for each link that a cell may have, for each cell.
pub const DIGITS: usize = limits::MAX_LINKS * limits::MAX_CELLS;

// Passes from the intervals of a cell to those of the next: the interval of the last link goes up by one; where it was the link's last
// interval, it is 0 again and the link before goes up, and so on.
fn count_up(
    certificate: &Certificate<'_>,
    counts: &[usize; limits::MAX_LINKS],
    cell: usize,
    intervals: &mut [u8; limits::MAX_LINKS],
)
    requires { CountsOf certificate.now.bytes.now counts.now × Holds (links_of certificate.now.bytes.now) (interval_in certificate.now.bytes.now cell) intervals.old }
    ensures { Holds (links_of certificate.now.bytes.now) (interval_in certificate.now.bytes.now (cell + 1)) intervals.new }
{
    for l in (0..certificate.layout.links).rev() {
        let i = intervals[l] + 1;
        if usize::from(i) < counts[l] {
            intervals[l] = i;
            return;
        }
        intervals[l] = 0;
    }
}

// Fills the table, cell by cell.
pub fn fill_digits(
    certificate: &Certificate<'_>,
    counts: &[usize; limits::MAX_LINKS],
    digits: &mut [u8; DIGITS],
)
    requires { CountsOf certificate.now.bytes.now counts.now }
    ensures { DigitsOf certificate.now.bytes.now digits.new }
{
    let mut intervals = [0u8; limits::MAX_LINKS];
    for c in 0..certificate.layout.cells {
        let at = limits::MAX_LINKS * c;
        digits[at..at + limits::MAX_LINKS].copy_from_slice(&intervals);
        count_up(certificate, counts, c, &mut intervals);
    }
}

// The interval of link l in a cell, from the table.
pub fn interval_in(
    certificate: &Certificate<'_>,
    digits: &[u8; DIGITS],
    cell: usize,
    l: usize,
) -> usize
    requires { DigitsOf certificate.now.bytes.now digits.now × (cell < cells_of certificate.now.bytes.now) × (l < links_of certificate.now.bytes.now) }
    ensures { (result ≡ interval_in certificate.now.bytes.now cell l) × (result < intervals_of certificate.now.bytes.now l) × (result < max_intervals) }
{
    usize::from(digits[limits::MAX_LINKS * cell + l])
}
