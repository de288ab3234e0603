// Which cells lie in the ranges: their intervals lie in the range first .. last of every link. They come in runs of consecutive cells: the
// intervals of the range of the run link, and all those of the links after it.
ghost use Rattle.std.specs.Prelude.{◌≡◌, ◌<◌};
ghost use Rattle.certificate.specs.Layout.{cells_of};
ghost use Rattle.cell_tables.specs.Tables.{CountsOf, DigitsOf};
ghost use Rattle.successors.specs.Ranges.{Bounded, FullAfter, in_ranges};

use crate::ranges::Ranges;
use cell_tables::digits;
use certificate::limits;
use reading::Certificate;

// The run link: every link after it has its full range.
pub fn run_link(
    certificate: &Certificate<'_>,
    counts: &[usize; limits::MAX_LINKS],
    ranges: &Ranges,
) -> usize
    requires { CountsOf certificate.now.bytes.now counts.now × Bounded certificate.now.bytes.now ranges.now }
    ensures { FullAfter certificate.now.bytes.now ranges.now result }
{
    for k in (1..certificate.layout.links).rev() {
        if ranges.first[k] != 0 || ranges.last[k] + 1 != counts[k] {
            return k;
        }
    }
    0
}

// Whether a cell lies in the ranges, by its intervals in the table.
pub fn in_ranges(
    certificate: &Certificate<'_>,
    digits: &[u8; digits::DIGITS],
    ranges: &Ranges,
    cell: usize,
) -> bool
    requires { DigitsOf certificate.now.bytes.now digits.now × (cell < cells_of certificate.now.bytes.now) }
    ensures { result ≡ in_ranges certificate.now.bytes.now ranges.now cell }
{
    (0..certificate.layout.links).all(|l| {
        let i = digits::interval_in(certificate, digits, cell, l);
        ranges.first[l] <= i && i <= ranges.last[l]
    })
}
