// The search through an entry's successors.
ghost use Rattle.std.specs.Prelude.{◌≡◌, ℕ, ◌+◌, ◌*◌, ◌<◌, ◌≤◌, length, get_or, IfOk};
ghost use Rattle.std.specs.Option.{IfSome};
ghost use Rattle.certificate.specs.Layout.{max_boxes, max_cells, cells_of, next_mode_of};
ghost use Rattle.octets.specs.Refusals.{told, told_after};
ghost use Rattle.rank_tables.specs.Index.{rank_at};
ghost use Rattle.judging.specs.EntryTests.{successor_fault, accepted};
ghost use Rattle.judging.specs.Overflow.{entry_overflows};
ghost use Rattle.successors.specs.Ranges.{Bounded};
ghost use Rattle.entry_setup.specs.Bytes.{bytes_of};
ghost use Rattle.entry_setup.specs.Tables.{EntryEnds};
ghost use Rattle.entry_search.specs.Search.{BoxRanges, RunsFit, box_alone, boxes_from, column_passing, passes, run_passing, runs_passing};

use crate::boxes;
use certificate::limits;
use entry_setup::Entry;
use images::ends::Ends;
use octets::refusals::{self, Refusal, Refused};
use successors::ranges::Ranges;
use successors::{seek, starts};

// What the table of ranks has for successor d: its rank raised by one, 0 where it is not listed with the next mode.
fn rank_at(entry: &Entry<'_>, d: usize) -> u32
    requires { d < cells_of (bytes_of entry.now.tables.now) }
    ensures { result ≡ rank_at (bytes_of entry.now.tables.now) d (next_mode_of (bytes_of entry.now.tables.now) entry.now.number) }
{
    entry.tables.ranks[entry.row + d]
}

// Successor d, as the last of so many that are looked up: refused where it is not listed with the next mode, or its rank is not lower.
fn check_successor(entry: &Entry<'_>, d: usize, count: u32) -> Result<(), Refused>
    requires { d < cells_of (bytes_of entry.now.tables.now) }
    ensures { told result ≡ successor_fault (bytes_of entry.now.tables.now) entry.now.number d count }
{
    let v = rank_at(entry, d);
    if v == 0 {
        return Err(refusals::refuse_at(Refusal::Unlisted, entry.number, d, count));
    }
    if v > entry.bound {
        return Err(refusals::refuse_at(Refusal::NotLower, entry.number, d, count));
    }
    Ok(())
}

// Whether successor d passes: the same test, in the form that is quickest for many in a row.
fn passes(entry: &Entry<'_>, d: usize) -> bool
    requires { d < cells_of (bytes_of entry.now.tables.now) }
    ensures { result ≡ passes (bytes_of entry.now.tables.now) entry.now.number d }
{
    let v = rank_at(entry, d);
    (v != 0) & (v <= entry.bound)
}

// How many of the cells first .. first + size - 1 pass. This loop and the next are not left early, so that the compiler may look several up
// at once. They stay loops: a filter and its count take three times as many instructions.
fn run_passed(entry: &Entry<'_>, first: usize, size: usize) -> u32
    requires { first + size ≤ cells_of (bytes_of entry.now.tables.now) }
    ensures { result ≡ run_passing (bytes_of entry.now.tables.now) entry.now.number first size }
{
    let mut passed = 0;
    for j in 0..size {
        passed += u32::from(passes(entry, first + j));
    }
    passed
}

// How many of the runs have a cell number j that passes.
fn column_passed(entry: &Entry<'_>, runs: &[u16], j: usize) -> u32
    requires { (length runs.now ≤ max_cells) × ((i : ℕ) → i < length runs.now → get_or runs.now i 0 + j < cells_of (bytes_of entry.now.tables.now)) }
    ensures { result ≡ column_passing (bytes_of entry.now.tables.now) entry.now.number runs.now j }
{
    let mut passed = 0;
    for &run in runs {
        passed += u32::from(passes(entry, usize::from(run) + j));
    }
    passed
}

// How many cells of short runs pass: the first cells of all runs, then the second, and so on.
fn short_runs(entry: &Entry<'_>, runs: &[u16], size: usize) -> u32
    requires { RunsFit runs.now size (cells_of (bytes_of entry.now.tables.now)) }
    ensures { result ≡ runs_passing (bytes_of entry.now.tables.now) entry.now.number runs.now size }
{
    let mut passed = 0;
    for j in 0..size {
        passed += column_passed(entry, runs, j);
    }
    passed
}

// How many cells of long runs pass, run by run.
fn long_runs(entry: &Entry<'_>, runs: &[u16], size: usize) -> u32
    requires { RunsFit runs.now size (cells_of (bytes_of entry.now.tables.now)) }
    ensures { result ≡ runs_passing (bytes_of entry.now.tables.now) entry.now.number runs.now size }
{
    let mut passed = 0;
    for &first in runs {
        passed += run_passed(entry, usize::from(first), size);
    }
    passed
}

// A run of so many cells is looked up by itself.
const LONG_RUN: usize = 16;

// How many cells of all runs pass.
fn runs_passed(entry: &Entry<'_>, runs: &[u16], size: usize) -> u32
    requires { RunsFit runs.now size (cells_of (bytes_of entry.now.tables.now)) }
    ensures { result ≡ runs_passing (bytes_of entry.now.tables.now) entry.now.number runs.now size }
{
    if size < LONG_RUN {
        short_runs(entry, runs, size)
    } else {
        long_runs(entry, runs, size)
    }
}

// The successors of a box looked up as a whole, in no order: where all of them pass, how many they are. `runs` is room for the starts of their
// runs.
fn whole_box(entry: &Entry<'_>, ranges: &Ranges, runs: &mut [u16; limits::MAX_CELLS]) -> Option<u32>
    requires { Bounded (bytes_of entry.now.tables.now) ranges.now }
    ensures few { IfSome result (λ n. n ≤ max_cells) }
    ensures passed { (b : ℕ) → BoxRanges (bytes_of entry.now.tables.now) entry.now.number b ranges.now → IfSome result (λ n. (m : ℕ) → box_alone (bytes_of entry.now.tables.now) entry.now.number b m ≡ accepted (m + n)) }
{
    let tables = entry.tables;
    let found = starts::runs_of(tables.certificate, tables.counts, ranges, runs);
    let passed = runs_passed(entry, &runs[..found.count], found.size);
    if passed as usize == found.count * found.size {
        Some(passed)
    } else {
        None
    }
}

// What the search of an entry finds where it refuses no successor: the lookups so far, and whether some link may exceed its cap in some box.
#[derive(Clone, Copy)]
pub struct Searched {
    pub count: u32,
    pub over: bool,
}

// The nested search of an entry: arrival boxes ascending and successor cells ascending, left by the label at the first unlisted or not lower
// successor. Each lookup is counted, the refused one too; a box of which every successor passes is counted as it is looked up as a whole.
// `ends` has the ends of the entry's image before arrivals, `count` is the lookups before it; `runs` is room for the starts of the runs of a
// box.
pub fn search_boxes(
    entry: &Entry<'_>,
    ends: &Ends,
    runs: &mut [u16; limits::MAX_CELLS],
    count: u32,
) -> Result<Searched, Refused>
    requires { EntryEnds (bytes_of entry.now.tables.now) entry.now.number ends.now × (count ≤ max_boxes * max_cells * entry.now.number) }
    ensures { (told_after (λ r. r.count) result ≡ boxes_from (bytes_of entry.now.tables.now) entry.now.number 0 count) × ((told_after (λ r. r.count) result).count ≤ max_boxes * max_cells * (entry.now.number + 1)) × IfOk result (λ r. r.over ≡ entry_overflows (bytes_of entry.now.tables.now) entry.now.number) }
{
    let tables = entry.tables;
    let mut searched = Searched { count, over: false };
    let mut refused = None;
    let mut ranges = Ranges {
        first: [0; limits::MAX_LINKS],
        last: [0; limits::MAX_LINKS],
    };
    'search: for b in 0..tables.certificate.layout.boxes {
        let exceeds = boxes::box_ranges(entry, ends, b, &mut ranges);
        searched.over |= exceeds;
        if let Some(passed) = whole_box(entry, &ranges, runs) {
            searched.count += passed;
            continue;
        }
        for d in 0..tables.certificate.layout.cells {
            if seek::in_ranges(tables.certificate, tables.digits, &ranges, d) {
                searched.count += 1;
                if let Err(e) = check_successor(entry, d, searched.count) {
                    refused = Some(e);
                    break 'search;
                }
            }
        }
    }
    match refused {
        Some(e) => Err(e),
        None => Ok(searched),
    }
}
