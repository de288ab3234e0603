// The answer of a comparison, put together and taken apart.
ghost use Rattle.std.specs.Prelude.{◌≡◌};
ghost use Rattle.covering.specs.Comparing.{better_of, report_of, better_number};

use certificate::Report;
use covering::Comparison;

// The answer by which of the two covers the other.
pub fn better(first: bool, second: bool) -> Comparison
    ensures { result ≡ better_of first second }
{
    match (first, second) {
        (true, true) => Comparison::Equal,
        (true, false) => Comparison::First,
        (false, true) => Comparison::Second,
        (false, false) => Comparison::Neither,
    }
}

// Its number, places and count.
pub fn report_of(found: Comparison) -> Report
    ensures { result ≡ report_of found }
{
    match found {
        Comparison::Refused(report) => report,
        _ => octets::accept(),
    }
}

// Which of the two is better, as a number: 1 each of them, 2 the first, 3 the second, 4 neither; 0 with a refusal.
pub fn better_number(found: Comparison) -> u32
    ensures { result ≡ better_number found }
{
    match found {
        Comparison::Equal => 1,
        Comparison::First => 2,
        Comparison::Second => 3,
        Comparison::Neither => 4,
        Comparison::Refused(_) => 0,
    }
}
