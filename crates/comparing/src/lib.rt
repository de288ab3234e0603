// Which of two certificates of one network is better (document 02, 8/14).
#![tactic(auto)]

ghost use Rattle.std.specs.Prelude.{◌≡◌};
ghost use Rattle.covering.specs.Covering.{covers};
ghost use Rattle.covering.specs.Comparing.{better_of, comparison_of, report_of, compared_report};

pub mod answers;
mod front;
mod matching;

use covering::Comparison;
use reading::Certificate;

// Whether s covers t.
fn covers_other(s: &Certificate<'_>, t: &Certificate<'_>) -> bool
    ensures { result ≡ covers s.now.bytes.now t.now.bytes.now }
{
    front::same_front(s, t) && matching::all_matched(s, t)
}

// Which of two accepted certificates is better.
fn compare_accepted(s: &Certificate<'_>, t: &Certificate<'_>) -> Comparison
    ensures { result ≡ better_of (covers s.now.bytes.now t.now.bytes.now) (covers t.now.bytes.now s.now.bytes.now) }
{
    answers::better(covers_other(s, t), covers_other(t, s))
}

// Which of two certificates is better, or the refusal of the first that is not accepted. The answer is a `Comparison` and no `Result`: the
// definition and the theorems of document 02, 8/14 are about that type.
pub fn compare(s: &[u8], t: &[u8]) -> Comparison
    ensures { (result ≡ comparison_of s.now t.now) × (report_of result ≡ compared_report s.now t.now) }
{
    let first = match verdict::judge_with_layout(s) {
        Ok(judged) => judged.certificate,
        Err(e) => return Comparison::Refused(e.into()),
    };
    let second = match verdict::judge_with_layout(t) {
        Ok(judged) => judged.certificate,
        Err(f) => return Comparison::Refused(f.into()),
    };
    compare_accepted(&first, &second)
}
