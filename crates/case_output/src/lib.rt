// How the line of a call begins, and the buffer that a write is lent.
#![tactic(auto)]

ghost use Rattle.std.specs.Prelude.{Some};
ghost use Rattle.case_output.specs.Lines.{answer_text};

pub mod buffer;

use certificate::Report;
use std::fmt;

// The name of a call and its report, as a line begins with them.
#[derive(Clone, Copy)]
pub struct Answer<'a>(pub &'a str, pub Report);

impl fmt::Display for Answer<'_> {
    ghost output = { λ a. Some (answer_text a.0.now a.1) };

    fn fmt<W: fmt::Write>(&self, f: &mut fmt::Formatter<W>) -> fmt::Result {
        let Answer(call, report) = *self;
        let Report {
            number,
            a,
            b,
            count,
        } = report;
        write!(f, "{call} {number} {a} {b} {count}")
    }
}
