// The query of a state: what to show for given queues, and the state in the next mode.
ghost use Rattle.std.specs.Prelude.{◌≡◌};
ghost use Rattle.asking.specs.FoundEntries.{answer_of};
ghost use Rattle.controller.specs.Parts.{shown_by};
ghost use Rattle.controller.specs.Query.{query_of};

use crate::{Controller, Shown};
use asking::Found;
use certificate::Report;
use octets::refusals::Refused;

impl Controller {
    // What is found, shown with the state in the mode found; a refusal shows nothing and leaves the state as it was.
    pub fn show(mut self, outcome: Result<Found, Refused>) -> Shown
        ensures { result ≡ shown_by self (answer_of self.mode outcome) }
    {
        match outcome {
            Ok(found) => {
                self.mode = found.mode;
                Shown {
                    report: octets::accept(),
                    signal: found.signal,
                    green: found.green,
                    state: self,
                }
            }
            Err(refused) => Shown {
                report: Report::from(refused),
                signal: 0,
                green: 0,
                state: self,
            },
        }
    }

    // The signal to show for queues over a scale, and the state in the next mode; a refusal changes nothing.
    pub fn query(self, queues: &[u32], scale: u32) -> Shown
        ensures { result ≡ query_of self queues.now scale }
    {
        let outcome = asking::ask(&self.bytes, self.len, self.mode, queues, scale);
        self.show(outcome)
    }
}
