// Calls on a state that is lent as bytes. A slice of any other length than a state's gets 18, and a refusal leaves the bytes as they were.
#![tactic(auto)]

ghost use Rattle.std.specs.Prelude.{◌≡◌, length};
ghost use Rattle.certificate.specs.Checks.{refusal};
ghost use Rattle.asking.specs.FoundEntries.{answer_of};
ghost use Rattle.controller.specs.Parts.{shown_by};
ghost use Rattle.controller.specs.State.{fresh_state};
ghost use Rattle.controller.specs.Query.{refused};
ghost use Rattle.packed_state.specs.State.{state_size, held_in};
ghost use Rattle.held_state.specs.Held.{shown_for, display_of, HeldFresh, HeldLoad, Displayed};

use asking::Found;
use certificate::Report;
use controller::{Controller, Shown};
use octets::refusals::{Refusal, Refused, refuse, require};
use verdict::Accepted;

// What is displayed for a query or a poll: its report, the signal to show and its green byte. All of it crosses to C, and the report is the one
// that the answer to show (`Shown`) has, so a refusal is no `Err` here.
#[derive(Clone, Copy)]
pub struct Display {
    pub report: Report,
    pub signal: u8,
    pub green: u8,
}

// What is displayed where the slice has another length: 18.
pub fn no_state() -> Display
    ensures { result ≡ display_of (refused fresh_state (refusal 18 0)) }
{
    Display {
        report: refuse(Refusal::NoCertificate, 0).into(),
        signal: 0,
        green: 0,
    }
}

// Keeps the answer's state in the lent slice, where the answer is no refusal; the rest is displayed.
pub fn keep(shown: &Shown, state: &mut [u8]) -> Display
    requires { length state.old ≡ state_size }
    ensures { Displayed shown.now state.old state.new result }
{
    let succeeds = shown.report.number == 0;
    if succeeds {
        packed_state::pack(&shown.state, state);
    }
    Display {
        report: shown.report,
        signal: shown.signal,
        green: shown.green,
    }
}

// What is found is displayed, and the lent state passes to the mode found; a refusal is displayed, and the state stays as it was. Nothing but the
// mode is written: copies of the state took most of the time of a query.
pub fn show(outcome: Result<Found, Refused>, state: &mut [u8]) -> Display
    requires { length state.old ≡ state_size }
    ensures { Displayed (shown_by (held_in state.old) (answer_of (held_in state.old).mode outcome)) state.old state.new result }
{
    match outcome {
        Ok(found) => {
            packed_state::pass(found.mode, state);
            Display {
                report: octets::accept(),
                signal: found.signal,
                green: found.green,
            }
        }
        Err(refused) => Display {
            report: refused.into(),
            signal: 0,
            green: 0,
        },
    }
}

// Makes the slice the fresh state. The report crosses to C.
pub fn fresh(state: &mut [u8]) -> Report
    ensures { HeldFresh state.old state.new result }
{
    if !packed_state::has_state_size(state) {
        return refuse(Refusal::NoCertificate, 0).into();
    }
    let next = Controller::fresh();
    packed_state::pack(&next, state);
    octets::accept()
}

// Loads any bytes. An accepted load keeps nothing of the state before, so that state is not unpacked.
pub fn load(state: &mut [u8], s: &[u8]) -> Result<Accepted, Refused>
    ensures { HeldLoad s.now state.old state.new result }
{
    require(
        packed_state::has_state_size(state),
        Refusal::NoCertificate,
        0,
    )?;
    let accepted = verdict::judge(s)?;
    packed_state::pack(&Controller::holding(s), state);
    Ok(accepted)
}

// What the state that is held shows for queues over a scale, and the next state.
pub fn query(state: &mut [u8], queues: &[u32], scale: u32) -> Display
    ensures { Displayed (shown_for state.old queues.now scale) state.old state.new result }
{
    if !packed_state::has_state_size(state) {
        return no_state();
    }
    let held = packed_state::unpack(state);
    let outcome = asking::ask(&held.bytes, held.len, held.mode, queues, scale);
    show(outcome, state)
}
