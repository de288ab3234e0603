// Runs the stored cases that standard input holds, and prints a line for each case and call.
// A case is the byte C and its calls (crate case_input); the byte E ends the stream.
#![tactic(auto)]

ghost use Rattle.case_input.specs.Limits.{IsWithinLimits};

use case_input::{Call, Item, Room};
use controller::Controller;
use std::io::{self, BufReader};

mod calls;

// A state made by hand: stored bytes, as many as there is room for, then zeros; its length; its mode.
fn made(bytes: &[u8], len: usize, mode: u8) -> Controller {
    let mut state = Controller::fresh();
    let n = bytes.len().min(Controller::SIZE);
    state.bytes[..n].copy_from_slice(&bytes[..n]);
    state.len = len;
    state.mode = mode;
    state
}

// Makes a call and prints its line. Writes and listings are lent a buffer.
fn answer(
    rt: &impl Print,
    state: &mut Controller,
    call: Call<'_>,
    lent: &mut [u8; case_input::MOST_LENT],
) -> io::Result<()>
    requires { IsWithinLimits call }
{
    match call {
        Call::Fresh => *state = Controller::fresh(),
        Call::State {
            bytes,
            length,
            mode,
        } => *state = made(bytes, length, mode),
        Call::Load(bytes) => calls::load(rt, state, bytes)?,
        Call::Query { scale, queues } => {
            calls::look_up(rt, "query", state, |state| state.query(queues, scale))?
        }
        Call::Poll(bytes) => {
            calls::look_up(rt, "poll", state, |state| polling::poll(state, bytes))?
        }
        Call::Write { size, start } => calls::write(rt, state, &mut lent[..size], start)?,
        Call::List(bytes) => calls::list(rt, bytes, lent)?,
        Call::Compare { first, second } => calls::compare(rt, first, second)?,
    }
    Ok(())
}

fn main(rt: HostRuntime) -> io::Result<()> {
    let mut input = BufReader::new(rt.alloc(), rt.reader())?;
    let mut room = Room {
        bytes: [0; case_input::MOST_BYTES],
        queues: [0; case_input::MOST_QUEUES],
    };
    let mut lent = [0u8; case_input::MOST_LENT];
    let mut state = Controller::fresh();
    let mut cases = 0u64;
    for _ in 0..u64::MAX {
        match case_input::read_item(&mut input, &mut room)? {
            Some(Item::Case) => {
                println!(rt; "case {cases}")?;
                cases = cases.wrapping_add(1);
                state = Controller::fresh();
            }
            Some(Item::Call(call)) => answer(&rt, &mut state, call, &mut lent)?,
            Some(Item::End) => return Ok(()),
            None => return println!(rt; "the stream is broken"),
        }
    }
    Ok(())
}
