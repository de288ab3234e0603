// The roadside unit: the calls of a street cabinet's C program, on numbers and byte slices. Each is thin: it lends what it is lent to a proved call
// and answers one number of 64 bits, so that a refusal changes no lent byte.
#![tactic(auto)]

ghost use Rattle.held_state.specs.Held.{Displayed};
ghost use Rattle.roadside.specs.Calls.{FreshCall, LoadCall, QueryCall, polled_for, PollCall};

use certificate::limits;
use held_state::Display;

// The fresh state's bytes into a slice of their length; any other length gets 18, and no byte changes.
#[unsafe(no_mangle)]
pub extern "C" fn roadside_fresh(state: &mut [u8]) -> u64
    ensures { FreshCall state.old state.new result }
{
    u64::from(held_state::fresh(state).number)
}

// Loads any bytes into the state that the first slice holds; every run of an accepted certificate keeps the run claim.
#[unsafe(no_mangle)]
pub extern "C" fn roadside_load(state: &mut [u8], bytes: &[u8]) -> u64
    ensures { LoadCall bytes.now state.old state.new result }
{
    answer_words::verdict_word(held_state::load(state, bytes))
}

// What the state that is held shows for queues over a scale, and the next state. Queues are four bytes each.
#[unsafe(no_mangle)]
pub extern "C" fn roadside_query(state: &mut [u8], queues: &[u8], scale: u32) -> u64
    ensures { QueryCall queues.now scale state.old state.new result }
{
    let mut of = [0; limits::MAX_LINKS];
    let queues = answer_words::read_queues(queues, &mut of);
    answer_words::display_word(held_state::query(state, queues, scale))
}

// The poll of a state that is lent as bytes. Any other length of the state gets 18, and a refusal leaves its bytes as they were.
fn poll_held(state: &mut [u8], bytes: &[u8]) -> Display
    ensures { Displayed (polled_for state.old bytes.now) state.old state.new result }
{
    if !packed_state::has_state_size(state) {
        return held_state::no_state();
    }
    let held = packed_state::unpack(state);
    let outcome = polling::ask(&held.bytes, held.len, held.mode, bytes);
    held_state::show(outcome, state)
}

// What the state that is held shows for a poll, and the next state.
#[unsafe(no_mangle)]
pub extern "C" fn roadside_poll(state: &mut [u8], poll: &[u8]) -> u64
    ensures { PollCall poll.now state.old state.new result }
{
    answer_words::display_word(poll_held(state, poll))
}
