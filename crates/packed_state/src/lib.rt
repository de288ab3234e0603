// The state as bytes: the stored array, the length in eight bytes (high byte first), the mode.
#![tactic(auto)]

ghost use Rattle.std.specs.Prelude.{◌≡◌, length};
ghost use Rattle.controller.specs.State.{in_mode};
ghost use Rattle.packed_state.specs.State.{state_size, has_state_size, held_in, state_bytes};

use controller::Controller;

// Where the mode stands, behind the array and the eight bytes of the length.
const MODE_AT: usize = Controller::SIZE + 8;

// The bytes of a state.
const STATE_SIZE: usize = MODE_AT + 1;

// A slice has as many bytes as a state.
pub fn has_state_size(state: &[u8]) -> bool
    ensures { result ≡ has_state_size state.now }
{
    state.len() == STATE_SIZE
}

// The state that a lent slice holds.
pub fn unpack(state: &[u8]) -> Controller
    requires { length state.now ≡ state_size }
    ensures { result ≡ held_in state.now }
{
    let (bytes, tail) = state.split_first_chunk().unwrap();
    let len = tail.first_chunk().unwrap();
    Controller {
        bytes: *bytes,
        len: usize::from_be_bytes(*len),
        mode: state[MODE_AT],
    }
}

// The state's bytes into a lent slice.
pub fn pack(c: &Controller, state: &mut [u8])
    requires { length state.old ≡ state_size }
    ensures { state.new ≡ state_bytes c.now }
{
    state[..Controller::SIZE].copy_from_slice(&c.bytes);
    state[Controller::SIZE..MODE_AT].copy_from_slice(&c.len.to_be_bytes());
    state[MODE_AT] = c.mode;
}

// The state that a lent slice holds passes to a mode: no other byte of it changes.
pub fn pass(mode: u8, state: &mut [u8])
    requires { length state.old ≡ state_size }
    ensures { state.new ≡ state_bytes (in_mode (held_in state.old) mode) }
{
    state[MODE_AT] = mode;
}
