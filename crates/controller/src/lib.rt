// The controller: a state that holds one certificate and a mode, and the calls load, query and write.
#![tactic(auto)]

ghost use Rattle.std.specs.Prelude.{◌≡◌};
ghost use Rattle.controller.specs.Limits.{format_limits};
ghost use Rattle.controller.specs.State.{fresh_state};

use certificate::{Report, limits};

mod loading;
mod querying;
mod writing;

// The state by value: how many bytes the stored certificate has, the array that holds them, and the mode. The order is one of speed: copies of
// the state took longest with the array first.
#[derive(Clone, Copy)]
pub struct Controller {
    pub len: usize,
    pub bytes: [u8; Controller::SIZE],
    pub mode: u8,
}

// The limits of the format, by name.
#[derive(Clone, Copy)]
pub struct Limits {
    pub links: usize,
    pub turns: usize,
    pub signals: usize,
    pub modes: usize,
    pub boxes: usize,
    pub entries: usize,
    pub intervals: usize,
    pub cells: usize,
    pub cap: usize,
    pub share: usize,
    pub pull: usize,
    // of a pull sum
    pub pulls: usize,
    pub arrival: usize,
    // of a goal number
    pub goals: usize,
    pub length: usize,
    pub scale: u32,
}

impl Controller {
    // The limits of the format.
    pub const MAX_LINKS: usize = limits::MAX_LINKS;

    pub const MAX_TURNS: usize = limits::MAX_TURNS;

    pub const MAX_SIGNALS: usize = limits::MAX_SIGNALS;

    pub const MAX_MODES: usize = limits::MAX_MODES;

    pub const MAX_BOXES: usize = limits::MAX_BOXES;

    pub const MAX_ENTRIES: usize = limits::MAX_ENTRIES;

    pub const MAX_INTERVALS: usize = limits::MAX_INTERVALS;

    pub const MAX_CELLS: usize = limits::MAX_CELLS;

    pub const MAX_CAP: usize = limits::MAX_CAP;

    pub const MAX_SHARE: usize = limits::MAX_SHARE;

    pub const MAX_PULL: usize = limits::MAX_PULL;

    pub const MAX_PULL_SUM: usize = limits::MAX_PULL_SUM;

    pub const MAX_ARRIVAL: usize = limits::MAX_ARRIVAL;

    pub const MAX_GOAL_NUMBER: usize = limits::MAX_GOAL_NUMBER;

    // The greatest length of a certificate.
    pub const SIZE: usize = limits::MAX_LENGTH;

    // The scales that a query may use: 1 to this.
    pub const MAX_SCALE: u32 = limits::MAX_SCALE;

    // All of them in one value, so that each is proved to be the definition's.
    pub fn limits() -> Limits
        ensures { result ≡ format_limits }
    {
        Limits {
            links: Controller::MAX_LINKS,
            turns: Controller::MAX_TURNS,
            signals: Controller::MAX_SIGNALS,
            modes: Controller::MAX_MODES,
            boxes: Controller::MAX_BOXES,
            entries: Controller::MAX_ENTRIES,
            intervals: Controller::MAX_INTERVALS,
            cells: Controller::MAX_CELLS,
            cap: Controller::MAX_CAP,
            share: Controller::MAX_SHARE,
            pull: Controller::MAX_PULL,
            pulls: Controller::MAX_PULL_SUM,
            arrival: Controller::MAX_ARRIVAL,
            goals: Controller::MAX_GOAL_NUMBER,
            length: Controller::SIZE,
            scale: Controller::MAX_SCALE,
        }
    }

    // The fresh state: mode 0, and no certificate.
    pub fn fresh() -> Controller
        ensures { result ≡ fresh_state }
    {
        Controller {
            bytes: [0u8; Controller::SIZE],
            len: 0,
            mode: 0,
        }
    }
}

// What a load answers: its report, the next state, and in an acceptance the number of entries that may turn arrivals away.
#[derive(Clone, Copy)]
pub struct Loaded {
    pub report: Report,
    pub state: Controller,
    pub overflows: u32,
}

// What a query answers: its report, the signal to show and its green byte, and the next state.
#[derive(Clone, Copy)]
pub struct Shown {
    pub report: Report,
    pub signal: u8,
    pub green: u8,
    pub state: Controller,
}
