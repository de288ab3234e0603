// The limits of the format, and the sizes of its records.
pub const MAX_LINKS: usize = 8;

pub const MAX_TURNS: usize = 32;

pub const MAX_SIGNALS: usize = 16;

pub const MAX_MODES: usize = 8;

pub const MAX_BOXES: usize = 8;

pub const MAX_ENTRIES: usize = 4096;

pub const MAX_CAP: usize = 10000;

// In hundredths: of a share, and of all shares from one link.
pub const MAX_SHARE: usize = 100;

pub const MAX_PULL: usize = 10000;

// Of the sum of share × pull over the turns into a link (condition 10).
pub const MAX_PULL_SUM: usize = 10000;

pub const MAX_ARRIVAL: usize = 10000;

pub const MAX_INTERVALS: usize = 15;

pub const MAX_CELLS: usize = 4096;

pub const MAX_GOAL_NUMBER: usize = 7;

pub const HEADER_SIZE: usize = 9;

// LK of HD, and of H2 and H3, the greatest.
pub const PLAIN_LINK_SIZE: usize = 12;

pub const MAX_LINK_SIZE: usize = 14;

pub const TURN_SIZE: usize = 7;

pub const SIGNAL_SIZE: usize = 3;

// MD of H2, and the greatest of H3.
pub const PLAIN_MODE_SIZE: usize = 3;

pub const MAX_MODE_SIZE: usize = 4 + 2 * MAX_LINKS;

pub const ENTRY_SIZE: usize = 9;

pub const END_SIZE: usize = 2;

// The greatest length of a certificate: the sum of its greatest records HD, LK, TN, SG, MD, GR, AR, EN, ZZ.
pub const MAX_LENGTH: usize = HEADER_SIZE
    + MAX_LINKS * MAX_LINK_SIZE
    + MAX_TURNS * TURN_SIZE
    + MAX_SIGNALS * SIGNAL_SIZE
    + MAX_MODES * MAX_MODE_SIZE
    + MAX_LINKS * (1 + 2 * MAX_INTERVALS)
    + MAX_BOXES * (2 + 4 * MAX_LINKS)
    + MAX_ENTRIES * ENTRY_SIZE
    + END_SIZE;

// The scales that a query may use: 1 to this.
pub const MAX_SCALE: u32 = 100000;
