// The numbers of a job's records: document 01, "Jobs".
// The kinds.
pub const PAPER: u16 = 1;

pub const RECTANGLE: u16 = 2;

pub const IMAGE: u16 = 3;

pub const MARGIN: u16 = 4;

pub const FLIP: u16 = 5;

// A record's length has 4 bytes, and its kind 2; the body follows them.
pub const LENGTH_SIZE: usize = 4;

pub const KIND_SIZE: usize = 2;

pub const HEAD_SIZE: usize = 6;

// Bytes of a body: W and a colour.
pub const PAPER_SIZE: usize = 8;

// x, y, w, h, a colour and a mode.
pub const RECTANGLE_SIZE: usize = 21;

// x, y, w, h, two stretches, a colour and a mode. The bit rows follow them.
pub const IMAGE_SIZE: usize = 23;

// A number of rows.
pub const MARGIN_SIZE: usize = 4;

// x, y, w, h.
pub const FLIP_SIZE: usize = 16;

// The modes: 0 blends.
pub const MULTIPLY: u8 = 1;

// Where the commands of a sound job start: past the paper's head and body.
pub const COMMANDS_START: usize = 14;

// No job may have more.
pub const MOST_COMMANDS: usize = 64;
