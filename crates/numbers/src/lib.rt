// The numbers that an entry can give, and the largest side: document 01's table.
#![tactic(auto)]

mod refusal;

pub use refusal::{Refusal, number};

// The number of an answer that is done.
pub const DONE: u8 = 0;

pub const LIMIT: u32 = 16384;
