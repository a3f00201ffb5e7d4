// The boundary for C and Rust: each function is one call, and says what the function that it
// exports says, of its number where that answers a Result. Colours and canvas records cross by value,
// as C's structs.
#![tactic(auto)]

pub mod canvas;
pub mod colours;
pub mod decoders;
pub mod draw;
pub mod jobs;
