// Whole pictures of dots, moved within a lent buffer or written to a second one. Inner steps, each
// over buffers that its caller knows to be long enough.
#![tactic(auto)]

mod copy;
mod lower;
mod rgb;
mod run;
mod turned;
mod turning;
mod widening;

pub use copy::{copy_dots, copy_run};
pub use lower::move_down;
pub use rgb::rgb_bytes;
pub use run::move_run;
pub use turned::Turn;
pub use turning::turn;
pub use widening::widen;
