// Images of one colour: what their data say, and their dots put on an output or blended onto it.
// Inner steps of decoding, jobs and plans.
#![tactic(auto)]

mod formats;
mod scale;
mod sizes;

pub use formats::{Format, raster_of};
pub use scale::{Image, Source, decode_single_color};
pub use sizes::{bytes_of, factor_of, is_large};
