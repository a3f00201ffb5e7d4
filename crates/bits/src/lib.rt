// Rows of bits as dots of a lent buffer: eight dots at a time, or bit by bit where each is stretched.
// Inner steps, each over dots and bits that its caller knows to be there.
#![tactic(auto)]

mod bit;
mod row;
mod stamp;
mod unpack;

pub use row::{BitBrush, draw_bits};
pub use stamp::Stamp;
pub use unpack::Put;
