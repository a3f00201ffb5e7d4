// Dots of a lent byte buffer: dot i is the four bytes r, g, b, a from 4·i. Inner steps, each over
// the whole buffer and dots that its caller knows to lie in it.
#![tactic(auto)]

mod brush;
mod dot;
mod draw;
mod fill;
mod mix;
mod multiply;

pub use brush::Brush;
pub use dot::{get_dot, load_dot, set_dot, store_dot};
pub use draw::{Pen, TABLE_DOTS, covers, draw_run, needs_tables};
pub use fill::{Fill, fill_run};
pub use mix::{Mix, mix_byte, mix_factors, mix_terms};
pub use multiply::{Tables, multiply_table, scale_byte};
