// Drawing on the canvas, as in the Rust's thermal_image.rs: puts, rectangles, images, flips and
// the border. A refusal hands the canvas back as it was given, and writes to no buffer.
#![tactic(auto)]

mod border;
mod flip;
mod put;
mod rect;

pub use border::draw_border;
pub use flip::flip_pixels;
pub use put::{put_pixels, put_render_img};
pub use rect::{draw_rect, put_rect};
