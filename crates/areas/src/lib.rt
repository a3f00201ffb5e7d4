// Areas of dots on a canvas that lies in a lent buffer, row by row. Inner steps, each over an area
// that its caller knows to lie on the canvas.
#![tactic(auto)]

mod area;
mod border;
mod draw;
mod flip;
mod put;

pub use area::Area;
pub use border::border_area;
pub use draw::draw_area;
pub use flip::flip_area;
pub use put::put_area;
