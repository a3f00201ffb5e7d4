// Where drawing lands on the canvas: what cropping leaves, the height that it comes to, and what it
// is refused for, from the record, sizes and lengths alone. Inner steps, which take any numbers.
#![tactic(auto, using(std::proofs::lemmas::Bool::Decides::nat_tests), unfolding(crate::specs::Places::cropped, crate::specs::Places::crop_wide, crate::specs::Places::crop_tall, crate::specs::Places::flips, crate::specs::Places::image_tall, crate::specs::Places::flip_tall, crate::specs::Places::tall_after, crate::specs::Places::length_refusal, crate::specs::Places::many_refusal))]

mod border;
mod flip;
mod rect;
mod rules;
mod sizes;

pub use border::border_refusal;
pub use flip::flip_refusal;
pub use rect::rect_refusal;
pub use rules::place_refusal;
pub use sizes::{Crop, crop_pixels, flip_tall, flips, image_tall, tall_after};
