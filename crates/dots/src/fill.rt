// A run of dots of one colour.
ghost use Rattle.std.specs.Prelude.{◌≡◌, ◌+◌, ◌*◌, ◌≤◌, length};
ghost use Rattle.dots.specs.Dots.{change, within};

use super::brush::Brush;
use super::dot::set_dot;
use colour::RGBA;

// The colour comes as a parameter, so that the compiler keeps it as one word.
pub fn fill_run(buf: &mut [u8], at: usize, count: usize, c: RGBA)
    requires { (at + count) * 4 ≤ length buf.old }
    ensures { buf.new ≡ change (within at (at + count)) (λ _ _. c) buf.old }
{
    for i in at..at + count {
        set_dot(buf, i, c);
    }
}

// Covers what was there.
#[derive(Drop)]
pub struct Fill {
    pub color: RGBA,
}

impl Brush for Fill {
    ghost dot = { λ f _. f.color };

    fn draw_dots(&self, buf: &mut [u8], at: usize, count: usize) {
        fill_run(buf, at, count, self.color);
    }
}
