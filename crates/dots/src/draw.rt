// A run of dots under a colour, blending or multiplying.
ghost use Rattle.std.specs.Prelude.{◌≡◌, true, ◌+◌, ◌*◌, ◌≤◌, ◌<◌, length};
ghost use Rattle.dots.specs.Dots.{change, within, drawn};
ghost use Rattle.dots.specs.Tables.{needs_tables, covers};

use super::brush::Brush;
use super::dot::{get_dot, set_dot};
use super::fill::fill_run;
use super::mix::{Mix, mix_factors, mix_terms};
use super::multiply::{Tables, multiply_dot};
use colour::RGBA;

fn draw_dot(s: RGBA, multiply: bool, c: RGBA) -> RGBA
    requires { 0 < c.a }
    ensures { result ≡ drawn multiply c s }
{
    if multiply {
        return multiply_dot(s, c);
    }
    s.blend_foreground(c)
}

// Draws dot by dot, with nothing made beforehand.
#[derive(Drop)]
pub struct Pen {
    pub color: RGBA,
    pub multiply: bool,
    ghost some: { 0 < color.a },
}

impl Brush for Pen {
    ghost dot = { λ p s. drawn p.multiply p.color s };

    fn draw_dots(&self, buf: &mut [u8], at: usize, count: usize) {
        // Taken before the loop: behind `self` both would be read again for each dot.
        let color = self.color;
        let multiply = self.multiply;
        for i in at..at + count {
            let s = get_dot(buf, i);
            let d = draw_dot(s, multiply, color);
            set_dot(buf, i, d);
        }
    }
}

// From this many dots on, making the tables of a colour and going by them is sooner done than the
// dots one by one.
pub const TABLE_DOTS: usize = 128;

// The same for the arrays of 16-bit numbers.
const LANE_DOTS: usize = 8;

// Multiplying below full alpha outgrows 16-bit numbers. It goes by tables, where there are many dots.
pub fn needs_tables(c: RGBA, multiply: bool) -> bool
    ensures { result ≡ needs_tables multiply c }
{
    multiply && c.a != RGBA::OPAQUE
}

// An opaque colour that is blended covers what was there.
pub fn covers(c: RGBA, multiply: bool) -> bool
    ensures { result ≡ covers multiply c }
{
    !multiply && c.a == RGBA::OPAQUE
}

fn multiply_some(buf: &mut [u8], at: usize, count: usize, c: RGBA)
    requires { ((at + count) * 4 ≤ length buf.old) × (0 < c.a) }
    ensures { buf.new ≡ change (within at (at + count)) (λ _ s. drawn true c s) buf.old }
{
    if count < TABLE_DOTS {
        let pen = Pen {
            color: c,
            multiply: true,
        };
        pen.draw_dots(buf, at, count);
        return;
    }
    Tables::of(c).draw_dots(buf, at, count);
}

pub fn draw_run(buf: &mut [u8], at: usize, count: usize, multiply: bool, c: RGBA)
    requires { (at + count) * 4 ≤ length buf.old }
    ensures { buf.new ≡ change (within at (at + count)) (λ _ s. drawn multiply c s) buf.old }
{
    if c.a == RGBA::TRANSPARENT {
        return;
    }
    if needs_tables(c, multiply) {
        multiply_some(buf, at, count, c);
        return;
    }
    if covers(c, multiply) {
        fill_run(buf, at, count, c);
        return;
    }
    if count < LANE_DOTS {
        Pen { color: c, multiply }.draw_dots(buf, at, count);
        return;
    }
    let factor = mix_factors(c, multiply);
    let term = mix_terms(c, multiply);
    Mix::of(c, multiply, &factor, &term).draw_dots(buf, at, count);
}
