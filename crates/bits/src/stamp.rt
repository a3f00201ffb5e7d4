// Bits drawn on dots, blending or multiplying: where a bit is 0 the dot stays, and where it is 1 the
// colour is drawn at full alpha, by whole numbers.
ghost use Rattle.std.specs.Prelude.{◌≡◌, ◌%◌, ◌<◌, if◌then◌else◌};
ghost use Rattle.colour.specs.Colour.{rgba, with_alpha};
ghost use Rattle.dots.specs.Dots.{chan, drawn};
ghost use Rattle.bits.specs.Bits.{alpha_drawn};

use super::row::BitBrush;
use colour::RGBA;
use dots::{Brush, Mix};

// A colour with its mix at full alpha.
#[derive(Clone, Copy)]
pub struct Stamp<'a> {
    pub color: RGBA,
    pub mix: Mix<'a>,
    ghost full: { mix.color ≡ with_alpha color 255 },
}

impl<'a> Stamp<'a> {
    pub fn of(color: RGBA, mix: Mix<'a>) -> Stamp<'a>
        requires { mix.color ≡ with_alpha color 255 }
        ensures { (result.color ≡ color) × (result.mix.multiply ≡ mix.entry.multiply) }
    {
        Stamp { color, mix }
    }

    fn byte(&self, on: bool, j: usize, s: u8) -> u8
        requires { j < 64 }
        ensures { result ≡ (if on then chan (drawn self.now.mix.multiply (with_alpha self.now.color 255) (rgba s s s s)) (j % 4) else s) }
    {
        let t = self.mix.byte(j, s);
        if on {
            return t;
        }
        s
    }
}

impl BitBrush for Stamp<'_> {
    ghost dot = { λ s. alpha_drawn s.mix.multiply s.color };

    // Each bit is told by a mask for each byte of its dot, so that the compiler makes vectors of the
    // loop.
    fn draw_byte(self, buf: &mut [u8], at: usize, byte: u8, n: usize) {
        let masks = &[
            128, 128, 128, 128, 64, 64, 64, 64, 32, 32, 32, 32, 16, 16, 16, 16, 8, 8, 8, 8, 4, 4,
            4, 4, 2, 2, 2, 2, 1, 1, 1, 1,
        ];
        let from = at * 4;
        for j in 0..n * 4 {
            buf[from + j] = self.byte(byte & masks[j] != 0, j, buf[from + j]);
        }
    }

    fn draw_bit(self, buf: &mut [u8], at: usize, bit: u8, n: usize) {
        if bit != 0 {
            self.mix.draw_dots(buf, at, n);
        }
    }
}
