// Bits put on dots, or blended onto them.
ghost use Rattle.std.specs.Prelude.{◌≡◌, if◌then◌else◌};
ghost use Rattle.colour.specs.Colour.{with_alpha};
ghost use Rattle.bits.specs.Bits.{landed, alpha_landed};

use super::row::BitBrush;
use colour::RGBA;
use dots::{fill_run, get_dot, set_dot};

// Bits go either way at random, so all ways meet here and the compiler makes a choice of them, and
// no branch.
fn bit_dot(on: bool, color: RGBA, blend: bool, old: RGBA) -> RGBA
    ensures { result ≡ landed blend (with_alpha color (if on then 255 else 0)) old }
{
    if on {
        return color.with_alpha(RGBA::OPAQUE);
    }
    if blend {
        return old;
    }
    color.with_alpha(RGBA::TRANSPARENT)
}

// A colour where a bit is 1, put or blended.
#[derive(Clone, Copy)]
pub struct Put {
    pub color: RGBA,
    pub blend: bool,
}

impl BitBrush for Put {
    ghost dot = { λ p. alpha_landed p.blend p.color };

    // Each bit is told by a mask as wide as a dot, and not by a shift, so that the compiler makes
    // vectors of the loop.
    fn draw_byte(self, buf: &mut [u8], at: usize, byte: u8, n: usize) {
        let masks = &[128, 64, 32, 16, 8, 4, 2, 1];
        for k in 0..n {
            let old = get_dot(buf, at + k);
            let on = (byte as u32) & masks[k] != 0;
            set_dot(buf, at + k, bit_dot(on, self.color, self.blend, old));
        }
    }

    // Where it is put the bit is a factor of the alpha, and not a test.
    fn draw_bit(self, buf: &mut [u8], at: usize, bit: u8, n: usize) {
        // A bit that is 0 and is blended leaves the dots as they are. Both are looked at together, with
        // no branch between them.
        if self.blend & (bit == 0) {
            return;
        }
        fill_run(buf, at, n, self.color.with_alpha(bit * 255));
    }
}
