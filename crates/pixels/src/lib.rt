// Pixels of an image drawn on a run of dots, blending or multiplying. Inner steps, over dots and
// pixels that their caller knows to be there.
#![tactic(auto)]

mod bytes;
mod cover;
mod crisp;

ghost use Rattle.std.specs.Prelude.{◌≡◌, ◌+◌, ◌*◌, ◌≤◌, length};
ghost use Rattle.pixels.specs.Pixels.{pixels_on};

use bytes::draw_bytes;
use cover::cover_each;
use crisp::all_crisp;

// Whether all pixels are clear or opaque is told first, since that is sooner done than drawing them as
// if they were not. Each loop is called with its mode as a constant, so that the compiler makes one for
// it that does not ask which it is.
pub fn put_run(buf: &mut [u8], at: usize, count: usize, pixels: &[u8], from: usize, multiply: bool)
    requires { ((at + count) * 4 ≤ length buf.old) × ((from + count) * 4 ≤ length pixels.now) }
    ensures { buf.new ≡ pixels_on multiply pixels.now from at count buf.old }
{
    let crisp = all_crisp(pixels, from, count);
    if multiply {
        if crisp {
            draw_bytes(buf, at, count, pixels, from, true, true);
            return;
        }
        draw_bytes(buf, at, count, pixels, from, true, false);
        return;
    }
    if crisp {
        cover_each(buf, at, count, pixels, from);
        return;
    }
    draw_bytes(buf, at, count, pixels, from, false, false);
}
