// Pixels that are clear or opaque blended onto a run of dots: each leaves its dot or covers it.
ghost use Rattle.std.specs.Prelude.{true, false, ◌≡◌, ◌+◌, ◌*◌, ◌≤◌, length};
ghost use Rattle.pixels.specs.Pixels.{pixels_on};
ghost use Rattle.pixels.specs.Steps.{all_crisp};

use colour::RGBA;
use dots::{load_dot, store_dot};

// The choice stands in the loop, and not in a function of its own, from which the compiler takes the
// four bytes one by one.
pub fn cover_each(buf: &mut [u8], at: usize, count: usize, pixels: &[u8], from: usize)
    requires count_in_bounds { ((at + count) * 4 ≤ length buf.old) × ((from + count) * 4 ≤ length pixels.now) }
    requires count_value { all_crisp pixels.now from count ≡ true }
    ensures { buf.new ≡ pixels_on false pixels.now from at count buf.old }
{
    for i in 0..count {
        let p = load_dot(pixels, from + i);
        let s = load_dot(buf, at + i);
        let d = if p.a == RGBA::OPAQUE { p } else { s };
        store_dot(buf, at + i, d);
    }
}
