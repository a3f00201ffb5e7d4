// Pixels drawn on an area, blending or multiplying.
ghost use Rattle.std.specs.Prelude.{◌≡◌, ◌+◌, ◌-◌, ◌*◌, ◌≤◌, length};
ghost use Rattle.numbers.specs.Numbers.{limit};
ghost use Rattle.dots.specs.Dots.{change, within};
ghost use Rattle.areas.specs.Areas.{Fits, area_on, pixel_drawn};

use super::area::Area;
use pixels::put_run;

// A row for which there may be fewer pixels than dots, or none.
fn put_row(
    buf: &mut [u8],
    at: usize,
    w: usize,
    pixels: &[u8],
    from: usize,
    n: usize,
    multiply: bool,
)
    requires { ((at + w) * 4 ≤ length buf.old) × (n * 4 ≤ length pixels.now) }
    ensures { buf.new ≡ change (within at (at + w)) (λ k d. pixel_drawn multiply pixels.now n (from + (k - at)) d) buf.old }
{
    if n <= from {
        return;
    }
    let count = w.min(n - from);
    put_run(buf, at, count, pixels, from, multiply);
}

pub fn put_area(buf: &mut [u8], area: Area, pixels: &[u8], stride: usize, n: usize, multiply: bool)
    requires { Fits area.wide area.x area.y area.w area.h (length buf.old) × (n * 4 ≤ length pixels.now) × (stride ≤ limit) × (area.h ≤ limit) }
    ensures { buf.new ≡ area_on area.wide area.x area.y area.w area.h (λ i j d. pixel_drawn multiply pixels.now n (j * stride + i) d) buf.old }
{
    for j in 0..area.h {
        let at = area.start_of(j);
        put_row(buf, at, area.w, pixels, j * stride, n, multiply);
    }
}
