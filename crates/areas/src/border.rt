// A border blended onto a picture that fills the first dots of a buffer.
ghost use Rattle.std.specs.Prelude.{◌≡◌, ◌*◌, ◌≤◌, ◌<◌, length};
ghost use Rattle.areas.specs.Areas.{bordered};

use super::area::Area;
use super::draw::draw_area;
use colour::RGBA;

pub fn border_area(buf: &mut [u8], w: usize, h: usize, c: RGBA)
    requires { (0 < w) × (0 < h) × (w * h * 4 ≤ length buf.old) }
    ensures { buf.new ≡ bordered w h c buf.old }
{
    let all = Area {
        wide: w,
        x: 0,
        y: 0,
        w,
        h,
    };
    let top = Area { h: 1, ..all };
    let left = Area { w: 1, ..all };
    draw_area(buf, top, c, false);
    draw_area(buf, Area { y: h - 1, ..top }, c, false);
    draw_area(buf, left, c, false);
    draw_area(buf, Area { x: w - 1, ..left }, c, false);
}
