// A colour drawn on an area, blending or multiplying.
ghost use Rattle.std.specs.Prelude.{◌≡◌, true, ◌<◌, length};
ghost use Rattle.dots.specs.Dots.{drawn};
ghost use Rattle.areas.specs.Areas.{Fits, area_on};

use super::area::Area;
use colour::RGBA;
use dots::{
    Brush, Fill, Mix, Pen, TABLE_DOTS, Tables, covers, mix_factors, mix_terms, needs_tables,
};

fn draw_rows<B: Brush>(buf: &mut [u8], area: Area, brush: &B)
    requires { Fits area.wide area.x area.y area.w area.h (length buf.old) }
    ensures { buf.new ≡ area_on area.wide area.x area.y area.w area.h (λ _ _ d. B.dot brush.now d) buf.old }
{
    for j in 0..area.h {
        brush.draw_dots(buf, area.start_of(j), area.w);
    }
}

// For few dots nothing is made beforehand.
fn multiply_area(buf: &mut [u8], area: Area, c: RGBA)
    requires { Fits area.wide area.x area.y area.w area.h (length buf.old) × (0 < c.a) }
    ensures { buf.new ≡ area_on area.wide area.x area.y area.w area.h (λ _ _ d. drawn true c d) buf.old }
{
    if area.w * area.h < TABLE_DOTS {
        let pen = Pen {
            color: c,
            multiply: true,
        };
        draw_rows(buf, area, &pen);
        return;
    }
    draw_rows(buf, area, &Tables::of(c));
}

// What the colour needs is made once for the whole area, and that it covers is told once.
pub fn draw_area(buf: &mut [u8], area: Area, c: RGBA, multiply: bool)
    requires { Fits area.wide area.x area.y area.w area.h (length buf.old) }
    ensures { buf.new ≡ area_on area.wide area.x area.y area.w area.h (λ _ _ d. drawn multiply c d) buf.old }
{
    if c.a == RGBA::TRANSPARENT {
        return;
    }
    if needs_tables(c, multiply) {
        multiply_area(buf, area, c);
        return;
    }
    if covers(c, multiply) {
        draw_rows(buf, area, &Fill { color: c });
        return;
    }
    let factor = mix_factors(c, multiply);
    let term = mix_terms(c, multiply);
    let mix = Mix::of(c, multiply, &factor, &term);
    draw_rows(buf, area, &mix);
}
