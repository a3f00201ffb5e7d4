// Rows of an image's entry: bits that are drawn at full alpha or not at all.
ghost use Rattle.std.specs.Prelude.{◌≡◌, true, ◌+◌, ◌-◌, ◌*◌, ◌≤◌, ◌<◌, length};
ghost use Rattle.numbers.specs.Numbers.{limit};
ghost use Rattle.dots.specs.Dots.{change, within, drawn};
ghost use Rattle.areas.specs.Areas.{Fits, area_on};
ghost use Rattle.entries.specs.Entries.{good_image, image_pixel};

use super::Entry;
use areas::Area;
use bits::{Stamp, draw_bits};
use colour::RGBA;
use dots::{Mix, mix_factors, mix_terms};

// The first w dots of the entry's own row j, from dot `at` on.
fn image_row(buf: &mut [u8], at: usize, w: usize, e: Entry, j: usize, data: &[u8], stamp: Stamp<'_>)
    requires row { (good_image (length «data».now) e ≡ true) × (j < e.h) × (w ≤ e.w) }
    requires room { (w ≤ limit) × ((at + w) * 4 ≤ length buf.old) }
    requires color { stamp.color ≡ e.color }
    ensures { buf.new ≡ change (within at (at + w)) (λ i d. drawn stamp.entry.mix.multiply (image_pixel «data».now e (i - at) j) d) buf.old }
{
    let size = (e.original_width as usize).div_ceil(8);
    let from = e.start + j / e.stretch_y as usize * size;
    draw_bits(buf, at, w, data, from, e.stretch_x as usize, stamp);
}

// The entry's own rows from `own` on. What the colour needs is made once for all of them.
pub(crate) fn image_rows(
    buf: &mut [u8],
    area: Area,
    e: Entry,
    own: usize,
    data: &[u8],
    multiply: bool,
)
    requires part { (good_image (length «data».now) e ≡ true) × (own + area.h ≤ e.h) × (area.w ≤ e.w) }
    requires fits { (area.wide ≤ limit) × Fits area.wide area.x area.y area.w area.h (length buf.old) }
    ensures { buf.new ≡ area_on area.wide area.x area.y area.w area.h (λ i j d. drawn multiply (image_pixel «data».now e i (own + j)) d) buf.old }
{
    let ink = e.color.with_alpha(RGBA::OPAQUE);
    let factor = mix_factors(ink, multiply);
    let term = mix_terms(ink, multiply);
    let mix = Mix::of(ink, multiply, &factor, &term);
    let stamp = Stamp::of(e.color, mix);
    for j in 0..area.h {
        let at = area.start_of(j);
        image_row(buf, at, area.w, e, own + j, data, stamp);
    }
}
