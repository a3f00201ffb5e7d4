// From a source to dots: each source dot becomes a block of dots on the output.
ghost use Rattle.std.specs.Prelude.{◌≡◌, true, ◌+◌, ◌*◌, ◌≤◌, ◌<◌, length};
ghost use Rattle.dots.specs.Dots.{dot_at, set_dot, change, within};
ghost use Rattle.bits.specs.Bits.{landed};
ghost use Rattle.images.specs.Steps.{Sound, in_color, repeated, source_pixel, Above, picture_row_on, picture_on};

use super::formats::{Format, alpha_at, row_bytes};
use bits::{Put, draw_bits};
use colour::RGBA;
use dots::{draw_run, fill_run, get_dot, set_dot};
use moves::move_run;

// An image but for its data: its format, its sides, the stretch of each, and its colour.
#[derive(Clone, Copy)]
pub struct Source {
    pub format: Format,
    pub w: usize,
    pub h: usize,
    pub fx: usize,
    pub fy: usize,
    pub color: RGBA,
}

impl Source {
    pub fn in_color(mut self, color: RGBA) -> Self
        ensures { result ≡ in_color self color }
    {
        self.color = color;
        self
    }
}

// A source with the data that tell its dots, known to hold all of them.
#[derive(Clone, Copy)]
pub struct Image<'a> {
    pub source: Source,
    pub data: &'a [u8],
    ghost sound: { Sound source (length «data».now) },
}

fn land_dot(out: &mut [u8], i: usize, pixel: RGBA, blend: bool)
    requires { i * 4 + 4 ≤ length out.old }
    ensures { out.new ≡ set_dot out.old i (landed blend pixel (dot_at out.old i)) }
{
    if blend {
        let d = get_dot(out, i);
        set_dot(out, i, d.blend_foreground(pixel));
        return;
    }
    set_dot(out, i, pixel);
}

fn land_run(out: &mut [u8], at: usize, count: usize, pixel: RGBA, blend: bool)
    requires { (at + count) * 4 ≤ length out.old }
    ensures { out.new ≡ change (within at (at + count)) (λ _ d. landed blend pixel d) out.old }
{
    if blend {
        draw_run(out, at, count, false, pixel);
        return;
    }
    fill_run(out, at, count, pixel);
}

// The block of a source dot. A row that is not stretched takes it as one dot, which is sooner done.
fn land_block<const ONE: bool>(out: &mut [u8], at: usize, count: usize, pixel: RGBA, blend: bool)
    requires { ((at + count) * 4 ≤ length out.old) × (ONE ≡ true → count ≡ 1) }
    ensures { out.new ≡ change (within at (at + count)) (λ _ d. landed blend pixel d) out.old }
{
    if ONE {
        land_dot(out, at, pixel, blend);
        return;
    }
    land_run(out, at, count, pixel, blend);
}

// The place of each block is added up, as that of each bit in the stretched rows of bits: so a source dot
// takes no product for it.
fn scale_pixels<const ONE: bool>(out: &mut [u8], at: usize, image: Image, j: usize, blend: bool)
    requires one { ONE ≡ true → image.source.fx ≡ 1 }
    requires j_bound { (j < image.source.h * image.source.fy) × ((at + image.source.w * image.source.fx) * 4 ≤ length out.old) }
    ensures { out.new ≡ picture_row_on at (image.entry.source.w * image.entry.source.fx) blend (source_pixel image.entry.source image.entry.«data».now) j out.old }
{
    let Image { source, data } = image;
    let format = source.format;
    let w = source.w;
    let h = source.h;
    let y = j / source.fy;
    let mut i = at;
    for x in 0..w {
        let alpha = alpha_at(data, format, w, h, x, y);
        let pixel = source.color.with_alpha(alpha);
        land_block::<ONE>(out, i, source.fx, pixel, blend);
        i += source.fx;
    }
}

// A row that is put is the row above it, unless a row of source dots begins with it.
fn repeats(j: usize, fy: usize, blend: bool) -> bool
    requires { 0 < fy }
    ensures { result ≡ repeated j fy blend }
{
    !blend && j % fy != 0
}

fn draw_row(out: &mut [u8], at: usize, image: Image, j: usize, blend: bool)
    requires j_bound { (j < image.source.h * image.source.fy) × ((at + image.source.w * image.source.fx) * 4 ≤ length out.old) }
    requires above { Above image.source image.«data».now blend at j out.old }
    ensures { out.new ≡ picture_row_on at (image.entry.source.w * image.entry.source.fx) blend (source_pixel image.entry.source image.entry.«data».now) j out.old }
{
    let source = image.source;
    if repeats(j, source.fy, blend) {
        let wide = source.w * source.fx;
        move_run(out, at - wide, wide, wide);
        return;
    }
    // Rows of bits have a way of their own, which is sooner done.
    if source.format == Format::Bits {
        let wide = source.w * source.fx;
        let from = j / source.fy * row_bytes(source.w);
        let put = Put {
            color: source.color,
            blend,
        };
        draw_bits(out, at, wide, image.data, from, source.fx, put);
        return;
    }
    if source.fx == 1 {
        scale_pixels::<true>(out, at, image, j, blend);
        return;
    }
    scale_pixels::<false>(out, at, image, j, blend);
}

pub fn decode_single_color(out: &mut [u8], image: Image, blend: bool)
    requires fy_in_bounds { image.source.w * image.source.fx * (image.source.h * image.source.fy) * 4 ≤ length out.old }
    ensures { out.new ≡ picture_on (image.entry.source.w * image.entry.source.fx) (image.entry.source.h * image.entry.source.fy) blend (source_pixel image.entry.source image.entry.«data».now) out.old }
{
    let source = image.source;
    let wide = source.w * source.fx;
    let tall = source.h * source.fy;
    for j in 0..tall {
        draw_row(out, j * wide, image, j, blend);
    }
}
