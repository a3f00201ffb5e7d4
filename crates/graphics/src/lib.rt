// Decoding of printer images, as in the Rust's graphics.rs: raster, column and layered images
// become dots in an output that the caller lends.
#![tactic(auto, using(std::proofs::lemmas::Bool::Decides::nat_tests), unfolding(crate::specs::Layers::outgrown))]

mod layers;
mod refusals;

ghost use Rattle.std.specs.Prelude.{◌≡◌, length};
ghost use Rattle.numbers.specs.Numbers.{number_of};
ghost use Rattle.images.specs.Formats.{raster_of};
ghost use Rattle.images.specs.declared.formats.Format.{Format};
ghost use Rattle.graphics.specs.Decoding.{decoded, decoded_on};
ghost use Rattle.graphics.specs.Layers.{merged, merged_on};

use colour::{RGBA, RenderColors};
use images::{Format, Image, Source, decode_single_color, factor_of, raster_of};
use layers::merge_image_layers;
use numbers::{DONE, Refusal};
use refusals::{layers_refusal, refusal_of};

// What a decoder answers: the number, and the stretched width and height.
#[repr(C)]
#[derive(Clone, Copy)]
pub struct Decoded {
    pub number: u8,
    pub w: u32,
    pub h: u32,
}

impl Decoded {
    fn refused(why: Refusal) -> Decoded
        ensures { result ≡ record { number = number_of why; w = 0; h = 0 } }
    {
        Decoded {
            number: why.number(),
            w: 0,
            h: 0,
        }
    }
}

pub fn image_from_raster_bytes_single_color(
    width: u32,
    height: u32,
    stretch_x: u8,
    stretch_y: u8,
    color: RGBA,
    data: &[u8],
    process_as_bits: bool,
    out: &mut [u8],
) -> Decoded
    ensures value { result ≡ decoded (raster_of process_as_bits) width height stretch_x stretch_y (length «data».now) (length out.old) }
    ensures out_after { out.new ≡ decoded_on (raster_of process_as_bits) «data».now width height stretch_x stretch_y color out.old }
{
    image_from_bytes(
        raster_of(process_as_bits),
        width,
        height,
        stretch_x,
        stretch_y,
        color,
        data,
        out,
    )
}

pub fn image_from_column_bytes_single_color(
    width: u32,
    height: u32,
    stretch_x: u8,
    stretch_y: u8,
    color: RGBA,
    data: &[u8],
    out: &mut [u8],
) -> Decoded
    ensures value { result ≡ decoded Format.Columns width height stretch_x stretch_y (length «data».now) (length out.old) }
    ensures out_after { out.new ≡ decoded_on Format.Columns «data».now width height stretch_x stretch_y color out.old }
{
    image_from_bytes(
        Format::Columns,
        width,
        height,
        stretch_x,
        stretch_y,
        color,
        data,
        out,
    )
}

fn image_from_bytes(
    format: Format,
    width: u32,
    height: u32,
    stretch_x: u8,
    stretch_y: u8,
    color: RGBA,
    data: &[u8],
    out: &mut [u8],
) -> Decoded
    ensures value { result ≡ decoded format width height stretch_x stretch_y (length «data».now) (length out.old) }
    ensures out_after { out.new ≡ decoded_on format «data».now width height stretch_x stretch_y color out.old }
{
    let fx = factor_of(stretch_x);
    let fy = factor_of(stretch_y);
    if let Err(why) = refusal_of(format, width, height, fx, fy, data.len(), out.len()) {
        return Decoded::refused(why);
    }
    let source = Source {
        format,
        w: width as usize,
        h: height as usize,
        fx: fx as usize,
        fy: fy as usize,
        color,
    };
    decode_single_color(out, Image { source, data }, false);
    Decoded {
        number: DONE,
        w: width * fx,
        h: height * fy,
    }
}

pub fn image_from_raster_bytes_multi_color(
    width: u32,
    height: u32,
    stretch_x: u8,
    stretch_y: u8,
    num_colors: u8,
    render_colors: RenderColors,
    data: &[u8],
    process_as_bits: bool,
    out: &mut [u8],
) -> Decoded
    ensures value { result ≡ merged process_as_bits width height stretch_x stretch_y num_colors (length «data».now) (length out.old) }
    ensures out_after { out.new ≡ merged_on process_as_bits «data».now width height stretch_x stretch_y num_colors render_colors out.old }
{
    let fx = factor_of(stretch_x);
    let fy = factor_of(stretch_y);
    if let Err(why) = layers_refusal(
        process_as_bits,
        width,
        height,
        fx,
        fy,
        num_colors,
        data.len(),
        out.len(),
    ) {
        return Decoded::refused(why);
    }
    let source = Source {
        format: raster_of(process_as_bits),
        w: width as usize,
        h: height as usize,
        fx: fx as usize,
        fy: fy as usize,
        color: RGBA::blank(),
    };
    let n = num_colors as usize;
    merge_image_layers(out, data, process_as_bits, source, n, render_colors);
    Decoded {
        number: DONE,
        w: width * fx,
        h: height * fy,
    }
}
