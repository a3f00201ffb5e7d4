// Decoding of printer images.
ghost use Rattle.std.specs.Prelude.{◌≡◌, length};
ghost use Rattle.images.specs.Formats.{raster_of};
ghost use Rattle.graphics.specs.Decoding.{decoded, decoded_on};
ghost use Rattle.graphics.specs.Layers.{merged, merged_on};
ghost use Rattle.images.specs.declared.formats.Format.{Format};

use colour::{RGBA, RenderColors};
use graphics::Decoded;

#[unsafe(no_mangle)]
pub extern "C" fn thermal_image_from_raster_bytes_single_color(
    width: u32,
    height: u32,
    stretch_x: u8,
    stretch_y: u8,
    color: RGBA,
    data: &[u8],
    process_as_bits: bool,
    out: &mut [u8],
) -> Decoded
    ensures value { result ≡ decoded (raster_of process_as_bits) width height stretch_x stretch_y (length «data».now) (length out.old) }
    ensures out_after { out.new ≡ decoded_on (raster_of process_as_bits) «data».now width height stretch_x stretch_y color out.old }
{
    graphics::image_from_raster_bytes_single_color(
        width,
        height,
        stretch_x,
        stretch_y,
        color,
        data,
        process_as_bits,
        out,
    )
}

#[unsafe(no_mangle)]
pub extern "C" fn thermal_image_from_column_bytes_single_color(
    width: u32,
    height: u32,
    stretch_x: u8,
    stretch_y: u8,
    color: RGBA,
    data: &[u8],
    out: &mut [u8],
) -> Decoded
    ensures value { result ≡ decoded Format.Columns width height stretch_x stretch_y (length «data».now) (length out.old) }
    ensures out_after { out.new ≡ decoded_on Format.Columns «data».now width height stretch_x stretch_y color out.old }
{
    graphics::image_from_column_bytes_single_color(
        width, height, stretch_x, stretch_y, color, data, out,
    )
}

#[unsafe(no_mangle)]
pub extern "C" fn thermal_image_from_raster_bytes_multi_color(
    width: u32,
    height: u32,
    stretch_x: u8,
    stretch_y: u8,
    num_colors: u8,
    render_colors: RenderColors,
    data: &[u8],
    process_as_bits: bool,
    out: &mut [u8],
) -> Decoded
    ensures value { result ≡ merged process_as_bits width height stretch_x stretch_y num_colors (length «data».now) (length out.old) }
    ensures out_after { out.new ≡ merged_on process_as_bits «data».now width height stretch_x stretch_y num_colors render_colors out.old }
{
    graphics::image_from_raster_bytes_multi_color(
        width,
        height,
        stretch_x,
        stretch_y,
        num_colors,
        render_colors,
        data,
        process_as_bits,
        out,
    )
}
