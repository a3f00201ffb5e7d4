// Images of several layers, each in a colour of its own.
ghost use Rattle.std.specs.Prelude.{◌≡◌, false, ◌+◌, ◌-◌, ◌*◌, ◌≤◌, ◌<◌, length};
ghost use Rattle.images.specs.Steps.{picture_on};
ghost use Rattle.graphics.specs.Steps.{Layered};
ghost use Rattle.graphics.specs.Layers.{layer_pixel, merged_pixel};

use super::refusals::layer_bytes;
use colour::RenderColors;
use images::{Image, Source, decode_single_color};

// Layer k: its data is the part of the input after its colour byte, and goes through the
// single-colour decoder, which puts the layer or blends it onto those before it.
fn draw_layer(
    out: &mut [u8],
    data: &[u8],
    bits: bool,
    source: Source,
    k: usize,
    colors: RenderColors,
    blend: bool,
)
    requires k_bound { (k < 255) × Layered bits source (k + 1) (length «data».now) }
    requires fy_in_bounds { source.w * source.fx * (source.h * source.fy) * 4 ≤ length out.old }
    ensures { out.new ≡ picture_on (source.w * source.fx) (source.h * source.fy) blend (layer_pixel colors «data».now bits source.w source.h source.fx source.fy k) out.old }
{
    let size = layer_bytes(bits, source.w, source.h);
    let start = k * (1 + size);
    let color = colors.color_for_number(data[start]);
    let from = start + 1;
    let end = from + size;
    let image = Image {
        source: source.in_color(color),
        data: &data[from..end],
    };
    decode_single_color(out, image, blend);
}

// Layers 2 to n blend onto layer 1 at their own alpha.
pub fn merge_image_layers(
    out: &mut [u8],
    data: &[u8],
    bits: bool,
    source: Source,
    n: usize,
    colors: RenderColors,
)
    requires n_nonzero { (0 < n) × (n ≤ 255) × Layered bits source n (length «data».now) }
    requires fy_in_bounds { source.w * source.fx * (source.h * source.fy) * 4 ≤ length out.old }
    ensures { out.new ≡ picture_on (source.w * source.fx) (source.h * source.fy) false (merged_pixel colors «data».now bits source.w source.h source.fx source.fy (n - 1)) out.old }
{
    for k in 0..n {
        draw_layer(out, data, bits, source, k, colors, 0 < k);
    }
}
