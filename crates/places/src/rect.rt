// What a rectangle is refused for.
ghost use Rattle.std.specs.Prelude.{◌≡◌, ◌*◌};
ghost use Rattle.numbers.specs.Numbers.{number};
ghost use Rattle.places.specs.Places.{place_refusal};

use super::rules::result_refusal;
use numbers::Refusal;
use refusals::{canvas_refusal, off_refusal, side_refusal};
use thermal_image::ThermalImage;

// Of w·h equal pixels none is missing, and there are not too many.
pub fn rect_refusal(
    t: ThermalImage,
    x: u32,
    y: u32,
    w: u32,
    h: u32,
    rows: usize,
    n: usize,
) -> Result<(), Refusal>
    ensures { number result ≡ place_refusal t x y w h (4 * (w * h)) rows n }
{
    canvas_refusal(t.width, t.height, n)?;
    side_refusal(w, h)?;
    off_refusal(t.width, t.height, t.auto_grow, x, y)?;
    result_refusal(t.width, rows, n)
}
