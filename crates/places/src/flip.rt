// What a flip is refused for.
ghost use Rattle.std.specs.Prelude.{◌≡◌};
ghost use Rattle.numbers.specs.Numbers.{number};
ghost use Rattle.places.specs.Places.{flip_refusal};

use super::rules::result_refusal;
use super::sizes::flip_tall;
use numbers::Refusal;
use refusals::{across_refusal, canvas_refusal, empty_refusal};
use thermal_image::ThermalImage;

pub fn flip_refusal(
    t: ThermalImage,
    x: u32,
    y: u32,
    w: u32,
    h: u32,
    n: usize,
) -> Result<(), Refusal>
    ensures { number result ≡ flip_refusal t x y w h n }
{
    canvas_refusal(t.width, t.height, n)?;
    empty_refusal(w, h)?;
    across_refusal(t.width, x, w)?;
    result_refusal(t.width, flip_tall(t, y, h), n)
}
