// What a put is refused for, from sizes and lengths alone. Sums and products of two u32 fit a usize.
ghost use Rattle.std.specs.Prelude.{◌≡◌};
ghost use Rattle.numbers.specs.Numbers.{number};
ghost use Rattle.places.specs.Places.{length_refusal, many_refusal, short_refusal, result_refusal, place_refusal};

use super::sizes::{crop_pixels, cropped};
use numbers::Refusal;
use refusals::{canvas_refusal, off_refusal, room_refusal, side_refusal};
use thermal_image::ThermalImage;

fn length_refusal(bytes: usize) -> Result<(), Refusal>
    ensures { number result ≡ length_refusal bytes }
{
    if bytes % 4 != 0 {
        return Err(Refusal::WrongLength);
    }
    Ok(())
}

fn many_refusal(w: u32, h: u32, pixels: usize) -> Result<(), Refusal>
    ensures { number result ≡ many_refusal w h pixels }
{
    if (w as usize * h as usize) < pixels {
        return Err(Refusal::TooMany);
    }
    Ok(())
}

fn short_refusal(
    t: ThermalImage,
    x: u32,
    y: u32,
    w: u32,
    h: u32,
    pixels: usize,
) -> Result<(), Refusal>
    ensures { number result ≡ short_refusal t x y w h pixels }
{
    if !cropped(t, x, y, w) {
        return Ok(());
    }
    let c = crop_pixels(t, x, y, w, h);
    if c.h == 0 {
        return Ok(());
    }
    if pixels < (c.h - 1) as usize * w as usize + c.w as usize {
        return Err(Refusal::Short);
    }
    Ok(())
}

pub(crate) fn result_refusal(w: u32, rows: usize, n: usize) -> Result<(), Refusal>
    ensures { number result ≡ result_refusal w rows n }
{
    if rows > ThermalImage::LIMIT as usize {
        return Err(Refusal::TooTall);
    }
    room_refusal(w, rows as u32, n)
}

pub fn place_refusal(
    t: ThermalImage,
    x: u32,
    y: u32,
    w: u32,
    h: u32,
    bytes: usize,
    rows: usize,
    n: usize,
) -> Result<(), Refusal>
    ensures { number result ≡ place_refusal t x y w h bytes rows n }
{
    canvas_refusal(t.width, t.height, n)?;
    length_refusal(bytes)?;
    side_refusal(w, h)?;
    many_refusal(w, h, bytes / 4)?;
    off_refusal(t.width, t.height, t.auto_grow, x, y)?;
    short_refusal(t, x, y, w, h, bytes / 4)?;
    result_refusal(t.width, rows, n)
}
