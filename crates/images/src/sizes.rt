// Stretch factors, the sides of an image, and how many bytes it takes.
ghost use Rattle.std.specs.Prelude.{◌≡◌, ◌≤◌};
ghost use Rattle.numbers.specs.Numbers.{limit};
ghost use Rattle.images.specs.Formats.{bytes_of};
ghost use Rattle.images.specs.Stretching.{factor, is_large};

use super::formats::{Format, row_bytes};
use numbers::LIMIT;

pub fn factor_of(stretch: u8) -> u32
    ensures { result ≡ factor stretch }
{
    (stretch as u32).max(1)
}

// A chain of ifs: as one condition of four tests the check asks for the joins of its tests, under names
// of its own.
pub fn is_large(w: u32, h: u32, fx: u32, fy: u32) -> bool
    requires { (fx ≤ 255) × (fy ≤ 255) }
    ensures { result ≡ is_large w h fx fy }
{
    if w > LIMIT {
        return true;
    }
    if h > LIMIT {
        return true;
    }
    if w * fx > LIMIT {
        return true;
    }
    h * fy > LIMIT
}

pub fn bytes_of(format: Format, w: u32, h: u32) -> usize
    requires { (w ≤ limit) × (h ≤ limit) }
    ensures { result ≡ bytes_of format w h }
{
    let w = w as usize;
    let h = h as usize;
    match format {
        Format::Bits => row_bytes(w) * h,
        Format::Alphas => w * h,
        Format::Columns => w * row_bytes(h),
    }
}
