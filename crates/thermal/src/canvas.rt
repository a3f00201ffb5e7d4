// The canvas: each operation takes the record and gives the next one. Its dots are the first
// 4·width·height bytes of `buf`.
ghost use Rattle.std.specs.Prelude.{◌≡◌, length};
ghost use Rattle.moves.specs.declared.turned.Turn.{Turn};
ghost use Rattle.refusals.specs.Refusals.{rows_of};
ghost use Rattle.thermal_image.specs.Canvas.{made_new, grown, grown_on, margined, margined_on, widened, widened_on, set_width, emptied, copied, copied_on, rgb, rgb_on, rotated, rotated_on};

use thermal_image::{Answer, Copied, Rgb, ThermalImage};

#[unsafe(no_mangle)]
pub extern "C" fn thermal_new(width: u32) -> Answer
    ensures { result ≡ made_new width }
{
    ThermalImage::new(width)
}

#[unsafe(no_mangle)]
pub extern "C" fn thermal_get_height(image: ThermalImage) -> u32
    ensures { result ≡ rows_of image.width image.height }
{
    image.get_height()
}

#[unsafe(no_mangle)]
pub extern "C" fn thermal_expand_to_height(
    image: ThermalImage,
    height: u32,
    buf: &mut [u8],
) -> Answer
    ensures value { result ≡ grown image height (length buf.old) }
    ensures buf_after { buf.new ≡ grown_on image height buf.old }
{
    image.expand_to_height(height, buf)
}

#[unsafe(no_mangle)]
pub extern "C" fn thermal_add_top_margin(image: ThermalImage, height: u32, buf: &mut [u8]) -> Answer
    ensures value { result ≡ margined image height (length buf.old) }
    ensures buf_after { buf.new ≡ margined_on image height buf.old }
{
    image.add_top_margin(height, buf)
}

#[unsafe(no_mangle)]
pub extern "C" fn thermal_expand_to_width(
    image: ThermalImage,
    new_width: u32,
    buf: &mut [u8],
) -> Answer
    ensures value { result ≡ widened image new_width (length buf.old) }
    ensures buf_after { buf.new ≡ widened_on image new_width buf.old }
{
    image.expand_to_width(new_width, buf)
}

#[unsafe(no_mangle)]
pub extern "C" fn thermal_set_width(image: ThermalImage, width: u32, buf: &[u8]) -> Answer
    ensures { result ≡ set_width image width (length buf.now) }
{
    image.set_width(width, buf)
}

#[unsafe(no_mangle)]
pub extern "C" fn thermal_empty(image: ThermalImage, buf: &[u8]) -> Answer
    ensures { result ≡ emptied image (length buf.now) }
{
    image.empty(buf)
}

#[unsafe(no_mangle)]
pub extern "C" fn thermal_reset(image: ThermalImage, buf: &[u8]) -> Answer
    ensures { result ≡ emptied image (length buf.now) }
{
    image.reset(buf)
}

#[unsafe(no_mangle)]
pub extern "C" fn thermal_copy(image: ThermalImage, buf: &[u8], out: &mut [u8]) -> Copied
    ensures value { result ≡ copied image (length buf.now) (length out.old) }
    ensures out_after { out.new ≡ copied_on image buf.now out.old }
{
    image.copy(buf, out)
}

#[unsafe(no_mangle)]
pub extern "C" fn thermal_consume_rgb_u8(image: ThermalImage, buf: &[u8], out: &mut [u8]) -> Rgb
    ensures value { result ≡ rgb image (length buf.now) (length out.old) }
    ensures out_after { out.new ≡ rgb_on image buf.now out.old }
{
    image.consume_rgb_u8(buf, out)
}

#[unsafe(no_mangle)]
pub extern "C" fn thermal_rotate_90(image: ThermalImage, buf: &[u8], out: &mut [u8]) -> Answer
    ensures value { result ≡ rotated Turn.Quarter image (length buf.now) (length out.old) }
    ensures out_after { out.new ≡ rotated_on Turn.Quarter image buf.now out.old }
{
    image.rotate_90(buf, out)
}

#[unsafe(no_mangle)]
pub extern "C" fn thermal_rotate_180(image: ThermalImage, buf: &[u8], out: &mut [u8]) -> Answer
    ensures value { result ≡ rotated Turn.Half image (length buf.now) (length out.old) }
    ensures out_after { out.new ≡ rotated_on Turn.Half image buf.now out.old }
{
    image.rotate_180(buf, out)
}

#[unsafe(no_mangle)]
pub extern "C" fn thermal_rotate_270(image: ThermalImage, buf: &[u8], out: &mut [u8]) -> Answer
    ensures value { result ≡ rotated Turn.ThreeQuarters image (length buf.now) (length out.old) }
    ensures out_after { out.new ≡ rotated_on Turn.ThreeQuarters image buf.now out.old }
{
    image.rotate_270(buf, out)
}
