// Drawing on the canvas, whose dots are the first 4·width·height bytes of `buf`; and the border of
// a picture.
ghost use Rattle.std.specs.Prelude.{◌≡◌, true, length};
ghost use Rattle.places.specs.Places.{border_refusal};
ghost use Rattle.drawing.specs.Drawing.{put, put_on, rect, rect_on, image_put, image_on, flip, flip_on, border_on};

use colour::RGBA;
use numbers::number;
use thermal_image::{Answer, ThermalImage};

#[unsafe(no_mangle)]
pub extern "C" fn thermal_put_pixels(
    image: ThermalImage,
    x: u32,
    y: u32,
    w: u32,
    h: u32,
    pixels: &[u8],
    multiply: bool,
    buf: &mut [u8],
) -> Answer
    ensures value { result ≡ put image x y w h (length pixels.now) (length buf.old) }
    ensures buf_after { buf.new ≡ put_on multiply image x y w h pixels.now buf.old }
{
    drawing::put_pixels(image, x, y, w, h, pixels, multiply, buf)
}

#[unsafe(no_mangle)]
pub extern "C" fn thermal_draw_rect(
    image: ThermalImage,
    x: u32,
    y: u32,
    w: u32,
    h: u32,
    color: RGBA,
    multiply: bool,
    buf: &mut [u8],
) -> Answer
    ensures value { result ≡ rect image x y w h (length buf.old) }
    ensures buf_after { buf.new ≡ rect_on multiply image x y w h color buf.old }
{
    drawing::draw_rect(image, x, y, w, h, color, multiply, buf)
}

#[unsafe(no_mangle)]
pub extern "C" fn thermal_put_rect(
    image: ThermalImage,
    x: u32,
    y: u32,
    w: u32,
    h: u32,
    color: RGBA,
    buf: &mut [u8],
) -> Answer
    ensures value { result ≡ rect image x y w h (length buf.old) }
    ensures buf_after { buf.new ≡ rect_on true image x y w h color buf.old }
{
    drawing::put_rect(image, x, y, w, h, color, buf)
}

#[unsafe(no_mangle)]
pub extern "C" fn thermal_put_render_img(
    image: ThermalImage,
    x: u32,
    y: u32,
    w: u32,
    h: u32,
    pixels: &[u8],
    upside_down: bool,
    buf: &mut [u8],
) -> Answer
    ensures value { result ≡ image_put upside_down image x y w h (length pixels.now) (length buf.old) }
    ensures buf_after { buf.new ≡ image_on upside_down image x y w h pixels.now buf.old }
{
    drawing::put_render_img(image, x, y, w, h, pixels, upside_down, buf)
}

#[unsafe(no_mangle)]
pub extern "C" fn thermal_flip_pixels(
    image: ThermalImage,
    x: u32,
    y: u32,
    w: u32,
    h: u32,
    buf: &mut [u8],
) -> Answer
    ensures value { result ≡ flip image x y w h (length buf.old) }
    ensures buf_after { buf.new ≡ flip_on image x y w h buf.old }
{
    drawing::flip_pixels(image, x, y, w, h, buf)
}

#[unsafe(no_mangle)]
pub extern "C" fn thermal_draw_border(w: u32, h: u32, color: RGBA, buf: &mut [u8]) -> u8
    ensures value { result ≡ border_refusal w h (length buf.old) }
    ensures buf_after { buf.new ≡ border_on w h color buf.old }
{
    number(drawing::draw_border(w, h, color, buf))
}
