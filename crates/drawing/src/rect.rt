// Rectangles of one colour.
ghost use Rattle.std.specs.Prelude.{◌≡◌, true, length};
ghost use Rattle.drawing.specs.Drawing.{rect, rect_on};

use areas::{Area, draw_area};
use colour::RGBA;
use places::{crop_pixels, rect_refusal, tall_after};
use thermal_image::{Answer, ThermalImage};

pub fn draw_rect(
    image: ThermalImage,
    x: u32,
    y: u32,
    w: u32,
    h: u32,
    color: RGBA,
    multiply: bool,
    buf: &mut [u8],
) -> Answer
    ensures value { result ≡ rect image x y w h (length buf.old) }
    ensures buf_after { buf.new ≡ rect_on multiply image x y w h color buf.old }
{
    let rows = tall_after(image, x, y, w, h);
    if let Err(why) = rect_refusal(image, x, y, w, h, rows, buf.len()) {
        return image.refused(why);
    }
    let c = crop_pixels(image, x, y, w, h);
    let answer = image.expand_to_height(rows as u32, buf);
    let area = Area {
        wide: image.width as usize,
        x: x as usize,
        y: y as usize,
        w: c.w as usize,
        h: c.h as usize,
    };
    draw_area(buf, area, color, multiply);
    answer
}

pub fn put_rect(
    image: ThermalImage,
    x: u32,
    y: u32,
    w: u32,
    h: u32,
    color: RGBA,
    buf: &mut [u8],
) -> Answer
    ensures value { result ≡ rect image x y w h (length buf.old) }
    ensures buf_after { buf.new ≡ rect_on true image x y w h color buf.old }
{
    draw_rect(image, x, y, w, h, color, true, buf)
}
