// Pixels put on the canvas, blending or multiplying, and images, which multiply.
ghost use Rattle.std.specs.Prelude.{◌≡◌, length};
ghost use Rattle.thermal_image.specs.Canvas.{sized, finished};
ghost use Rattle.drawing.specs.Drawing.{placed, pixels_drawn, put, put_on, image_put, image_on};
ghost use Rattle.places.specs.Steps.{Ready};

use areas::{Area, flip_area, put_area};
use places::{crop_pixels, flips, image_tall, place_refusal, tall_after};
use thermal_image::{Answer, ThermalImage};

// The canvas grown to `rows`, with the pixels put.
fn put_on(
    image: ThermalImage,
    x: u32,
    y: u32,
    w: u32,
    h: u32,
    rows: usize,
    pixels: &[u8],
    multiply: bool,
    buf: &mut [u8],
) -> Answer
    requires { Ready image x y w h rows (length buf.old) }
    ensures value { result ≡ finished (sized image image.width rows) }
    ensures buf_after { buf.new ≡ placed image x y w h rows (pixels_drawn multiply pixels.now w) buf.old }
{
    let c = crop_pixels(image, x, y, w, h);
    let answer = image.expand_to_height(rows as u32, buf);
    let area = Area {
        wide: image.width as usize,
        x: x as usize,
        y: y as usize,
        w: c.w as usize,
        h: c.h as usize,
    };
    put_area(buf, area, pixels, w as usize, pixels.len() / 4, multiply);
    answer
}

pub fn put_pixels(
    image: ThermalImage,
    x: u32,
    y: u32,
    w: u32,
    h: u32,
    pixels: &[u8],
    multiply: bool,
    buf: &mut [u8],
) -> Answer
    ensures value { result ≡ put image x y w h (length pixels.now) (length buf.old) }
    ensures buf_after { buf.new ≡ put_on multiply image x y w h pixels.now buf.old }
{
    let rows = tall_after(image, x, y, w, h);
    if let Err(why) = place_refusal(image, x, y, w, h, pixels.len(), rows, buf.len()) {
        return image.refused(why);
    }
    put_on(image, x, y, w, h, rows, pixels, multiply, buf)
}

pub fn put_render_img(
    image: ThermalImage,
    x: u32,
    y: u32,
    w: u32,
    h: u32,
    pixels: &[u8],
    upside_down: bool,
    buf: &mut [u8],
) -> Answer
    ensures value { result ≡ image_put upside_down image x y w h (length pixels.now) (length buf.old) }
    ensures buf_after { buf.new ≡ image_on upside_down image x y w h pixels.now buf.old }
{
    let rows = image_tall(upside_down, image, x, y, w, h);
    if let Err(why) = place_refusal(image, x, y, w, h, pixels.len(), rows, buf.len()) {
        return image.refused(why);
    }
    let answer = put_on(image, x, y, w, h, rows, pixels, true, buf);
    if flips(upside_down, image, x, w, h) {
        let area = Area {
            wide: image.width as usize,
            x: x as usize,
            y: y as usize,
            w: w as usize,
            h: h as usize,
        };
        flip_area(buf, area);
        return answer;
    }
    answer
}
