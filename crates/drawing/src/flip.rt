// An area of the canvas flipped top to bottom.
ghost use Rattle.std.specs.Prelude.{◌≡◌, length};
ghost use Rattle.drawing.specs.Drawing.{flip, flip_on};

use areas::{Area, flip_area};
use places::{flip_refusal, flip_tall};
use thermal_image::{Answer, ThermalImage};

pub fn flip_pixels(image: ThermalImage, x: u32, y: u32, w: u32, h: u32, buf: &mut [u8]) -> Answer
    ensures value { result ≡ flip image x y w h (length buf.old) }
    ensures buf_after { buf.new ≡ flip_on image x y w h buf.old }
{
    if let Err(why) = flip_refusal(image, x, y, w, h, buf.len()) {
        return image.refused(why);
    }
    let rows = flip_tall(image, y, h);
    let answer = image.expand_to_height(rows as u32, buf);
    let area = Area {
        wide: image.width as usize,
        x: x as usize,
        y: y as usize,
        w: w as usize,
        h: h as usize,
    };
    flip_area(buf, area);
    answer
}
