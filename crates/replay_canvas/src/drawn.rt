// Calls that draw.
use super::record::{LINE, image_at};
use numbers::number;
use thermal_image::Answer;
use vectors::hex::{color_at, number_at};
use vectors::seeds::fill_from;

// Pixels are worked out from a seed. There is no answer where there are too many.
pub fn put(line: &[u8; LINE], buf: &mut [u8]) -> Option<Answer> {
    let count = number_at(line, 78, 6) as usize;
    if count > 4096 {
        return None;
    }
    let mut pixels = [0; 4096];
    fill_from(&mut pixels, count, number_at(line, 69, 8));
    Some(put_all(line, &pixels[..count], buf))
}

fn put_all(line: &[u8; LINE], pixels: &[u8], buf: &mut [u8]) -> Answer {
    let kind = line[0];
    let t = image_at(line);
    let x = number_at(line, 33, 8);
    let y = number_at(line, 42, 8);
    let w = number_at(line, 51, 8);
    let h = number_at(line, 60, 8);
    if kind == b'p' || kind == b'x' {
        return drawing::put_pixels(t, x, y, w, h, pixels, kind == b'x', buf);
    }
    drawing::put_render_img(t, x, y, w, h, pixels, kind == b'u', buf)
}

pub fn filled(line: &[u8; LINE], buf: &mut [u8]) -> Answer {
    let kind = line[0];
    let t = image_at(line);
    let x = number_at(line, 33, 8);
    let y = number_at(line, 42, 8);
    let w = number_at(line, 51, 8);
    let h = number_at(line, 60, 8);
    let c = color_at(line, 69);
    match kind {
        b'd' | b'f' => drawing::draw_rect(t, x, y, w, h, c, kind == b'f', buf),
        b'k' => drawing::put_rect(t, x, y, w, h, c, buf),
        b'v' => drawing::flip_pixels(t, x, y, w, h, buf),
        _ => Answer {
            number: number(drawing::draw_border(w, h, c, buf)),
            image: t,
        },
    }
}
