// The call that a line stands for.
use super::drawn::{filled, put};
use super::record::{LINE, canvas, copied, image_at};
use numbers::DONE;
use thermal_image::{Answer, Rgb, ThermalImage};
use vectors::hex::number_at;
use vectors::seeds::fill_from;

// An unknown kind of line has no answer, nor has one whose dots or pixels have no room.
pub fn answer(line: &[u8; LINE], buf: &mut [u8], out: &mut [u8]) -> Option<Rgb> {
    match line[0] {
        b'p' | b'x' | b'i' | b'u' => put(line, buf).map(canvas),
        b'd' | b'f' | b'k' | b'v' | b'b' => Some(canvas(filled(line, buf))),
        b'g' | b'c' | b'o' => Some(shown(line, buf, out)),
        b'y' => written(line, buf).map(canvas),
        _ => changed(line, buf, out).map(canvas),
    }
}

// Calls that tell sizes.
fn shown(line: &[u8; LINE], buf: &[u8], out: &mut [u8]) -> Rgb {
    let image = image_at(line);
    match line[0] {
        b'g' => Rgb {
            number: DONE,
            image,
            width: 0,
            height: image.get_height(),
        },
        b'c' => copied(image, image.copy(buf, out)),
        _ => image.consume_rgb_u8(buf, out),
    }
}

// Calls that draw nothing.
fn changed(line: &[u8; LINE], buf: &mut [u8], out: &mut [u8]) -> Option<Answer> {
    let image = image_at(line);
    let a = number_at(line, 33, 8);
    let answer = match line[0] {
        b'n' => ThermalImage::new(a),
        b'e' => image.expand_to_height(a, buf),
        b'm' => image.add_top_margin(a, buf),
        b'w' => image.expand_to_width(a, buf),
        b's' => image.set_width(a, buf),
        b'z' => image.empty(buf),
        b'r' => image.reset(buf),
        b'q' => image.rotate_90(buf, out),
        b'h' => image.rotate_180(buf, out),
        b't' => image.rotate_270(buf, out),
        _ => return None,
    };
    Some(answer)
}

// The caller, who writes dots to the canvas's buffer where it has room for them.
fn written(line: &[u8; LINE], buf: &mut [u8]) -> Option<Answer> {
    let image = image_at(line);
    let dots = image.width as usize * image.height as usize;
    if buf.len() / 4 < dots {
        return None;
    }
    fill_from(buf, dots * 4, number_at(line, 69, 8));
    Some(Answer {
        number: DONE,
        image,
    })
}
