// A line, the canvas that its call is given, and what it says of what the call gives.
use thermal_image::{Answer, Copied, Rgb, ThermalImage};
use vectors::hex::{byte_at, color_at, is_record, number_at};
use vectors::replay::NO_ANSWER;

pub const LINE: usize = 167;

pub fn image_at(line: &[u8; LINE]) -> ThermalImage {
    ThermalImage {
        width: number_at(line, 4, 8),
        height: number_at(line, 13, 8),
        auto_grow: line[22] == b'1',
        paper_color: color_at(line, 24),
    }
}

// All that a call gives is kept in the record of RGB output: the number, the canvas, and the width
// and height of what is written out. No From can be written here for two types of another crate.
pub fn canvas(r: Answer) -> Rgb {
    let image = r.image;
    Rgb {
        number: r.number,
        image,
        width: 0,
        height: 0,
    }
}

pub fn copied(image: ThermalImage, r: Copied) -> Rgb {
    Rgb {
        number: r.number,
        image,
        width: r.width,
        height: r.height,
    }
}

pub fn says(line: &[u8; LINE], answer: Option<Rgb>) -> bool {
    let r = answer.unwrap_or(Rgb {
        number: NO_ANSWER,
        image: image_at(line),
        width: 0,
        height: 0,
    });
    let t = r.image;
    r.number == byte_at(line, 99)
        && is_record(line, 102, t.width, t.height, t.auto_grow, t.paper_color)
        && r.width == number_at(line, 131, 8)
        && r.height == number_at(line, 140, 8)
}
