// Replays the fixed lists of the decoders' answers, and says of each how many lines agree with this
// project and how many do not. A line is a head of fixed places, and then its data.
#![tactic(auto)]

use graphics::Decoded;
use std::io;
use vectors::COLORS;
use vectors::buffers::{fresh_buffer, list_space};
use vectors::hex::{byte_at, color_at, number_at, unpack};
use vectors::replay::{NO_ANSWER, replay};
use vectors::sums::checksum;

const HEAD: usize = 79;

fn main(rt: HostRuntime) -> io::Result<()> {
    let mut space = list_space();
    replay(&rt, "decoders", "decoders.txt", &mut space, agrees)?;
    replay(
        &rt,
        "decoders' refusals",
        "decoders_refusals.txt",
        &mut space,
        agrees,
    )
}

fn agrees(line: &[u8]) -> bool {
    let Some((head, hex)) = line.split_first_chunk::<HEAD>() else {
        return false;
    };
    let room = number_at(head, 38, 6) as usize;
    let size = number_at(head, 75, 4) as usize;
    if hex.len() != size * 2 + 1 || size > 4096 || room > 4096 {
        return false;
    }
    let mut data = [0; 4096];
    let mut out = fresh_buffer();
    unpack(hex, 0, size, &mut data);
    decoded(head, &data[..size], &mut out[..room])
}

fn decoded(head: &[u8; HEAD], data: &[u8], out: &mut [u8]) -> bool {
    says(head, decode(head, data, out)) && checksum(out) == number_at(head, 66, 8)
}

// An unknown kind of line has no answer.
fn decode(head: &[u8; HEAD], data: &[u8], out: &mut [u8]) -> Option<Decoded> {
    let w = number_at(head, 2, 8);
    let h = number_at(head, 11, 8);
    let x = byte_at(head, 20);
    let y = byte_at(head, 23);
    let n = byte_at(head, 26);
    let c = color_at(head, 29);
    let answer = match head[0] {
        b'r' => graphics::image_from_raster_bytes_single_color(w, h, x, y, c, data, true, out),
        b's' => graphics::image_from_raster_bytes_single_color(w, h, x, y, c, data, false, out),
        b'c' => graphics::image_from_column_bytes_single_color(w, h, x, y, c, data, out),
        b'm' => graphics::image_from_raster_bytes_multi_color(
            w, h, x, y, n, COLORS, data, true, out,
        ),
        b'l' => graphics::image_from_raster_bytes_multi_color(
            w, h, x, y, n, COLORS, data, false, out,
        ),
        _ => return None,
    };
    Some(answer)
}

fn says(head: &[u8; HEAD], answer: Option<Decoded>) -> bool {
    let d = answer.unwrap_or(Decoded {
        number: NO_ANSWER,
        w: 0,
        h: 0,
    });
    d.number == byte_at(head, 45) && d.w == number_at(head, 48, 8) && d.h == number_at(head, 57, 8)
}
