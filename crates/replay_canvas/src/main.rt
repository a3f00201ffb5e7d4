// Replays the fixed lists of the canvas's histories, and says of each how many lines agree with this
// project and how many do not. A line is 167 bytes at fixed places, one call. Each finds two buffers
// as the line before leaves them; one holds the canvas, the other is written out to.
#![tactic(auto)]

mod calls;
mod drawn;
mod record;

use calls::answer;
use record::{LINE, says};
use std::io;
use vectors::buffers::{fresh_buffer, list_space};
use vectors::hex::number_at;
use vectors::replay::replay;
use vectors::sums::checksum;

fn main(rt: HostRuntime) -> io::Result<()> {
    let mut space = list_space();
    replay_list(&rt, "canvas", "canvas.txt", &mut space)?;
    replay_list(&rt, "canvas's refusals", "canvas_refusals.txt", &mut space)?;
    replay_list(&rt, "drawing", "drawing.txt", &mut space)?;
    replay_list(
        &rt,
        "drawing's refusals",
        "drawing_refusals.txt",
        &mut space,
    )
}

fn replay_list(rt: &HostRuntime, name: &str, path: &str, space: &mut [u8]) -> io::Result<()> {
    let mut one = fresh_buffer();
    let mut two = fresh_buffer();
    replay(
        rt,
        name,
        path,
        space,
        |line| agrees(line, &mut one, &mut two),
    )
}

// A line ends in the checksums of both buffers.
fn agrees(line: &[u8], one: &mut [u8], two: &mut [u8]) -> bool {
    let Some(line) = line.as_array::<LINE>() else {
        return false;
    };
    asked(line, one, two)
        && checksum(one) == number_at(line, 149, 8)
        && checksum(two) == number_at(line, 158, 8)
}

// The line names the buffer that holds the canvas.
fn asked(line: &[u8; LINE], one: &mut [u8], two: &mut [u8]) -> bool {
    if line[2] == b'0' {
        return called(line, one, two);
    }
    called(line, two, one)
}

fn called(line: &[u8; LINE], buf: &mut [u8], out: &mut [u8]) -> bool {
    let n = number_at(line, 85, 6) as usize;
    let m = number_at(line, 92, 6) as usize;
    if buf.len() < n || out.len() < m {
        return false;
    }
    says(line, answer(line, &mut buf[..n], &mut out[..m]))
}
