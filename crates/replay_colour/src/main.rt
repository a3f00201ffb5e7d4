// Replays the fixed list of colour's answers, and says how many of its lines agree with this
// project and how many do not. A line is `K DDDDDDDD CCCCCCCC XX RRRRRRRR`: an operation, a dot, a
// colour, an alpha or a colour number, and the original's answer.
#![tactic(auto)]

use std::io;
use vectors::COLORS;
use vectors::hex::{byte_at, color_at};
use vectors::replay::replay;

const LINE: usize = 32;

fn main(rt: HostRuntime) -> io::Result<()> {
    let mut space = [0; 65536];
    replay(&rt, "colour", "colour.txt", &mut space, agrees)
}

fn agrees(line: &[u8]) -> bool {
    if line.len() != LINE {
        return false;
    }
    let dot = color_at(line, 2);
    let color = color_at(line, 11);
    let x = byte_at(line, 20);
    let answer = color_at(line, 23);
    match line[0] {
        b'a' => dot.with_alpha(x) == answer,
        b'b' => dot.blend_foreground(color) == answer,
        b'm' => dot.multiply_foreground(color) == answer,
        b'n' => COLORS.color_for_number(x) == answer,
        b'w' => dot.blend_foreground_with_alpha(color, x) == answer,
        _ => false,
    }
}
