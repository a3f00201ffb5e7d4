// What the programs that replay the fixed lists share: compare/README.md, "The fixed lists".
#![tactic(auto)]

pub mod buffers;
pub mod hex;
pub mod lines;
pub mod replay;
pub mod seeds;
pub mod sums;

use colour::{RGBA, RenderColors};

// The paper and the inks of the lists.
pub const COLORS: RenderColors = RenderColors {
    paper_color: RGBA {
        r: 0x01,
        g: 0x02,
        b: 0x03,
        a: 0x04,
    },
    color_1: RGBA {
        r: 0x11,
        g: 0x12,
        b: 0x13,
        a: 0x14,
    },
    color_2: RGBA {
        r: 0x21,
        g: 0x22,
        b: 0x23,
        a: 0x24,
    },
    color_3: RGBA {
        r: 0x31,
        g: 0x32,
        b: 0x33,
        a: 0x34,
    },
};
