// An area blended with its top-to-bottom mirror.
ghost use Rattle.std.specs.Prelude.{◌≡◌, ◌⊎◌, ◌+◌, ◌*◌, ◌≤◌, length};
ghost use Rattle.areas.specs.Areas.{Fits, flipped_on};
ghost use Rattle.areas.specs.Steps.{pair_on};

use super::area::Area;
use moves::copy_run;
use pixels::put_run;

// The dots of a piece.
const PIECE: usize = 256;

// A piece of two rows, or of one that is its own mirror: both are taken before either is drawn on.
// They go through arrays so that they are blended as pixels are, in vectors.
fn flip_some(buf: &mut [u8], top: usize, bottom: usize, count: usize)
    requires { (count ≤ 256) × ((top ≡ bottom) ⊎ (top + count ≤ bottom)) × (top ≤ bottom) × ((bottom + count) * 4 ≤ length buf.old) }
    ensures { buf.new ≡ pair_on top bottom count buf.old }
{
    let mut above = [0u8; 1024];
    let mut below = [0u8; 1024];
    copy_run(buf, top, &mut above, 0, count);
    copy_run(buf, bottom, &mut below, 0, count);
    put_run(buf, top, count, &below, 0, false);
    if top == bottom {
        return;
    }
    put_run(buf, bottom, count, &above, 0, false);
}

// Two rows, the one that starts at dot `top` and the one at `bottom`, or one that is its own mirror.
fn flip_rows(buf: &mut [u8], top: usize, bottom: usize, w: usize)
    requires { ((top ≡ bottom) ⊎ (top + w ≤ bottom)) × (top ≤ bottom) × ((bottom + w) * 4 ≤ length buf.old) }
    ensures { buf.new ≡ pair_on top bottom w buf.old }
{
    let pieces = w / PIECE;
    for p in 0..pieces {
        flip_some(buf, top + p * PIECE, bottom + p * PIECE, PIECE);
    }
    let i = pieces * PIECE;
    flip_some(buf, top + i, bottom + i, w - i);
}

// Rows in pairs, from the outermost to the middle.
pub fn flip_area(buf: &mut [u8], area: Area)
    requires { Fits area.wide area.x area.y area.w area.h (length buf.old) }
    ensures { buf.new ≡ flipped_on area.wide area.x area.y area.w area.h buf.old }
{
    for j in 0..area.h.div_ceil(2) {
        let top = area.start_of(j);
        let bottom = area.start_of(area.h - 1 - j);
        flip_rows(buf, top, bottom, area.w);
    }
}
