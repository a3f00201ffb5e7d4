// A picture widened by paper at both sides.
ghost use Rattle.std.specs.Prelude.{◌≡◌, ◌+◌, ◌-◌, ◌*◌, ◌≤◌, length};
ghost use Rattle.dots.specs.Dots.{change, within};
ghost use Rattle.moves.specs.Moves.{padded_at, padded_on};

use super::run::move_run;
use colour::RGBA;
use dots::fill_run;

// How far `to` lies past `from`. As a choice: by a plain difference the compiler sees that all rows
// together go to where others still lie, and moves each of them byte by byte.
fn apart(from: usize, to: usize) -> usize
    ensures { result ≡ to - from }
{
    if to < from {
        return 0;
    }
    to - from
}

// Row r of the wide picture. Its dots are moved before paper is laid, which may cover where they were.
fn widen_row(buf: &mut [u8], w: usize, wide: usize, left: usize, paper: RGBA, r: usize)
    requires { (left + w ≤ wide) × ((r * wide + wide) * 4 ≤ length buf.old) }
    ensures { buf.new ≡ change (within (r * wide) (r * wide + wide)) (λ i _. padded_at w left paper buf.old (i - r * wide) r) buf.old }
{
    let from = r * w;
    let at = r * wide;
    let to = at + left;
    let end = to + w;
    let by = apart(from, to);
    move_run(buf, from, by, w);
    fill_run(buf, at, left, paper);
    fill_run(buf, end, at + wide - end, paper);
}

// From the last row to the first, so that no row is written before it is moved.
pub fn widen(buf: &mut [u8], w: usize, h: usize, wide: usize, left: usize, paper: RGBA)
    requires { (left + w ≤ wide) × (wide * h * 4 ≤ length buf.old) }
    ensures { buf.new ≡ padded_on w h wide left paper buf.old }
{
    for r in (0..h).rev() {
        widen_row(buf, w, wide, left, paper, r);
    }
}
