// A picture turned by quarters, into a second buffer.
ghost use Rattle.std.specs.Prelude.{◌≡◌, ◌+◌, ◌-◌, ◌*◌, ◌≤◌, ◌<◌, length};
ghost use Rattle.dots.specs.Dots.{dot_at, change, within};
ghost use Rattle.moves.specs.Moves.{turned_dot, turned_on};
ghost use Rattle.moves.specs.Steps.{quarter, along, in_rect};

use super::turned::Turn;
use dots::{get_dot, load_dot, set_dot, store_dot};

// n dots, the last first. By words, so that the compiler makes vectors of the loop.
fn turn_half(src: &[u8], n: usize, out: &mut [u8])
    requires { (n * 4 ≤ length src.now) × (n * 4 ≤ length out.old) }
    ensures { out.new ≡ change (within 0 n) (λ i _. dot_at src.now (n - 1 - i)) out.old }
{
    for i in 0..n {
        let d = load_dot(src, n - 1 - i);
        store_dot(out, i, d);
    }
}

#[tactic(auto, unfolding(crate::specs::Steps::along))]
fn along(n: usize, i: usize, back: bool) -> usize
    requires { i < n }
    ensures { result ≡ along n i back }
{
    if back { n - 1 - i } else { i }
}

// A picture that is turned by a quarter, to the right or to the left.
#[derive(Clone, Copy)]
struct Quarter<'a> {
    src: &'a [u8],
    w: usize,
    h: usize,
    left: bool,
    ghost room: { w * h * 4 ≤ length src.now },
}

impl Quarter<'_> {
    // `columns` dots of row r, from column c on: they stood along one column of the source.
    fn turn_row(&self, r: usize, c: usize, columns: usize, out: &mut [u8])
        requires { (self.now.w * self.now.h * 4 ≤ length out.old) × (r < self.now.w) × (c + columns ≤ self.now.h) }
        ensures { out.new ≡ change (in_rect self.now.h c (c + columns) r (r + 1)) (turned_dot (quarter self.now.left) self.now.w self.now.h self.now.src.now) out.old }
    {
        let x = along(self.w, r, self.left);
        for k in c..c + columns {
            let y = along(self.h, k, !self.left);
            let d = get_dot(self.src, y * self.w + x);
            set_dot(out, r * self.h + k, d);
        }
    }

    // `columns` columns from column c on, row by row, so that each of their source rows is read along.
    fn turn_rows(&self, c: usize, columns: usize, out: &mut [u8])
        requires { (self.now.w * self.now.h * 4 ≤ length out.old) × (c + columns ≤ self.now.h) }
        ensures { out.new ≡ change (in_rect self.now.h c (c + columns) 0 self.now.w) (turned_dot (quarter self.now.left) self.now.w self.now.h self.now.src.now) out.old }
    {
        for r in 0..self.w {
            self.turn_row(r, c, columns, out);
        }
    }
}

// The columns of a strip: a line of a cache has as many dots.
const STRIP: usize = 16;

fn turn_quarter(src: &[u8], w: usize, h: usize, left: bool, out: &mut [u8])
    requires { (w * h * 4 ≤ length src.now) × (w * h * 4 ≤ length out.old) }
    ensures { out.new ≡ turned_on (quarter left) w h src.now out.old }
{
    let quarter = Quarter { src, w, h, left };
    let strips = h / STRIP;
    for s in 0..strips {
        quarter.turn_rows(s * STRIP, STRIP, out);
    }
    quarter.turn_rows(strips * STRIP, h % STRIP, out);
}

// Each quarter turn by itself, so that the compiler makes a loop for it that does not ask which it is.
pub fn turn(src: &[u8], w: usize, h: usize, by: Turn, out: &mut [u8])
    requires { (w * h * 4 ≤ length src.now) × (w * h * 4 ≤ length out.old) }
    ensures { out.new ≡ turned_on by w h src.now out.old }
{
    match by {
        Turn::Quarter => turn_quarter(src, w, h, false, out),
        Turn::Half => turn_half(src, w * h, out),
        Turn::ThreeQuarters => turn_quarter(src, w, h, true, out),
    }
}
