// A picture moved down to make room for rows of paper above it.
ghost use Rattle.std.specs.Prelude.{◌≡◌, ◌+◌, ◌-◌, ◌*◌, ◌≤◌, length};
ghost use Rattle.dots.specs.Dots.{dot_at, change, within};
ghost use Rattle.moves.specs.Moves.{lowered_on};

use super::run::{BLOCK, move_block, move_run};
use colour::RGBA;
use dots::fill_run;

// The n dots of a picture, `by` on, block by block. The last first, since each may go to where the one
// after it lay; what stands before the first whole block comes at the end.
fn move_on(buf: &mut [u8], n: usize, by: usize)
    requires { (by + n) * 4 ≤ length buf.old }
    ensures { buf.new ≡ change (within by (by + n)) (λ i _. dot_at buf.old (i - by)) buf.old }
{
    let rest = n % BLOCK;
    for i in (0..n / BLOCK).rev() {
        move_block(buf, rest + i * BLOCK, by);
    }
    move_run(buf, 0, by, rest);
}

pub fn move_down(buf: &mut [u8], n: usize, by: usize, paper: RGBA)
    requires { (by + n) * 4 ≤ length buf.old }
    ensures { buf.new ≡ lowered_on n by paper buf.old }
{
    move_on(buf, n, by);
    fill_run(buf, 0, by, paper);
}
