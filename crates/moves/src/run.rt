// A run of dots moved on within its buffer.
ghost use Rattle.std.specs.Prelude.{◌≡◌, ◌+◌, ◌-◌, ◌*◌, ◌≤◌, length};
ghost use Rattle.dots.specs.Dots.{dot_at, change, within};

use super::copy::copy_run;

// From the last byte to the first, so that the dots may overlap those that they go to; and bytes in
// a row become vectors.
pub fn move_run(buf: &mut [u8], at: usize, by: usize, count: usize)
    requires { (at + by + count) * 4 ≤ length buf.old }
    ensures { buf.new ≡ change (within (at + by) (at + by + count)) (λ i _. dot_at buf.old (i - by)) buf.old }
{
    let from = at * 4;
    let to = (at + by) * 4;
    for i in (0..count * 4).rev() {
        buf[to + i] = buf[from + i];
    }
}

// The dots of a block.
pub(crate) const BLOCK: usize = 16384;

// A block of dots, `by` on. The compiler leaves the array out and calls the C library for one move.
pub(crate) fn move_block(buf: &mut [u8], at: usize, by: usize)
    requires { (at + by + 16384) * 4 ≤ length buf.old }
    ensures { buf.new ≡ change (within (at + by) (at + by + 16384)) (λ i _. dot_at buf.old (i - by)) buf.old }
{
    let mut block = [0u8; 65536];
    copy_run(buf, at, &mut block, 0, BLOCK);
    copy_run(&block, 0, buf, at + by, BLOCK);
}
