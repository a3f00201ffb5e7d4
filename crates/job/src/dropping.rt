// What a command is dropped for, from the paper's width, the height so far and the command's own
// numbers, and the height after one that is kept.
ghost use Rattle.std.specs.Prelude.{◌≡◌, ◌+◌, ◌≤◌, max};
ghost use Rattle.numbers.specs.Numbers.{limit, number};
ghost use Rattle.images.specs.Stretching.{factor};
ghost use Rattle.job.specs.Dropping.{put_reason, image_reason, flip_reason, reason_of, height_after};

use super::commands::Command;
use images::{Format, bytes_of, factor_of, is_large};
use numbers::Refusal;
use refusals::{across_refusal, empty_refusal, off_refusal, side_refusal, tall_refusal};

// A dropped command: the first after the paper has place 0.
#[repr(C)]
#[derive(Clone, Copy)]
pub struct Dropped {
    pub place: u32,
    pub reason: u8,
}

// The height once an area of h rows from y on is there. A sum of two u32 fits a usize.
fn reached(height: u32, y: u32, h: u32) -> usize
    ensures { result ≡ max height (y + h) }
{
    (height as usize).max(y as usize + h as usize)
}

fn put_reason(width: u32, height: u32, x: u32, y: u32, w: u32, h: u32) -> Result<(), Refusal>
    ensures { number result ≡ put_reason width height x y w h }
{
    side_refusal(w, h)?;
    off_refusal(width, height, true, x, y)?;
    tall_refusal(reached(height, y, h))
}

fn image_reason(
    width: u32,
    height: u32,
    x: u32,
    y: u32,
    w: u32,
    h: u32,
    stretch_x: u8,
    stretch_y: u8,
    size: usize,
) -> Result<(), Refusal>
    ensures { number result ≡ image_reason width height x y w h (factor stretch_x) (factor stretch_y) size }
{
    let fx = factor_of(stretch_x);
    let fy = factor_of(stretch_y);
    if is_large(w, h, fx, fy) {
        return Err(Refusal::TooLarge);
    }
    if size != bytes_of(Format::Bits, w, h) {
        return Err(Refusal::WrongLength);
    }
    put_reason(width, height, x, y, w * fx, h * fy)
}

fn flip_reason(width: u32, height: u32, x: u32, y: u32, w: u32, h: u32) -> Result<(), Refusal>
    ensures { number result ≡ flip_reason width height x y w h }
{
    empty_refusal(w, h)?;
    across_refusal(width, x, w)?;
    tall_refusal(reached(height, y, h))
}

// A run and a translation ask this of each command: it is drawn into their loops, since a call makes a run
// whose commands are all dropped take a quarter longer.
#[inline(always)]
pub fn command_reason(width: u32, height: u32, c: Command) -> Result<(), Refusal>
    ensures { number result ≡ reason_of width height c }
{
    match c {
        Command::Rectangle { x, y, w, h, .. } => put_reason(width, height, x, y, w, h),
        Command::Image {
            x,
            y,
            w,
            h,
            stretch_x,
            stretch_y,
            size,
            ..
        } => image_reason(width, height, x, y, w, h, stretch_x, stretch_y, size),
        Command::Margin(m) => tall_refusal(height as usize + m as usize),
        Command::Flip { x, y, w, h } => flip_reason(width, height, x, y, w, h),
    }
}

// A command that is kept leaves a height within the limit.
pub fn height_after(height: u32, c: Command) -> u32
    requires { height_after height c ≤ limit }
    ensures { result ≡ height_after height c }
{
    match c {
        Command::Rectangle { y, h, .. } => reached(height, y, h) as u32,
        Command::Image {
            y,
            h,
            stretch_y,
            ..
        } => reached(height, y, h * factor_of(stretch_y)) as u32,
        Command::Margin(m) => height + m,
        Command::Flip { y, h, .. } => reached(height, y, h) as u32,
    }
}
