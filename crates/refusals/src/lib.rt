// What the canvas's own operations are refused for, from sizes and lengths alone: of a canvas w by h
// whose buffer has n bytes. A job's commands are dropped for the same height, and its run is refused
// for the same room. Inner steps, which take any numbers.
#![tactic(auto, using(std::proofs::lemmas::Bool::Decides::nat_tests), unfolding(crate::specs::Refusals::rows_of, crate::specs::Refusals::canvas_refusal, crate::specs::Refusals::tall_refusal, crate::specs::Refusals::wide_refusal, crate::specs::Refusals::room_refusal, crate::specs::Refusals::rgb_room_refusal, crate::specs::Refusals::side_refusal, crate::specs::Refusals::off_refusal, crate::specs::Refusals::across_refusal, crate::specs::Refusals::empty_refusal))]

mod drawn;

ghost use Rattle.std.specs.Prelude.{◌≡◌, ◌*◌, ◌<◌, ltb};
ghost use Rattle.numbers.specs.Numbers.{number};
ghost use Rattle.refusals.specs.Refusals.{rows_of, canvas_refusal, tall_refusal, wide_refusal, room_refusal, rgb_room_refusal, grow_refusal, margin_refusal, widen_refusal, width_refusal, out_refusal, rgb_refusal};

pub use drawn::{across_refusal, empty_refusal, off_refusal, side_refusal};
use numbers::{LIMIT, Refusal};

pub fn rows_of(w: u32, h: u32) -> u32
    ensures { result ≡ rows_of w h }
{
    if w == 0 {
        return 0;
    }
    h
}

// Whether n bytes are too few for w by h dots of `BYTES` each. A product of two u32 fits a usize, and
// `BYTES` times it may not: so the length is divided.
fn lacks_room<const BYTES: usize>(w: u32, h: u32, n: usize) -> bool
    requires { 0 < BYTES }
    ensures { result ≡ ltb n (BYTES * (w * h)) }
{
    n / BYTES < w as usize * h as usize
}

pub fn tall_refusal(h: usize) -> Result<(), Refusal>
    ensures { number result ≡ tall_refusal h }
{
    if h > LIMIT as usize {
        return Err(Refusal::TooTall);
    }
    Ok(())
}

pub fn wide_refusal(w: u32) -> Result<(), Refusal>
    ensures { number result ≡ wide_refusal w }
{
    if w > LIMIT {
        return Err(Refusal::TooLarge);
    }
    Ok(())
}

pub fn room_refusal(w: u32, h: u32, n: usize) -> Result<(), Refusal>
    ensures { number result ≡ room_refusal w h n }
{
    if lacks_room::<4>(w, h, n) {
        return Err(Refusal::NoRoom);
    }
    Ok(())
}

fn rgb_room_refusal(w: u32, h: u32, n: usize) -> Result<(), Refusal>
    ensures { number result ≡ rgb_room_refusal w h n }
{
    if lacks_room::<3>(w, h, n) {
        return Err(Refusal::NoRoom);
    }
    Ok(())
}

pub fn canvas_refusal(w: u32, h: u32, n: usize) -> Result<(), Refusal>
    ensures { number result ≡ canvas_refusal w h n }
{
    if w > LIMIT || h > LIMIT || rows_of(w, h) < h || lacks_room::<4>(w, h, n) {
        return Err(Refusal::BadCanvas);
    }
    Ok(())
}

pub fn grow_refusal(w: u32, h: u32, height: u32, n: usize) -> Result<(), Refusal>
    ensures { number result ≡ grow_refusal w h height n }
{
    canvas_refusal(w, h, n)?;
    tall_refusal(height as usize)?;
    room_refusal(w, h.max(height), n)
}

// The sum of two heights fits a u32 once it is within the limit.
pub fn margin_refusal(w: u32, h: u32, rows: u32, n: usize) -> Result<(), Refusal>
    ensures { number result ≡ margin_refusal w h rows n }
{
    canvas_refusal(w, h, n)?;
    tall_refusal(h as usize + rows as usize)?;
    room_refusal(w, h + rows, n)
}

pub fn width_refusal(w: u32, h: u32, width: u32, n: usize) -> Result<(), Refusal>
    ensures { number result ≡ width_refusal w h width n }
{
    canvas_refusal(w, h, n)?;
    wide_refusal(width)
}

pub fn widen_refusal(w: u32, h: u32, width: u32, n: usize) -> Result<(), Refusal>
    ensures { number result ≡ widen_refusal w h width n }
{
    width_refusal(w, h, width, n)?;
    if width <= w {
        return Ok(());
    }
    room_refusal(width, h, n)
}

pub fn out_refusal(w: u32, h: u32, n: usize, room: usize) -> Result<(), Refusal>
    ensures { number result ≡ out_refusal w h n room }
{
    canvas_refusal(w, h, n)?;
    room_refusal(w, h, room)
}

pub fn rgb_refusal(w: u32, h: u32, n: usize, room: usize) -> Result<(), Refusal>
    ensures { number result ≡ rgb_refusal w h n room }
{
    canvas_refusal(w, h, n)?;
    rgb_room_refusal(w, h, room)
}
