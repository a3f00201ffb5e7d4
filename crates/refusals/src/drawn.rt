// What drawing w by h at (x, y) on a canvas `wide` by `tall` is refused for, and commands of a job are
// dropped for; a border by its sizes alone.
ghost use Rattle.std.specs.Prelude.{◌≡◌};
ghost use Rattle.numbers.specs.Numbers.{number};
ghost use Rattle.refusals.specs.Refusals.{side_refusal, off_refusal, across_refusal, empty_refusal};

use numbers::{LIMIT, Refusal};

pub fn side_refusal(w: u32, h: u32) -> Result<(), Refusal>
    ensures { number result ≡ side_refusal w h }
{
    if w > LIMIT || h > LIMIT {
        return Err(Refusal::TooLarge);
    }
    Ok(())
}

pub fn off_refusal(wide: u32, tall: u32, grow: bool, x: u32, y: u32) -> Result<(), Refusal>
    ensures { number result ≡ off_refusal wide tall grow x y }
{
    if wide <= x || (!grow && tall <= y) {
        return Err(Refusal::OffPaper);
    }
    Ok(())
}

// A sum of two u32 fits a usize.
pub fn across_refusal(wide: u32, x: u32, w: u32) -> Result<(), Refusal>
    ensures { number result ≡ across_refusal wide x w }
{
    if (wide as usize) < x as usize + w as usize {
        return Err(Refusal::OffPaper);
    }
    Ok(())
}

pub fn empty_refusal(w: u32, h: u32) -> Result<(), Refusal>
    ensures { number result ≡ empty_refusal w h }
{
    if w == 0 || h == 0 {
        return Err(Refusal::EmptyArea);
    }
    Ok(())
}
