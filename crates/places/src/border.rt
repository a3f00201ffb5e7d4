// What a border is refused for.
ghost use Rattle.std.specs.Prelude.{◌≡◌};
ghost use Rattle.numbers.specs.Numbers.{number};
ghost use Rattle.places.specs.Places.{border_refusal};

use numbers::Refusal;
use refusals::{empty_refusal, room_refusal, side_refusal};

pub fn border_refusal(w: u32, h: u32, n: usize) -> Result<(), Refusal>
    ensures { number result ≡ border_refusal w h n }
{
    side_refusal(w, h)?;
    empty_refusal(w, h)?;
    room_refusal(w, h, n)
}
