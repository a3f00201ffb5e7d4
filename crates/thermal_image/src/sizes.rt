// The width that turning comes to; with the sides swapped, the height.
ghost use Rattle.std.specs.Prelude.{◌≡◌};
ghost use Rattle.moves.specs.Moves.{turned_wide};

use moves::Turn;

pub(crate) fn turned_wide(by: Turn, w: u32, h: u32) -> u32
    ensures { result ≡ turned_wide by w h }
{
    match by {
        Turn::Quarter => h,
        Turn::Half => w,
        Turn::ThreeQuarters => h,
    }
}
