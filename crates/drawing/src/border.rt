// A border on a picture that fills the first dots of a buffer.
ghost use Rattle.std.specs.Prelude.{◌≡◌, length};
ghost use Rattle.numbers.specs.Numbers.{number};
ghost use Rattle.places.specs.Places.{border_refusal};
ghost use Rattle.drawing.specs.Drawing.{border_on};

use areas::border_area;
use colour::RGBA;
use numbers::Refusal;
use places::border_refusal;

pub fn draw_border(w: u32, h: u32, color: RGBA, buf: &mut [u8]) -> Result<(), Refusal>
    ensures value { number result ≡ border_refusal w h (length buf.old) }
    ensures buf_after { buf.new ≡ border_on w h color buf.old }
{
    border_refusal(w, h, buf.len())?;
    border_area(buf, w as usize, h as usize, color);
    Ok(())
}
