// What an image is refused for, from its sizes and lengths alone.
ghost use Rattle.std.specs.Prelude.{◌≡◌, ◌*◌, ◌≤◌};
ghost use Rattle.numbers.specs.Numbers.{limit, number};
ghost use Rattle.graphics.specs.Decoding.{lacks_room, refusal};
ghost use Rattle.graphics.specs.Layers.{layer_bytes, outgrown, layers_refusal};

use images::{Format, bytes_of, is_large, raster_of};
use numbers::Refusal;

fn lacks_room(w: u32, h: u32, fx: u32, fy: u32, room: usize) -> bool
    requires { (w * fx ≤ limit) × (h * fy ≤ limit) }
    ensures { result ≡ lacks_room w h fx fy room }
{
    room < 4 * ((w * fx) as usize * (h * fy) as usize)
}

pub fn refusal_of(
    format: Format,
    w: u32,
    h: u32,
    fx: u32,
    fy: u32,
    n: usize,
    room: usize,
) -> Result<(), Refusal>
    requires { (fx ≤ 255) × (fy ≤ 255) }
    ensures { number result ≡ refusal format w h fx fy n room }
{
    if is_large(w, h, fx, fy) {
        return Err(Refusal::TooLarge);
    }
    if n != bytes_of(format, w, h) {
        return Err(Refusal::WrongLength);
    }
    if lacks_room(w, h, fx, fy, room) {
        return Err(Refusal::NoRoom);
    }
    Ok(())
}

pub fn layer_bytes(bits: bool, w: usize, h: usize) -> usize
    requires { (w ≤ limit) × (h ≤ limit) }
    ensures { result ≡ layer_bytes bits w h }
{
    if bits {
        return w / 8 * h;
    }
    w * h
}

// A later layer is wider or taller than the first.
fn outgrows(w: u32, h: u32, later_w: u32, later_h: u32) -> bool
    ensures { result ≡ outgrown w h later_w later_h }
{
    w < later_w || h < later_h
}

pub fn layers_refusal(
    bits: bool,
    w: u32,
    h: u32,
    fx: u32,
    fy: u32,
    n: u8,
    size: usize,
    room: usize,
) -> Result<(), Refusal>
    requires { (fx ≤ 255) × (fy ≤ 255) }
    ensures { number result ≡ layers_refusal bits w h fx fy n size room }
{
    if is_large(w, h, fx, fy) {
        return Err(Refusal::TooLarge);
    }
    let layer = layer_bytes(bits, w as usize, h as usize);
    if size != (n as usize) * (1 + layer) {
        return Err(Refusal::WrongLength);
    }
    if n == 0 {
        return Err(Refusal::NoLayers);
    }
    if layer != bytes_of(raster_of(bits), w, h) {
        return Err(Refusal::WrongLength);
    }
    if outgrows(w * fx, h * fy, w * fx, h * fy) {
        return Err(Refusal::LayerSize);
    }
    if lacks_room(w, h, fx, fy, room) {
        return Err(Refusal::NoRoom);
    }
    Ok(())
}
