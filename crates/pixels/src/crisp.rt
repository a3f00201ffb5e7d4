// Whether all of some pixels are clear or opaque.
ghost use Rattle.std.specs.Prelude.{◌&&◌, ◌≡◌, ◌+◌, ◌*◌, ◌≤◌, length};
ghost use Rattle.pixels.specs.Steps.{crisp, all_crisp};

use colour::RGBA;
use dots::load_dot;

fn still_crisp(yet: bool, p: RGBA) -> bool
    ensures { result ≡ (yet && crisp p) }
{
    match p.a {
        1..=254 => false,
        _ => yet,
    }
}

// To the last pixel, also where one before it is translucent, so that the compiler makes vectors of
// the loop.
fn crisp_piece(pixels: &[u8], from: usize, count: usize) -> bool
    requires { (from + count) * 4 ≤ length pixels.now }
    ensures { result ≡ all_crisp pixels.now from count }
{
    let mut yet = true;
    for i in 0..count {
        yet = still_crisp(yet, load_dot(pixels, from + i));
    }
    yet
}

// The pixels of a piece, after which it is asked whether to go on.
const PIECE: usize = 32;

pub fn all_crisp(pixels: &[u8], from: usize, count: usize) -> bool
    requires { (from + count) * 4 ≤ length pixels.now }
    ensures { result ≡ all_crisp pixels.now from count }
{
    let pieces = count / PIECE;
    for k in 0..pieces {
        if !crisp_piece(pixels, from + k * PIECE, PIECE) {
            return false;
        }
    }
    let seen = pieces * PIECE;
    crisp_piece(pixels, from + seen, count - seen)
}
