// Pixels drawn on a run of dots byte by byte, 16 dots at a time, since bytes in a row become vectors.
// Each byte has an ink and an alpha of its own, so that neither the alpha byte nor a clear pixel needs
// a branch.
ghost use Rattle.std.specs.Prelude.{true, false, ◌⊎◌, ◌≡◌, ◌+◌, ◌*◌, ◌≤◌, length};
ghost use Rattle.pixels.specs.Pixels.{pixels_on};
ghost use Rattle.pixels.specs.Steps.{all_crisp, inks, alphas, spread_on, drawn_byte};

use colour::RGBA;
use colour::channel::blend_channel;
use dots::{load_dot, mix_byte, scale_byte, store_dot};

fn inks(p: RGBA, multiply: bool) -> RGBA
    ensures { result ≡ inks multiply p }
{
    if multiply {
        if p.a == RGBA::TRANSPARENT {
            return RGBA::WHITE;
        }
        return RGBA {
            r: p.r,
            g: p.g,
            b: p.b,
            a: 255,
        };
    }
    p
}

fn alphas(p: RGBA, multiply: bool) -> RGBA
    ensures { result ≡ alphas multiply p }
{
    if multiply {
        let a = if p.a == RGBA::TRANSPARENT { 255 } else { p.a };
        return RGBA {
            r: a,
            g: a,
            b: a,
            a: 255,
        };
    }
    let a = if p.a == RGBA::OPAQUE {
        RGBA::OPAQUE
    } else {
        RGBA::TRANSPARENT
    };
    RGBA {
        r: p.a,
        g: p.a,
        b: p.a,
        a,
    }
}

// Inks and alphas are written to arrays of their own: the compiler need not ask whether a write to the
// dots changes them.
fn spread(
    ink: &mut [u8],
    alpha: &mut [u8],
    count: usize,
    pixels: &[u8],
    from: usize,
    multiply: bool,
)
    requires { (count * 4 ≤ length ink.old) × (count * 4 ≤ length alpha.old) × ((from + count) * 4 ≤ length pixels.now) }
    ensures ink_after { ink.new ≡ spread_on (inks multiply) pixels.now from count ink.old }
    ensures alpha_after { alpha.new ≡ spread_on (alphas multiply) pixels.now from count alpha.old }
{
    for i in 0..count {
        let p = load_dot(pixels, from + i);
        store_dot(ink, i, inks(p, multiply));
        store_dot(alpha, i, alphas(p, multiply));
    }
}

// At full alpha a product fits 16 bits.
fn draw_byte(s: u8, c: u8, a: u8, multiply: bool, full: bool) -> u8
    requires { (full ≡ false) ⊎ (a ≡ 255) }
    ensures { result ≡ drawn_byte multiply s c a }
{
    if multiply {
        if full {
            return mix_byte(s, c as u16, 128);
        }
        return scale_byte(s, (c as u32) * (a as u32));
    }
    blend_channel(s, c, a)
}

// Where `count` is the constant 16 the compiler makes vectors of both loops.
fn draw_some(
    buf: &mut [u8],
    at: usize,
    count: usize,
    pixels: &[u8],
    from: usize,
    multiply: bool,
    full: bool,
)
    requires count_bound { (count ≤ 16) × ((at + count) * 4 ≤ length buf.old) × ((from + count) * 4 ≤ length pixels.now) }
    requires fact { (full ≡ false) ⊎ ((multiply ≡ true) × (all_crisp pixels.now from count ≡ true)) }
    ensures { buf.new ≡ pixels_on multiply pixels.now from at count buf.old }
{
    // four bytes for each of 16 pixels
    let mut ink = [0u8; 64];
    let mut alpha = [0u8; 64];
    spread(&mut ink, &mut alpha, count, pixels, from, multiply);
    let to = at * 4;
    for j in 0..count * 4 {
        buf[to + j] = draw_byte(buf[to + j], ink[j], alpha[j], multiply, full);
    }
}

// With `full` the pixels are multiplied, and all of them are clear or opaque. Two flags, and no kind with
// three: each call gives both as constants, and the definitions take the mode as a Bool.
pub fn draw_bytes(
    buf: &mut [u8],
    at: usize,
    count: usize,
    pixels: &[u8],
    from: usize,
    multiply: bool,
    full: bool,
)
    requires count_in_bounds { ((at + count) * 4 ≤ length buf.old) × ((from + count) * 4 ≤ length pixels.now) }
    requires fact { (full ≡ false) ⊎ ((multiply ≡ true) × (all_crisp pixels.now from count ≡ true)) }
    ensures { buf.new ≡ pixels_on multiply pixels.now from at count buf.old }
{
    let blocks = count / 16;
    for b in 0..blocks {
        let i = b * 16;
        draw_some(buf, at + i, 16, pixels, from + i, multiply, full);
    }
    let done = blocks * 16;
    draw_some(
        buf,
        at + done,
        count - done,
        pixels,
        from + done,
        multiply,
        full,
    );
}
