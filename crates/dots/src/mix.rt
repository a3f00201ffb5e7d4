// A colour drawn over a run of dots byte by byte, against arrays of 64 numbers that are made once,
// since bytes in a row become vectors of 16-bit numbers.
ghost use Rattle.std.specs.Prelude.{◌≡◌, ℕ, ◌+◌, ◌*◌, ◌/◌, ◌%◌, ◌≤◌, ◌<◌, length};
ghost use Rattle.colour.specs.Colour.{rgba};
ghost use Rattle.dots.specs.Dots.{chan, change, within, drawn};
ghost use Rattle.dots.specs.Tables.{lanes, factors, terms, Whole};

use super::brush::Brush;
use colour::RGBA;

fn lanes(x: u16, y: u16, z: u16, w: u16) -> [u16; 64]
    ensures { result ≡ lanes (rgba x y z w) }
{
    let mut p = [0u16; 64];
    for i in 0..16 {
        let j = i * 4;
        p[j] = x;
        p[j + 1] = y;
        p[j + 2] = z;
        p[j + 3] = w;
    }
    p
}

pub fn mix_factors(c: RGBA, multiply: bool) -> [u16; 64]
    ensures { result ≡ lanes (factors multiply c) }
{
    if multiply {
        return lanes(c.r as u16, c.g as u16, c.b as u16, 255);
    }
    if c.a == RGBA::OPAQUE {
        return lanes(0, 0, 0, 0);
    }
    let f = 255 - (c.a as u16);
    lanes(f, f, f, 255)
}

fn term(c: u8, a: u8) -> u16
    ensures { result ≡ c * a + 128 }
{
    (c as u16) * (a as u16) + 128
}

pub fn mix_terms(c: RGBA, multiply: bool) -> [u16; 64]
    ensures { result ≡ lanes (terms multiply c) }
{
    if multiply {
        return lanes(128, 128, 128, 128);
    }
    let r = term(c.r, c.a);
    let g = term(c.g, c.a);
    let b = term(c.b, c.a);
    if c.a == RGBA::OPAQUE {
        return lanes(r, g, b, term(c.a, c.a));
    }
    lanes(r, g, b, 128)
}

// The whole number nearest (s * m + k - 128) / 255, without a division.
pub fn mix_byte(s: u8, m: u16, k: u16) -> u8
    requires { 255 * m + k ≤ 65153 }
    ensures { result ≡ (s * m + k + (s * m + k) / 256) / 256 }
{
    let t = (s as u16) * m + k;
    ((t + t / 256) / 256) as u8
}

// A colour with its factors and terms, one of each for each byte of 16 dots. The arrays are lent: held
// in the struct, they would be copied number by number as it is made, which takes longer than a short
// run.
#[derive(Clone, Copy)]
pub struct Mix<'a> {
    pub color: RGBA,
    pub multiply: bool,
    factor: &'a [u16; 64],
    term: &'a [u16; 64],
    ghost whole: { Whole multiply color },
    ghost bytes: { (k : ℕ) → k < 4 → chan color k ≤ 255 },
    ghost made: { (factor.now ≡ lanes (factors multiply color)) × (term.now ≡ lanes (terms multiply color)) },
}

impl<'a> Mix<'a> {
    // Takes what mix_factors and mix_terms make of the colour.
    pub fn of(color: RGBA, multiply: bool, factor: &'a [u16; 64], term: &'a [u16; 64]) -> Mix<'a>
        requires whole { Whole multiply color }
        requires made { (factor.now ≡ lanes (factors multiply color)) × (term.now ≡ lanes (terms multiply color)) }
        ensures { (result.color ≡ color) × (result.multiply ≡ multiply) }
    {
        Mix {
            color,
            multiply,
            factor,
            term,
        }
    }

    // What byte j of the 16 dots becomes where it was s: a byte hangs on the byte before it alone.
    pub fn byte(&self, j: usize, s: u8) -> u8
        requires { j < 64 }
        ensures { result ≡ chan (drawn self.now.multiply self.now.color (rgba s s s s)) (j % 4) }
    {
        mix_byte(s, self.factor[j], self.term[j])
    }
}

// The dots that go at once.
const BLOCK: usize = 16;

// Where `count` is the constant 16 the compiler makes vectors of the loop.
fn mix_some(buf: &mut [u8], at: usize, count: usize, mix: &Mix)
    requires { (count ≤ 16) × ((at + count) * 4 ≤ length buf.old) }
    ensures { buf.new ≡ change (within at (at + count)) (λ _ s. drawn mix.now.multiply mix.now.color s) buf.old }
{
    let from = at * 4;
    for j in 0..count * 4 {
        buf[from + j] = mix.byte(j, buf[from + j]);
    }
}

impl Brush for Mix<'_> {
    ghost dot = { λ m s. drawn m.multiply m.color s };

    fn draw_dots(&self, buf: &mut [u8], at: usize, count: usize) {
        // A range of blocks makes the three dots of a stretched bit take a third longer.
        let end = at + count;
        let mut i = at;
        while end - i >= BLOCK {
            mix_some(buf, i, BLOCK, self);
            i += BLOCK;
        }
        mix_some(buf, i, end - i, self);
    }
}
