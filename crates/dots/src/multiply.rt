// A colour multiplied over dots by whole numbers: for all bytes the six f32 operations give the
// whole number nearest s * c * a / 65025, which colour proves. Below full alpha a long run of dots
// goes by tables of the 256 answers for each channel, since a lookup is sooner done than a division.
ghost use Rattle.std.specs.Prelude.{◌≡◌, ◌+◌, ◌*◌, ◌≤◌, ◌<◌, length};
ghost use Rattle.colour.specs.Channel.{nearest, multiply_byte};
ghost use Rattle.colour.specs.Colour.{multiplied};
ghost use Rattle.dots.specs.Dots.{change, within};
ghost use Rattle.dots.specs.Tables.{multiply_table};

use super::brush::Brush;
use super::dot::{get_dot, set_dot};
use colour::RGBA;

// The whole number nearest s * f / 65025.
pub fn scale_byte(s: u8, f: u32) -> u8
    requires { f ≤ 65025 }
    ensures { result ≡ nearest (s * f) 65025 }
{
    (((s as u32) * f + 32512) / 65025) as u8
}

fn multiply_byte(s: u8, c: u8, a: u8) -> u8
    ensures { result ≡ multiply_byte s c a }
{
    scale_byte(s, (c as u32) * (a as u32))
}

pub fn multiply_dot(s: RGBA, c: RGBA) -> RGBA
    requires { 0 < c.a }
    ensures { result ≡ multiplied c s }
{
    RGBA {
        r: multiply_byte(s.r, c.r, c.a),
        g: multiply_byte(s.g, c.g, c.a),
        b: multiply_byte(s.b, c.b, c.a),
        a: s.a,
    }
}

pub fn multiply_table(c: u8, a: u8) -> [u8; 256]
    ensures { result ≡ multiply_table c a }
{
    let f = (c as u32) * (a as u32);
    let mut t = [0u8; 256];
    for s in 0..256 {
        t[s] = scale_byte(s as u8, f);
    }
    t
}

// A colour with the tables of its channels.
#[derive(Drop)]
pub struct Tables {
    pub color: RGBA,
    pub r: [u8; 256],
    pub g: [u8; 256],
    pub b: [u8; 256],
    ghost some: { 0 < color.a },
    ghost made: { (r ≡ multiply_table color.r color.a) × (g ≡ multiply_table color.g color.a) × (b ≡ multiply_table color.b color.a) },
}

impl Tables {
    pub fn of(color: RGBA) -> Tables
        requires { 0 < color.a }
        ensures { result.color ≡ color }
    {
        Tables {
            color,
            r: multiply_table(color.r, color.a),
            g: multiply_table(color.g, color.a),
            b: multiply_table(color.b, color.a),
        }
    }

    fn look_up(&self, s: RGBA) -> RGBA
        ensures { result ≡ multiplied self.now.color s }
    {
        RGBA {
            r: self.r[s.r as usize],
            g: self.g[s.g as usize],
            b: self.b[s.b as usize],
            a: s.a,
        }
    }
}

impl Brush for Tables {
    ghost dot = { λ t s. multiplied t.color s };

    fn draw_dots(&self, buf: &mut [u8], at: usize, count: usize) {
        for i in at..at + count {
            let s = get_dot(buf, i);
            set_dot(buf, i, self.look_up(s));
        }
    }
}
