// One channel, a byte: c goes onto s at alpha a.
ghost use Rattle.std.specs.Prelude.{◌≡◌, T};
ghost use Rattle.colour.specs.Channel.{blend_byte, Multiplied, round_away, in_byte};

// (t + t / 256) / 256 with t = n + 128 is the whole number nearest n / 255, without a division.
pub fn blend_channel(s: u8, c: u8, a: u8) -> u8
    ensures { result ≡ blend_byte s c a }
{
    let t = (c as u16) * (a as u16) + (s as u16) * (255 - (a as u16)) + 128;
    ((t + t / 256) / 256) as u8
}

pub fn multiply_channel(s: u8, c: u8, a: u8) -> u8
    ensures { Multiplied s c a result }
{
    let alpha = a as f32 / 255.0;
    round_to_byte((s as f32 / 255.0 * c as f32 / 255.0 * alpha) * 255.0)
}

// The Rust's `v.round() as u8`. Doubling is exact, and the whole part of 2v, plus one, halved, is
// the whole part of v + 1/2.
fn round_to_byte(v: f32) -> u8
    requires { T (in_byte v) }
    ensures { result ≡ round_away v }
{
    let t = std::num::truncating_f32_to_u64(v * 2.0);
    ((t + 1) / 2) as u8
}
