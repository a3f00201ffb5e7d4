// Numbers in lower-case hex at fixed places of a line.
ghost use Rattle.std.specs.Prelude.{◌≡◌, ◌++◌, ◌+◌, ◌*◌, ◌≤◌, length, drop};
ghost use Rattle.vectors.specs.Hex.{digit_of, number_at, byte_at, color_at, bytes_at, is_record};

use colour::RGBA;

// Lower case alone: `to_digit` of std takes upper case too.
fn digit(c: u8) -> u8
    ensures { result ≡ digit_of c }
{
    match c {
        b'0'..=b'9' => c - b'0',
        b'a'..=b'f' => c - b'a' + 10,
        _ => 0,
    }
}

pub fn byte_at(s: &[u8], at: usize) -> u8
    requires { at + 2 ≤ length s.now }
    ensures { result ≡ byte_at s.now at }
{
    digit(s[at]) * 16 + digit(s[at + 1])
}

pub fn number_at(s: &[u8], at: usize, digits: usize) -> u32
    requires { (digits ≤ 8) × (at + digits ≤ length s.now) }
    ensures { result ≡ number_at s.now at digits }
{
    let mut n: u32 = 0;
    for i in 0..digits {
        n = n * 16 + digit(s[at + i]) as u32;
    }
    n
}

pub fn color_at(s: &[u8], at: usize) -> RGBA
    requires { at + 8 ≤ length s.now }
    ensures { result ≡ color_at s.now at }
{
    RGBA {
        r: byte_at(s, at),
        g: byte_at(s, at + 2),
        b: byte_at(s, at + 4),
        a: byte_at(s, at + 6),
    }
}

pub fn unpack(s: &[u8], at: usize, size: usize, out: &mut [u8])
    requires { (size ≤ length out.old) × (at + size * 2 ≤ length s.now) }
    ensures { out.new ≡ bytes_at s.now at size ++ drop size out.old }
{
    for i in 0..size {
        out[i] = byte_at(s, at + i * 2);
    }
}

// Whether the canvas record at a place is the one that was given.
pub fn is_record(s: &[u8], at: usize, width: u32, height: u32, grows: bool, paper: RGBA) -> bool
    requires { at + 28 ≤ length s.now }
    ensures { result ≡ is_record s.now at width height grows paper }
{
    width == number_at(s, at, 8)
        && height == number_at(s, at + 9, 8)
        && grows == (s[at + 18] == b'1')
        && paper == color_at(s, at + 20)
}
