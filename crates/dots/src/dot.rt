// One dot.
ghost use Rattle.std.specs.Prelude.{◌≡◌, ◌+◌, ◌*◌, ◌≤◌, length};
ghost use Rattle.dots.specs.Dots.{dot_at, set_dot};

use colour::RGBA;

pub fn get_dot(buf: &[u8], i: usize) -> RGBA
    requires { i * 4 + 4 ≤ length buf.now }
    ensures { result ≡ dot_at buf.now i }
{
    let at = i * 4;
    RGBA {
        r: buf[at],
        g: buf[at + 1],
        b: buf[at + 2],
        a: buf[at + 3],
    }
}

pub fn set_dot(buf: &mut [u8], i: usize, c: RGBA)
    requires { i * 4 + 4 ≤ length buf.old }
    ensures { buf.new ≡ set_dot buf.old i c }
{
    let at = i * 4;
    buf[at] = c.r;
    buf[at + 1] = c.g;
    buf[at + 2] = c.b;
    buf[at + 3] = c.a;
}

// The same dot by way of one word. The compiler makes vectors of a loop that reads dots, works out
// each of their bytes and stores them so; of single bytes it makes none.
fn by_word(c: RGBA) -> RGBA
    ensures { result ≡ c }
{
    let w = (c.r as u32) + (c.g as u32) * 256 + (c.b as u32) * 65536 + (c.a as u32) * 16777216;
    RGBA {
        r: (w % 256) as u8,
        g: (w / 256 % 256) as u8,
        b: (w / 65536 % 256) as u8,
        a: (w / 16777216) as u8,
    }
}

// What get_dot does, by one word.
pub fn load_dot(buf: &[u8], i: usize) -> RGBA
    requires { i * 4 + 4 ≤ length buf.now }
    ensures { result ≡ dot_at buf.now i }
{
    by_word(get_dot(buf, i))
}

// What set_dot does, by one word.
pub fn store_dot(buf: &mut [u8], i: usize, c: RGBA)
    requires { i * 4 + 4 ≤ length buf.old }
    ensures { buf.new ≡ set_dot buf.old i c }
{
    set_dot(buf, i, by_word(c));
}
