// A row of bits on dots.
ghost use Rattle.std.specs.Prelude.{◌≡◌, ℕ, ◌+◌, ◌*◌, ◌≤◌, ◌<◌, length};
ghost use Rattle.numbers.specs.Numbers.{limit};
ghost use Rattle.colour.specs.declared.RGBA.{RGBA};
ghost use Rattle.bits.specs.Bits.{Shown, bits_on};
ghost use Rattle.bits.specs.Steps.{byte_on, bit_on};

use super::bit::bit_at;

// What bits are drawn on dots with. It comes by value, so that the compiler keeps a colour as one word.
pub trait BitBrush: Copy {
    // what it makes of a dot at the alpha of its bit
    ghost dot: { Self → ℕ → RGBA → RGBA };

    // The first n bits of a byte.
    fn draw_byte(self, buf: &mut [u8], at: usize, byte: u8, n: usize)
        requires { (n ≤ 8) × ((at + n) * 4 ≤ length buf.old) }
        ensures { buf.new ≡ byte_on (dot self) byte at n buf.old };

    // The n dots of a stretched bit.
    fn draw_bit(self, buf: &mut [u8], at: usize, bit: u8, n: usize)
        requires { ((at + n) * 4 ≤ length buf.old) × (bit < 2) }
        ensures { buf.new ≡ bit_on (dot self) bit at n buf.old };
}

// A row that is not stretched, eight dots at a time.
fn draw_eights<B: BitBrush>(
    buf: &mut [u8],
    at: usize,
    count: usize,
    data: &[u8],
    from: usize,
    brush: B,
)
    requires { ((at + count) * 4 ≤ length buf.old) × Shown from 1 count (length «data».now) }
    ensures { buf.new ≡ bits_on (B.dot brush) «data».now from 1 at count buf.old }
{
    let whole = count / 8;
    for x in 0..whole {
        brush.draw_byte(buf, at + x * 8, data[from + x], 8);
    }
    let rest = count % 8;
    if rest > 0 {
        brush.draw_byte(buf, at + whole * 8, data[from + whole], rest);
    }
}

// A stretched row, bit by bit, so that the dots of a bit are told by one look at it. Over a range of
// bits, with their dots worked out from x, the loop takes up to twice as long where fx is 3.
fn draw_stretched<B: BitBrush>(
    buf: &mut [u8],
    at: usize,
    count: usize,
    data: &[u8],
    from: usize,
    fx: usize,
    brush: B,
)
    requires { ((at + count) * 4 ≤ length buf.old) × (0 < fx) × (count ≤ limit) × Shown from fx count (length «data».now) }
    ensures { buf.new ≡ bits_on (B.dot brush) «data».now from fx at count buf.old }
{
    let mut x = 0;
    let mut i = 0;
    while i < count {
        let n = fx.min(count - i);
        let bit = bit_at(data, from, x);
        brush.draw_bit(buf, at + i, bit, n);
        i += n;
        x += 1;
    }
}

pub fn draw_bits<B: BitBrush>(
    buf: &mut [u8],
    at: usize,
    count: usize,
    data: &[u8],
    from: usize,
    fx: usize,
    brush: B,
)
    requires { ((at + count) * 4 ≤ length buf.old) × (0 < fx) × (count ≤ limit) × Shown from fx count (length «data».now) }
    ensures { buf.new ≡ bits_on (B.dot brush) «data».now from fx at count buf.old }
{
    if fx == 1 {
        draw_eights(buf, at, count, data, from, brush);
        return;
    }
    draw_stretched(buf, at, count, data, from, fx, brush);
}
