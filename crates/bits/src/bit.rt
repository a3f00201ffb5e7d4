// A bit of a row.
ghost use Rattle.std.specs.Prelude.{◌≡◌, ◌+◌, ◌/◌, ◌<◌, length};
ghost use Rattle.bits.specs.Bits.{bit_at};

pub(crate) fn bit_at(data: &[u8], from: usize, x: usize) -> u8
    requires { from + x / 8 < length «data».now }
    ensures { result ≡ bit_at «data».now from x }
{
    let byte = data[from + x / 8];
    (byte >> (7 - x % 8)) % 2
}
