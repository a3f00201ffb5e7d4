// What the data of an image say of a source dot.
ghost use Rattle.std.specs.Prelude.{◌≡◌, ◌+◌, ◌*◌, ◌/◌, ◌≤◌, ◌<◌, length};
ghost use Rattle.numbers.specs.Numbers.{limit};
ghost use Rattle.bits.specs.Bits.{row_bytes, bit_alpha};
ghost use Rattle.images.specs.Formats.{alpha_of, bytes_of, raster_of};

#[derive(Clone, Copy, Debug, PartialEq, Eq)]
pub enum Format {
    Bits,
    Alphas,
    Columns,
}

pub fn raster_of(process_as_bits: bool) -> Format
    ensures { result ≡ raster_of process_as_bits }
{
    if process_as_bits {
        return Format::Bits;
    }
    Format::Alphas
}

pub fn row_bytes(w: usize) -> usize
    requires { w ≤ limit }
    ensures { result ≡ row_bytes w }
{
    w.div_ceil(8)
}

fn unpack_bytes(data: &[u8], at: usize, k: usize) -> u8
    requires { at + k / 8 < length «data».now }
    ensures { result ≡ bit_alpha «data».now at k }
{
    let byte = data[at + k / 8];
    (byte >> (7 - k % 8)) % 2 * 255
}

fn column_to_bytes(data: &[u8], h: usize, x: usize, y: usize) -> u8
    requires { (h ≤ limit) × (x ≤ limit) × (x * row_bytes h + y / 8 < length «data».now) }
    ensures { result ≡ bit_alpha «data».now (x * row_bytes h) y }
{
    unpack_bytes(data, x * row_bytes(h), y)
}

pub fn alpha_at(data: &[u8], format: Format, w: usize, h: usize, x: usize, y: usize) -> u8
    requires { (w ≤ limit) × (h ≤ limit) × (x < w) × (y < h) × (bytes_of format w h ≤ length «data».now) }
    ensures { result ≡ alpha_of format «data».now w h x y }
{
    match format {
        Format::Bits => unpack_bytes(data, y * row_bytes(w), x),
        Format::Alphas => data[y * w + x],
        Format::Columns => column_to_bytes(data, h, x, y),
    }
}
