// The checksum of the lists: 32-bit FNV-1a.
ghost use Rattle.std.specs.Prelude.{◌≡◌};
ghost use Rattle.vectors.specs.Sums.{summed, sum_from, checksum_of};

// The checksum of no bytes.
pub const NO_BYTES: u32 = 0x811c_9dc5;

// The checksum with one byte more.
pub fn sum_with(sum: u32, byte: u8) -> u32
    ensures { result ≡ summed sum byte }
{
    (sum ^ byte as u32).wrapping_mul(0x0100_0193)
}

pub fn checksum(bytes: &[u8]) -> u32
    ensures { result ≡ checksum_of bytes.now }
{
    sum_all(NO_BYTES, bytes)
}

// The checksum with all of some bytes more.
pub fn sum_all(sum: u32, bytes: &[u8]) -> u32
    ensures { result ≡ sum_from sum bytes.now }
{
    bytes.iter().fold(sum, |sum, byte| sum_with(sum, *byte))
}
