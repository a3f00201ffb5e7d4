// Little-endian numbers, and colours, at a position of a job's bytes.
ghost use Rattle.std.specs.Prelude.{◌≡◌, ◌+◌, ◌≤◌, length};
ghost use Rattle.job.specs.Records.{le16, le32, rgba_at};

use colour::RGBA;

pub fn read_u16(s: &[u8], at: usize) -> u16
    requires { at + 2 ≤ length s.now }
    ensures { result ≡ le16 s.now at }
{
    u16::from_le_bytes([s[at], s[at + 1]])
}

pub fn read_u32(s: &[u8], at: usize) -> u32
    requires { at + 4 ≤ length s.now }
    ensures { result ≡ le32 s.now at }
{
    u32::from_le_bytes([s[at], s[at + 1], s[at + 2], s[at + 3]])
}

pub fn read_rgba(s: &[u8], at: usize) -> RGBA
    requires { at + 4 ≤ length s.now }
    ensures { result ≡ rgba_at s.now at }
{
    RGBA {
        r: s[at],
        g: s[at + 1],
        b: s[at + 2],
        a: s[at + 3],
    }
}
