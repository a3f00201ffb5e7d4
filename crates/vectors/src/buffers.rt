// Buffers as they are at first.
ghost use Rattle.std.specs.Prelude.{◌≡◌};
ghost use Rattle.vectors.specs.Buffers.{all};

// A buffer that is lent to a call.
pub fn fresh_buffer() -> [u8; 4096]
    ensures { result ≡ all 4096 0x5a }
{
    [0x5a; 4096]
}

// Space for the longest list.
pub fn list_space() -> [u8; 262144]
    ensures { result ≡ all 262144 0 }
{
    [0; 262144]
}
