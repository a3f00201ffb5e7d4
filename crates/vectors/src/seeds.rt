// Bytes from a seed.
ghost use Rattle.std.specs.Prelude.{◌≡◌, ◌++◌, ◌≤◌, length, drop};
ghost use Rattle.vectors.specs.Seeds.{next_state, seeded_byte, seeded};

pub fn fill_from(out: &mut [u8], count: usize, seed: u32)
    requires { count ≤ length out.old }
    ensures { out.new ≡ seeded seed count ++ drop count out.old }
{
    let mut state = seed;
    for byte in &mut out[..count] {
        state = next_state(state);
        *byte = seeded_byte(state, seed);
    }
}

fn next_state(state: u32) -> u32
    ensures { result ≡ next_state state }
{
    state.wrapping_mul(1664525).wrapping_add(1013904223)
}

fn seeded_byte(state: u32, seed: u32) -> u8
    ensures { result ≡ seeded_byte seed state }
{
    let byte = (state / 0x100_0000) as u8;
    if seed % 2 == 0 {
        return byte;
    }
    if byte < 128 {
        return 0;
    }
    255
}
