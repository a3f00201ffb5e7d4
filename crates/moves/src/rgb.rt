// The dots of a buffer written as three bytes each, without alpha.
ghost use Rattle.std.specs.Prelude.{◌≡◌, ◌*◌, ◌≤◌, length};
ghost use Rattle.moves.specs.Moves.{rgb_to};

use dots::get_dot;

pub fn rgb_bytes(src: &[u8], n: usize, out: &mut [u8])
    requires { (n * 4 ≤ length src.now) × (n * 3 ≤ length out.old) }
    ensures { out.new ≡ rgb_to n src.now out.old }
{
    for k in 0..n {
        let d = get_dot(src, k);
        let at = k * 3;
        out[at] = d.r;
        out[at + 1] = d.g;
        out[at + 2] = d.b;
    }
}
