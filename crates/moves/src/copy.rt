// Dots of one buffer written to another.
ghost use Rattle.std.specs.Prelude.{◌≡◌, ◌+◌, ◌-◌, ◌*◌, ◌≤◌, length};
ghost use Rattle.dots.specs.Dots.{dot_at, change, within};
ghost use Rattle.moves.specs.Moves.{copied_to};

// n dots of src from dot `from` on, written to out from dot `to` on.
pub fn copy_run(src: &[u8], from: usize, out: &mut [u8], to: usize, n: usize)
    requires { ((from + n) * 4 ≤ length src.now) × ((to + n) * 4 ≤ length out.old) }
    ensures { out.new ≡ change (within to (to + n)) (λ i _. dot_at src.now (from + (i - to))) out.old }
{
    out[to * 4..(to + n) * 4].copy_from_slice(&src[from * 4..(from + n) * 4]);
}

pub fn copy_dots(src: &[u8], n: usize, out: &mut [u8])
    requires { (n * 4 ≤ length src.now) × (n * 4 ≤ length out.old) }
    ensures { out.new ≡ copied_to n src.now out.old }
{
    copy_run(src, 0, out, 0, n);
}
