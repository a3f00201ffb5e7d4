// What a run of dots is drawn with. All that a colour needs is made before, and once for many runs.
ghost use Rattle.std.specs.Prelude.{◌≡◌, ◌+◌, ◌*◌, ◌≤◌, length};
ghost use Rattle.colour.specs.declared.RGBA.{RGBA};
ghost use Rattle.dots.specs.Dots.{change, within};

pub trait Brush {
    // what it makes of a dot
    ghost dot: { Self → RGBA → RGBA };

    fn draw_dots(&self, buf: &mut [u8], at: usize, count: usize)
        requires { (at + count) * 4 ≤ length buf.old }
        ensures { buf.new ≡ change (within at (at + count)) (λ _ s. dot self.now s) buf.old };
}
