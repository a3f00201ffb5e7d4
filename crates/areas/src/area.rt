// An area of a canvas.
ghost use Rattle.std.specs.Prelude.{◌≡◌, ◌+◌, ◌*◌, ◌^◌, ◌<◌};

// The w by h dots from column x, row y on of a canvas `wide` dots wide.
#[derive(Clone, Copy)]
pub struct Area {
    pub wide: usize,
    pub x: usize,
    pub y: usize,
    pub w: usize,
    pub h: usize,
}

impl Area {
    // The dot of the canvas at which the area's row j starts.
    pub fn start_of(self, j: usize) -> usize
        requires { (0 < self.wide) × ((self.y + j) * self.wide + self.x < 2 ^ 64) }
        ensures { result ≡ (self.y + j) * self.wide + self.x }
    {
        (self.y + j) * self.wide + self.x
    }
}
