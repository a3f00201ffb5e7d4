// The lines of a list, and how many of them agree with this project.
ghost use Rattle.std.specs.Prelude.{◌≡◌, ◌+◌, ◌<◌, ◌≤◌, ◌^◌, ◌==◌, length, position};
ghost use Rattle.vectors.specs.Lines.{line_end, counted};

use std::io;

// The place past the line that begins at `at`, newline included.
pub fn line_end(s: &[u8], at: usize) -> usize
    requires { at < length s.now }
    ensures { (result ≡ line_end s.now at) × (at < result) × (result ≤ length s.now) }
{
    match newline(&s[at..]) {
        Some(i) => at + i + 1,
        None => s.len(),
    }
}

// Where the first newline is, if there is one.
fn newline(s: &[u8]) -> Option<usize>
    ensures { result ≡ position (λ b. b == 10) s.now }
{
    s.iter().position(|b| *b == b'\n')
}

#[derive(Clone, Copy)]
pub struct Tally {
    pub agree: u64,
    pub lines: u64,
}

impl Tally {
    pub const NONE: Tally = Tally { agree: 0, lines: 0 };

    // With one line more.
    pub fn with(self, agrees: bool) -> Self
        requires { (self.agree ≤ self.lines) × (self.lines + 1 < 2 ^ 64) }
        ensures { result ≡ counted self agrees }
    {
        Tally {
            agree: self.agree + agrees as u64,
            lines: self.lines + 1,
        }
    }

    // A list's name may be any bytes.
    pub fn tell(self, rt: &HostRuntime, list: &[u8]) -> io::Result<()>
        requires { self.agree ≤ self.lines }
        ensures { Unit {0} }
    {
        rt.write_all(list)?;
        println!(rt; " agree {} differ {}", self.agree, self.lines - self.agree)
    }
}
