// The replay of a list: a file of lines, each of which agrees with this project or does not.
ghost use Rattle.std.specs.Prelude.{◌≡◌, ◌≤◌};

use crate::lines::{Tally, line_end};
use input::read_full;
use std::fs::File;
use std::io;

// The number by which a line says that there is no answer, as of an unknown kind of line.
pub const NO_ANSWER: u8 = 255;

// Says of the list at a path how many of its lines agree and how many do not. It is read into a space
// that is lent, and what that has no room for is left out.
pub fn replay<F: FnMut(&[u8]) -> bool>(
    rt: &HostRuntime,
    name: &str,
    path: &str,
    space: &mut [u8],
    agrees: F,
) -> io::Result<()>
    requires { F.IsAlwaysCallable agrees }
    ensures { Unit {0} }
{
    let mut list = File::open(rt, path)?;
    let n = read_full(&mut list, space)?;
    tally(&space[..n], agrees).tell(rt, name.as_bytes())
}

fn tally<F: FnMut(&[u8]) -> bool>(list: &[u8], mut agrees: F) -> Tally
    requires { F.IsAlwaysCallable agrees }
    ensures { result.agree ≤ result.lines }
{
    let mut t = Tally::NONE;
    let mut rest = list;
    while !rest.is_empty() {
        let (line, after) = rest.split_at(line_end(rest, 0));
        t = t.with(agrees(line));
        rest = after;
    }
    t
}
