// The program `strip`: the listing of the job on standard input. Document 01, "The listing".
// The lines are made by listing. No contract can say what a program reads or writes, so what is
// done here is to read, to ask and to write.
#![tactic(auto)]

use input::read_full;
use listing::printing::{SPACE, print_listing};
use std::io;

fn main(rt: HostRuntime) -> io::Result<()> {
    let mut space = [0u8; SPACE];
    let n = read_full(&mut rt.stdin(), &mut space)?;
    print_listing(&rt, &space[..n])
}
