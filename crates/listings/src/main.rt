// Lists stored jobs, one after another, as strip does; a program has one stored input of its own.
#![tactic(auto)]

use input::read_full;
use listing::printing::{SPACE, print_listing};
use std::fs::File;
use std::io;

fn main(rt: HostRuntime) -> io::Result<()> {
    for path in [
        "empty.job",
        "cut.job",
        "many.job",
        "flip.job",
        "flat.job",
        "drawn.job",
    ] {
        show(&rt, path)?;
    }
    Ok(())
}

fn show(rt: &HostRuntime, path: &str) -> io::Result<()> {
    let mut space = [0u8; SPACE];
    let mut file = File::open(rt, path)?;
    let n = read_full(&mut file, &mut space)?;
    println!(rt; "{path}")?;
    print_listing(rt, &space[..n])
}
