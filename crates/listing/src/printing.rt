// The listing on standard output. No contract can say what is written, so what is done here is to ask
// and to write.
ghost use Rattle.std.specs.Prelude.{◌≤◌};

use super::{MOST_BYTES, first_line, list_job, row_line};
use plan::Translated;
use std::io;

// Space for a job and a byte more, which tells that one is too long.
pub const SPACE: usize = MOST_BYTES + 1;

// Only one row's dots are held. A translated plan keeps the plan rules, so no row is refused.
pub fn print_listing(rt: &HostRuntime, job: &[u8]) -> io::Result<()>
    ensures { Unit {0} }
{
    let t = list_job(job);
    let mut block = Block {
        bytes: [0; 65536],
        used: 0,
    };
    block.begin(t);
    let mut line = [0; 65536];
    for row in 0..t.plan.height {
        let answer = rows::row(t.plan, row, job, &mut line);
        block.put_row(rt, row, answer.ink)?;
    }
    block.write(rt)
}

// Text that is still to be written: the first `used` of these bytes.
#[derive(Drop)]
struct Block {
    bytes: [u8; 65536],
    used: usize,
    ghost inside: { used ≤ 65536 },
}

impl Block {
    fn begin(&mut self, t: Translated) {
        self.used = first_line(t, &mut self.bytes).unwrap_or(0);
    }

    // A row's line after the text, which is written where there is no room after it.
    fn put_row(&mut self, rt: &HostRuntime, row: u32, ink: u32) -> io::Result<()> {
        if let Ok(n) = row_line(row, ink, &mut self.bytes[self.used..]) {
            self.used += n;
            return Ok(());
        }
        self.write(rt)?;
        self.used = row_line(row, ink, &mut self.bytes).unwrap_or(0);
        Ok(())
    }

    fn write(&self, rt: &HostRuntime) -> io::Result<()> {
        rt.write_all(&self.bytes[..self.used])
    }
}
