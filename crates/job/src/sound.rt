// The bytes of a sound job, known to be that.
ghost use Rattle.std.specs.Prelude.{◌≡◌, IfOk};
ghost use Rattle.numbers.specs.Numbers.{done, number};
ghost use Rattle.job.specs.Commands.{paper_width, paper_color};
ghost use Rattle.job.specs.Dropping.{job_refusal};

use super::commands::{paper_color, paper_width};
use super::job_refusal;
use colour::RGBA;
use numbers::Refusal;

#[derive(Clone, Copy)]
pub struct Job<'a> {
    pub bytes: &'a [u8],
    ghost sound: { job_refusal bytes.now ≡ done },
}

impl<'a> Job<'a> {
    pub fn of(bytes: &'a [u8]) -> Result<Job<'a>, Refusal>
        ensures value { number result ≡ job_refusal bytes.now }
        ensures same { IfOk result (λ job. job.bytes.now ≡ bytes.now) }
    {
        job_refusal(bytes)?;
        Ok(Job { bytes })
    }

    pub fn paper_width(self) -> u32
        ensures { result ≡ paper_width self.entry.bytes.now }
    {
        paper_width(self.bytes)
    }

    pub fn paper_color(self) -> RGBA
        ensures { result ≡ paper_color self.entry.bytes.now }
    {
        paper_color(self.bytes)
    }
}
