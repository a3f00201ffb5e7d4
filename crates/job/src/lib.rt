// Jobs: the bytes of a strip as records, and those as commands; what a job is refused for, and what
// a command is dropped for. What a job draws is told elsewhere.
#![tactic(auto, using(std::proofs::lemmas::Bool::Decides::nat_tests), unfolding(crate::specs::Commands::sound_paper, crate::specs::Commands::sound_command, crate::specs::Commands::command_at, crate::specs::Records::le16, crate::specs::Records::le32, crate::specs::Records::rgba_at, crate::specs::Records::record_at))]

mod bytes;
mod commands;
mod dropping;
pub mod kinds;
mod records;
mod sound;

ghost use Rattle.std.specs.Prelude.{◌≡◌, ◌≤◌, length};
ghost use Rattle.numbers.specs.Numbers.{number};
ghost use Rattle.job.specs.Records.{records};
ghost use Rattle.job.specs.Commands.{sound_commands, commands_in};
ghost use Rattle.job.specs.Dropping.{number_of as job_number, job_refusal};

pub use bytes::{read_rgba, read_u16, read_u32};
pub use commands::{Command, command_at, paper_color, paper_width};
use commands::{sound_command, sound_paper};
pub use dropping::{Dropped, command_reason, height_after};
use kinds::MOST_COMMANDS;
use numbers::Refusal;
pub use records::{Rec, next_record};
pub use sound::Job;

// What the records from `at` on are refused for: all of them are to be commands, and no more than a job
// may have.
fn rest_refusal(s: &[u8], at: usize) -> Result<(), Refusal>
    requires { at ≤ length s.now }
    ensures { number result ≡ job_number (sound_commands s.now (records s.now at)) (commands_in s.now (records s.now at)) }
{
    let mut place = at;
    let mut count: usize = 0;
    loop {
        match next_record(s, place) {
            Rec::Record {
                kind,
                start,
                size,
                next,
            } => {
                if sound_command(s, kind, start, size) {
                    place = next;
                    count += 1;
                } else {
                    return Err(Refusal::BadJob);
                }
            }
            Rec::Bad => {
                return Err(Refusal::BadJob);
            }
            Rec::End => {
                if count > MOST_COMMANDS {
                    return Err(Refusal::TooLong);
                }
                return Ok(());
            }
        }
    }
}

pub fn job_refusal(s: &[u8]) -> Result<(), Refusal>
    ensures { number result ≡ job_refusal s.now }
{
    match next_record(s, 0) {
        Rec::Record {
            kind,
            start,
            size,
            next,
        } => {
            if sound_paper(s, kind, start, size) {
                return rest_refusal(s, next);
            }
            Err(Refusal::BadJob)
        }
        Rec::Bad | Rec::End => Err(Refusal::BadJob),
    }
}
