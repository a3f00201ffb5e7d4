// The height and the dropped commands of a job, before anything is drawn.
ghost use Rattle.std.specs.Prelude.{◌≡◌, [], ◌<◌};
ghost use Rattle.numbers.specs.Numbers.{number_of};
ghost use Rattle.job.specs.Dropping.{job_height, job_dropped};
ghost use Rattle.runs.specs.Steps.{survey_with, left_out, seen};

use job::kinds::COMMANDS_START;
use job::{Command, Dropped, Job, Rec};
use numbers::Refusal;

#[derive(Clone, Copy)]
pub(crate) struct Survey {
    pub height: u32,
    pub dropped_count: usize,
    pub dropped: [Dropped; 64],
}

fn nothing() -> Survey
    ensures { result ≡ survey_with 0 [] }
{
    Survey {
        height: 0,
        dropped_count: 0,
        dropped: [Dropped {
            place: 0,
            reason: 0,
        }; 64],
    }
}

fn leave_out(survey: Survey, place: u32, why: Refusal) -> Survey
    requires { survey.dropped_count < 64 }
    ensures { result ≡ left_out survey place (number_of why) }
{
    let mut v = survey;
    let n = v.dropped_count;
    let reason = why.number();
    v.dropped[n] = Dropped { place, reason };
    v.dropped_count = n + 1;
    v
}

fn look_at(survey: Survey, width: u32, k: u32, c: Command) -> Survey
    requires { survey.dropped_count < 64 }
    ensures { result ≡ seen width survey k c }
{
    if let Err(why) = job::command_reason(width, survey.height, c) {
        return leave_out(survey, k, why);
    }
    let mut v = survey;
    v.height = job::height_after(v.height, c);
    v
}

pub(crate) fn look_over(job: Job) -> Survey
    ensures { result ≡ survey_with (job_height job.entry.bytes.now) (job_dropped job.entry.bytes.now) }
{
    let width = job.paper_width();
    let s = job.bytes;
    let mut v = nothing();
    let mut k: u32 = 0;
    let mut at = COMMANDS_START;
    while let Rec::Record {
        kind,
        start,
        size,
        next,
    } = job::next_record(s, at)
    {
        let c = job::command_at(s, kind, start, size);
        v = look_at(v, width, k, c);
        k += 1;
        at = next;
    }
    v
}
