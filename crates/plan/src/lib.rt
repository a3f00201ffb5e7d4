// Row plans: a job without flips, translated to entries from which any row can be worked out alone.
#![tactic(auto)]

mod steps;

ghost use Rattle.std.specs.Prelude.{◌≡◌, false, []};
ghost use Rattle.numbers.specs.Numbers.{number_of};
ghost use Rattle.job.specs.Commands.{commands};
ghost use Rattle.plan.specs.Plan.{no_entry, plan_with, plan_of, has_flip, refused_with, translated};

use colour::RGBA;
use entries::Entry;
use job::kinds::{COMMANDS_START, FLIP};
use job::{Dropped, Job, Rec};
use numbers::{DONE, Refusal};
use steps::step;

// The first `count` entries are used, and the first `dropped_count` dropped commands; all other
// places are zero.
#[repr(C)]
#[derive(Clone, Copy)]
pub struct Plan {
    pub width: u32,
    pub height: u32,
    pub paper_color: RGBA,
    pub count: usize,
    pub entries: [Entry; 64],
    pub dropped_count: usize,
    pub dropped: [Dropped; 64],
}

#[repr(C)]
#[derive(Clone, Copy)]
pub struct Translated {
    pub number: u8,
    pub plan: Plan,
}

fn no_entry() -> Entry
    ensures { result ≡ no_entry }
{
    Entry {
        kind: 0,
        mode: 0,
        stretch_x: 0,
        stretch_y: 0,
        color: RGBA::BLANK,
        x: 0,
        y: 0,
        w: 0,
        h: 0,
        original_width: 0,
        original_height: 0,
        start: 0,
    }
}

// A plan of no commands.
fn fresh(width: u32, paper_color: RGBA) -> Plan
    ensures { result ≡ plan_with width paper_color 0 [] [] }
{
    Plan {
        width,
        height: 0,
        paper_color,
        count: 0,
        entries: [no_entry(); 64],
        dropped_count: 0,
        dropped: [Dropped {
            place: 0,
            reason: 0,
        }; 64],
    }
}

fn has_flip(job: Job) -> bool
    ensures { result ≡ has_flip (commands job.entry.bytes.now) }
{
    let mut at = COMMANDS_START;
    while let Rec::Record { kind, next, .. } = job::next_record(job.bytes, at) {
        if kind == FLIP {
            return true;
        }
        at = next;
    }
    false
}

fn plan_of(job: Job) -> Plan
    requires { has_flip (commands job.bytes.now) ≡ false }
    ensures { result ≡ plan_of job.entry.bytes.now }
{
    let mut p = fresh(job.paper_width(), job.paper_color());
    let mut k: u32 = 0;
    let mut at = COMMANDS_START;
    while let Rec::Record {
        kind,
        start,
        size,
        next,
    } = job::next_record(job.bytes, at)
    {
        let c = job::command_at(job.bytes, kind, start, size);
        p = step(p, k, c);
        k += 1;
        at = next;
    }
    p
}

// A plan of zeros.
fn refused(why: Refusal) -> Translated
    ensures { result ≡ refused_with (number_of why) }
{
    let plan = fresh(0, RGBA::BLANK);
    Translated {
        number: why.number(),
        plan,
    }
}

pub fn translate(s: &[u8]) -> Translated
    ensures { result ≡ translated s.now }
{
    let job = match Job::of(s) {
        Ok(job) => job,
        Err(why) => return refused(why),
    };
    if has_flip(job) {
        return refused(Refusal::NotTranslated);
    }
    let plan = plan_of(job);
    Translated { number: DONE, plan }
}
