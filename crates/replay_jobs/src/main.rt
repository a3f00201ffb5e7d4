// Replays the fixed lists of jobs, and says of each how many lines agree with this project and how
// many do not: in what a run gives and leaves in its buffer, and in the rows of the plan. A line is
// a head of fixed places, and then the job.
#![tactic(auto)]

mod planned;

use job::Dropped;
use planned::plan_agrees;
use runs::Ran;
use std::io;
use vectors::buffers::{fresh_buffer, list_space};
use vectors::hex::{byte_at, is_record, number_at, unpack};
use vectors::replay::replay;
use vectors::sums::{NO_BYTES, checksum, sum_all};

const HEAD: usize = 76;

fn main(rt: HostRuntime) -> io::Result<()> {
    let mut space = list_space();
    replay(&rt, "jobs", "jobs.txt", &mut space, agrees)?;
    replay(
        &rt,
        "jobs' refusals",
        "jobs_refusals.txt",
        &mut space,
        agrees,
    )
}

fn agrees(line: &[u8]) -> bool {
    let Some((head, hex)) = line.split_first_chunk::<HEAD>() else {
        return false;
    };
    let room = number_at(head, 0, 6) as usize;
    let size = number_at(head, 72, 4) as usize;
    if hex.len() != size * 2 + 1 || size > 4096 || room > 4096 {
        return false;
    }
    let mut job = [0; 4096];
    let mut buf = fresh_buffer();
    unpack(hex, 0, size, &mut job);
    run_agrees(head, &job[..size], &mut buf[..room])
}

// A run that is refused leaves no canvas.
fn run_agrees(head: &[u8; HEAD], job: &[u8], buf: &mut [u8]) -> bool {
    let r = runs::run(job, buf);
    if !says(head, r) || checksum(buf) != number_at(head, 51, 8) {
        return false;
    }
    if r.number != 0 {
        return plan_agrees(head, job, &buf[..0]);
    }
    plan_agrees(head, job, buf)
}

fn says(head: &[u8; HEAD], r: Ran) -> bool {
    let t = r.image;
    r.number == byte_at(head, 7)
        && is_record(head, 10, t.width, t.height, t.auto_grow, t.paper_color)
        && r.dropped_count == byte_at(head, 39) as usize
        && listed(&r.dropped[..r.dropped_count.min(64)]) == number_at(head, 42, 8)
}

// The checksum of a dropped list: two bytes each, place and reason.
fn listed(dropped: &[Dropped]) -> u32 {
    let mut sum = NO_BYTES;
    for d in dropped {
        sum = sum_all(sum, &[(d.place % 256) as u8, d.reason]);
    }
    sum
}
