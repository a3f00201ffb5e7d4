// A job run on a canvas, command by command, in the buffer that the caller lends.
#![tactic(auto)]

mod draw;
mod survey;

ghost use Rattle.std.specs.Prelude.{◌≡◌, length};
ghost use Rattle.numbers.specs.Numbers.{number_of};
ghost use Rattle.runs.specs.Run.{ran, run_on, refused_run};

use colour::RGBA;
use draw::draw_all;
use job::{Dropped, Job};
use numbers::{DONE, Refusal};
use refusals::room_refusal;
use survey::look_over;
use thermal_image::ThermalImage;

// What a run answers: the number, the canvas, and the dropped commands, which are the first
// `dropped_count`. All other places are zero.
#[repr(C)]
#[derive(Clone, Copy)]
pub struct Ran {
    pub number: u8,
    pub image: ThermalImage,
    pub dropped_count: usize,
    pub dropped: [Dropped; 64],
}

fn refused(why: Refusal) -> Ran
    ensures { result ≡ refused_run (number_of why) }
{
    let image = ThermalImage {
        width: 0,
        height: 0,
        auto_grow: false,
        paper_color: RGBA::BLANK,
    };
    Ran {
        number: why.number(),
        image,
        dropped_count: 0,
        dropped: [Dropped {
            place: 0,
            reason: 0,
        }; 64],
    }
}

// The height and the dropped commands follow from the commands' numbers alone, so that the room is
// known to suffice before a byte is written.
pub fn run(s: &[u8], buf: &mut [u8]) -> Ran
    ensures value { result ≡ ran s.now (length buf.old) }
    ensures buf_after { buf.new ≡ run_on s.now buf.old }
{
    let job = match Job::of(s) {
        Ok(job) => job,
        Err(why) => return refused(why),
    };
    let width = job.paper_width();
    let v = look_over(job);
    if let Err(why) = room_refusal(width, v.height, buf.len()) {
        return refused(why);
    }
    draw_all(job, buf);
    let image = ThermalImage {
        width,
        height: v.height,
        auto_grow: true,
        paper_color: job.paper_color(),
    };
    let dropped = v.dropped;
    Ran {
        number: DONE,
        image,
        dropped_count: v.dropped_count,
        dropped,
    }
}
