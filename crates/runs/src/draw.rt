// The commands of a job obeyed on the canvas, one after another. All rows so far stand in the
// buffer; new rows are paper.
ghost use Rattle.std.specs.Prelude.{◌≡◌, true, ◌+◌, ◌*◌, ◌≤◌, max, length};
ghost use Rattle.numbers.specs.Numbers.{limit, done};
ghost use Rattle.job.specs.Commands.{paper_width};
ghost use Rattle.job.specs.Dropping.{job_height, next_height};
ghost use Rattle.job.proofs.Soundness.{Held};
ghost use Rattle.entries.specs.Entries.{good_entry};
ghost use Rattle.runs.specs.Pictures.{shown};
ghost use Rattle.runs.specs.Run.{run_picture};
ghost use Rattle.thermal_image.specs.Canvas.{papered};
ghost use Rattle.runs.specs.Steps.{placed_on, stepped_on, Room};

use areas::{Area, flip_area};
use colour::RGBA;
use dots::fill_run;
use entries::{Entry, draw_entry};
use job::kinds::COMMANDS_START;
use job::{Command, Job, Rec};
use moves::move_down;

// Answers the height, which is at least `end`.
fn grow(buf: &mut [u8], width: u32, height: u32, end: u32, paper: RGBA) -> u32
    requires { Room width (max height end) (length buf.old) }
    ensures value { result ≡ max height end }
    ensures buf_after { buf.new ≡ papered width height (max height end) paper buf.old }
{
    if end <= height {
        return height;
    }
    let at = width as usize * height as usize;
    fill_run(buf, at, width as usize * end as usize - at, paper);
    end
}

fn place(buf: &mut [u8], width: u32, height: u32, paper: RGBA, e: Entry, s: &[u8]) -> u32
    requires { Room width (max height (e.y + e.h)) (length buf.old) × (good_entry width limit (length s.now) e ≡ true) }
    ensures value { result ≡ max height (e.y + e.h) }
    ensures buf_after { buf.new ≡ placed_on s.now width paper height e buf.old }
{
    let tall = grow(buf, width, height, e.y + e.h, paper);
    let y = e.y as usize;
    draw_entry(buf, width as usize, y, e, y, e.h as usize, s);
    tall
}

fn obey(buf: &mut [u8], width: u32, height: u32, paper: RGBA, c: Command, s: &[u8]) -> u32
    requires { Room width (next_height width height c) (length buf.old) × (height ≤ limit) × Held s.now c }
    ensures value { result ≡ next_height width height c }
    ensures buf_after { buf.new ≡ stepped_on s.now width paper height c buf.old }
{
    if let Err(_) = job::command_reason(width, height, c) {
        return height;
    }
    match c {
        Command::Rectangle {
            x,
            y,
            w,
            h,
            color,
            mode,
        } => {
            let e = Entry::rectangle(width, x, y, w, h, color, mode);
            place(buf, width, height, paper, e, s)
        }
        Command::Image {
            x,
            y,
            w,
            h,
            stretch_x,
            stretch_y,
            color,
            mode,
            start,
            ..
        } => {
            let e = Entry::image(width, x, y, w, h, stretch_x, stretch_y, color, mode, start);
            place(buf, width, height, paper, e, s)
        }
        Command::Margin(m) => {
            let wide = width as usize;
            move_down(buf, wide * height as usize, wide * m as usize, paper);
            height + m
        }
        Command::Flip { x, y, w, h } => {
            let tall = grow(buf, width, height, y + h, paper);
            let area = Area {
                wide: width as usize,
                x: x as usize,
                y: y as usize,
                w: w as usize,
                h: h as usize,
            };
            flip_area(buf, area);
            tall
        }
    }
}

pub(crate) fn draw_all(job: Job, buf: &mut [u8])
    requires { paper_width job.bytes.now * job_height job.bytes.now * 4 ≤ length buf.old }
    ensures { buf.new ≡ shown (paper_width job.entry.bytes.now) (job_height job.entry.bytes.now) (run_picture job.entry.bytes.now) buf.old }
{
    let width = job.paper_width();
    let paper = job.paper_color();
    let s = job.bytes;
    let mut height: u32 = 0;
    let mut at = COMMANDS_START;
    while let Rec::Record {
        kind,
        start,
        size,
        next,
    } = job::next_record(s, at)
    {
        let c = job::command_at(s, kind, start, size);
        height = obey(buf, width, height, paper, c, s);
        at = next;
    }
}
