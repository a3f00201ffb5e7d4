// What is made of a plan at each command.
ghost use Rattle.std.specs.Prelude.{◌≡◌, ◌+◌, ◌<◌, ◌≤◌};
ghost use Rattle.numbers.specs.Numbers.{limit, number_of};
ghost use Rattle.plan.specs.Steps.{pushed, shifted, left_out, stepped, RoomForRows, RoomForCommand};

use super::Plan;
use entries::Entry;
use job::{Command, Dropped};
use numbers::Refusal;

// One entry more, and a plan as high as it needs.
fn push(plan: Plan, e: Entry) -> Plan
    requires { (plan.count < 64) × (e.y + e.h ≤ limit) }
    ensures { result ≡ pushed plan e }
{
    let mut p = plan;
    let n = p.count;
    p.entries[n] = e;
    p.count = n + 1;
    p.height = p.height.max(e.y + e.h);
    p
}

fn leave_out(plan: Plan, place: u32, why: Refusal) -> Plan
    requires { plan.dropped_count < 64 }
    ensures { result ≡ left_out plan place (number_of why) }
{
    let mut p = plan;
    let n = p.dropped_count;
    let reason = why.number();
    p.dropped[n] = Dropped { place, reason };
    p.dropped_count = n + 1;
    p
}

// A margin: every entry so far goes down by m.
fn shift(plan: Plan, m: u32) -> Plan
    requires { RoomForRows plan m }
    ensures { result ≡ shifted plan m }
{
    let mut p = plan;
    let n = p.count;
    p.height += m;
    for i in 0..n {
        let mut e = p.entries[i];
        e.y += m;
        p.entries[i] = e;
    }
    p
}

pub(crate) fn step(p: Plan, k: u32, c: Command) -> Plan
    requires { RoomForCommand p }
    ensures { result ≡ stepped p k c }
{
    if let Err(why) = job::command_reason(p.width, p.height, c) {
        return leave_out(p, k, why);
    }
    match c {
        Command::Rectangle {
            x,
            y,
            w,
            h,
            color,
            mode,
        } => {
            let e = Entry::rectangle(p.width, x, y, w, h, color, mode);
            push(p, e)
        }
        Command::Image {
            x,
            y,
            w,
            h,
            stretch_x,
            stretch_y,
            color,
            mode,
            start,
            ..
        } => {
            let e = Entry::image(
                p.width, x, y, w, h, stretch_x, stretch_y, color, mode, start,
            );
            push(p, e)
        }
        Command::Margin(m) => shift(p, m),
        Command::Flip { .. } => p,
    }
}
