// The rows of a plan: paper, with the plan's entries applied in order. A row is worked out alone, with
// its ink, or some rows at once.
#![tactic(auto, using(std::proofs::lemmas::Bool::Decides::nat_tests), unfolding(crate::specs::Rows::good_sizes, crate::specs::Rows::rows_refusal, crate::specs::Rows::has_ink))]

ghost use Rattle.std.specs.Prelude.{◌≡◌, true, ◌+◌, ◌*◌, ◌≤◌, length, if◌then◌else◌};
ghost use Rattle.numbers.specs.Numbers.{limit, done, number_of, number};
ghost use Rattle.rows.specs.Rows.{good_sizes, good_entries, good_plan, refusal_of, rows_refusal, rows_on, has_ink, ink, firsts, used, plan_written, plan_given, plan_rows_refusal, plan_rows_written};
ghost use Rattle.rows.specs.Steps.{band_on};

use colour::RGBA;
use dots::{fill_run, get_dot};
use entries::{Entry, draw_entry, good_entry};
use job::kinds::MOST_COMMANDS;
use numbers::{DONE, LIMIT, Refusal};
use plan::Plan;

// What a row answers: the number, and how many of its dots have ink.
#[repr(C)]
#[derive(Clone, Copy)]
pub struct RowAnswer {
    pub number: u8,
    pub ink: u32,
}

impl RowAnswer {
    pub fn refused(why: Refusal) -> RowAnswer
        ensures { result ≡ record { number = number_of why; ink = 0 } }
    {
        RowAnswer {
            number: why.number(),
            ink: 0,
        }
    }
}

pub fn good_sizes(width: u32, height: u32, count: usize) -> bool
    ensures { result ≡ good_sizes width height count }
{
    1 <= width && width <= LIMIT && height <= LIMIT && count <= MOST_COMMANDS
}

pub fn good_entries(width: u32, height: u32, n: usize, entries: &[Entry]) -> bool
    ensures { result ≡ good_entries width height n entries.now }
{
    for e in entries {
        if !good_entry(width, height, n, *e) {
            return false;
        }
    }
    true
}

// The entries that a plan uses, the first `count`.
fn firsts(count: usize, entries: &[Entry; 64]) -> &[Entry]
    requires { count ≤ 64 }
    ensures { result.now ≡ firsts count entries.now }
{
    &entries[..count]
}

// The plan is lent: by value its 64 entries would be copied once more.
fn good_plan(plan: &Plan, n: usize) -> bool
    ensures { result ≡ good_plan plan.now.width plan.now.height n plan.now.count (used plan.now) }
{
    let entries = &plan.entries;
    good_sizes(plan.width, plan.height, plan.count)
        && good_entries(plan.width, plan.height, n, firsts(plan.count, entries))
}

// `good` says whether the plan rules are kept.
fn rows_refusal(
    good: bool,
    width: u32,
    height: u32,
    first: u32,
    count: u32,
    room: usize,
) -> Result<(), Refusal>
    ensures { number result ≡ rows_refusal good width height first count room }
{
    if !good {
        return Err(Refusal::BadPlan);
    }
    if (height as usize) < first as usize + count as usize {
        return Err(Refusal::NoRow);
    }
    if room / 4 < count as usize * width as usize {
        return Err(Refusal::NoRoom);
    }
    Ok(())
}

pub fn refusal_of(good: bool, width: u32, height: u32, row: u32, room: usize) -> Result<(), Refusal>
    ensures { number result ≡ refusal_of good width height row room }
{
    rows_refusal(good, width, height, row, 1, room)
}

// One where a dot has ink.
fn inked(d: RGBA) -> u32
    ensures { result ≡ (if has_ink d then 1 else 0) }
{
    (d.r < 128) as u32
}

pub fn ink_of(line: &[u8], n: usize) -> u32
    requires { (n * 4 ≤ length line.now) × (n ≤ limit) }
    ensures { result ≡ ink n line.now }
{
    let mut count = 0;
    for i in 0..n {
        count += inked(get_dot(line, i));
    }
    count
}

// `count` rows of entries that keep the plan rules, from row `top` of the buffer on.
pub fn draw_rows(
    width: u32,
    paper_color: RGBA,
    entries: &[Entry],
    first: u32,
    count: u32,
    data: &[u8],
    buf: &mut [u8],
    top: u32,
)
    requires good { (1 ≤ width) × (width ≤ limit) × (good_entries width limit (length «data».now) entries.now ≡ true) }
    requires room { (first + count ≤ limit) × ((top + count) * width * 4 ≤ length buf.old) }
    ensures { buf.new ≡ band_on «data».now width paper_color entries.now first top count buf.old }
{
    let wide = width as usize;
    fill_run(buf, top as usize * wide, count as usize * wide, paper_color);
    for e in entries {
        draw_entry(
            buf,
            wide,
            top as usize,
            *e,
            first as usize,
            count as usize,
            data,
        );
    }
}

// So many rows are drawn before the next, so that a row is still near when it is drawn on.
const BAND: u32 = 64;

fn draw_bands(
    width: u32,
    paper_color: RGBA,
    entries: &[Entry],
    first: u32,
    count: u32,
    data: &[u8],
    buf: &mut [u8],
)
    requires good { (1 ≤ width) × (width ≤ limit) × (good_entries width limit (length «data».now) entries.now ≡ true) }
    requires room { (first + count ≤ limit) × (count * width * 4 ≤ length buf.old) }
    ensures { buf.new ≡ rows_on «data».now width paper_color entries.now first count buf.old }
{
    for j in (0..count).step_by(BAND as usize) {
        let n = BAND.min(count - j);
        draw_rows(width, paper_color, entries, first + j, n, data, buf, j);
    }
}

pub fn row(plan: Plan, row: u32, data: &[u8], line: &mut [u8]) -> RowAnswer
    ensures value { result ≡ plan_given «data».now plan row line.old }
    ensures line_after { line.new ≡ plan_written «data».now plan row line.old }
{
    let good = good_plan(&plan, data.len());
    if let Err(why) = refusal_of(good, plan.width, plan.height, row, line.len()) {
        return RowAnswer::refused(why);
    }
    let entries = firsts(plan.count, &plan.entries);
    draw_rows(plan.width, plan.paper_color, entries, row, 1, data, line, 0);
    let ink = ink_of(line, plan.width as usize);
    RowAnswer { number: DONE, ink }
}

// The rows from `first` on, one after the other. The plan is judged once for all of them.
pub fn rows(plan: Plan, first: u32, count: u32, data: &[u8], buf: &mut [u8]) -> Result<(), Refusal>
    ensures value { number result ≡ plan_rows_refusal plan first count (length «data».now) (length buf.old) }
    ensures buf_after { buf.new ≡ plan_rows_written «data».now plan first count buf.old }
{
    let good = good_plan(&plan, data.len());
    rows_refusal(good, plan.width, plan.height, first, count, buf.len())?;
    let entries = firsts(plan.count, &plan.entries);
    draw_bands(
        plan.width,
        plan.paper_color,
        entries,
        first,
        count,
        data,
        buf,
    );
    Ok(())
}
