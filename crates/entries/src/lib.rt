// One entry of a row plan: a rectangle or an image, cropped and in its place, and how it is drawn on
// rows of dots. The run, the plan and the lent list all draw by `draw_entry`.
#![tactic(auto)]

mod image;
mod rules;

ghost use Rattle.std.specs.Prelude.{◌≡◌, true, ◌+◌, ◌*◌, ◌≤◌, length};
ghost use Rattle.numbers.specs.Numbers.{limit};
ghost use Rattle.images.specs.Stretching.{factor};
ghost use Rattle.areas.specs.Areas.{Fits, area_on};
ghost use Rattle.entries.specs.Entries.{rectangle_entry, image_entry, good_kind, good_entry};
ghost use Rattle.entries.specs.Steps.{own_row, entry_rows, Placed};

use areas::{Area, draw_area};
use colour::RGBA;
use image::image_rows;
use images::factor_of;
pub use rules::good_entry;

// Kind and mode are the job's numbers. A rectangle has zeros from the stretch on; the bit rows of an
// image stand in the job's bytes from `start` on.
#[repr(C)]
#[derive(Clone, Copy)]
pub struct Entry {
    pub kind: u8,
    pub mode: u8,
    pub stretch_x: u8,
    pub stretch_y: u8,
    pub color: RGBA,
    pub x: u32,
    pub y: u32,
    pub w: u32,
    pub h: u32,
    pub original_width: u32,
    pub original_height: u32,
    pub start: usize,
}

impl Entry {
    pub const RECTANGLE: u8 = 2;

    pub const IMAGE: u8 = 3;

    pub const BLEND: u8 = 0;

    pub const MULTIPLY: u8 = 1;

    #[tactic(auto, unfolding(crate::specs::Entries::rectangle_entry))]
    pub fn rectangle(width: u32, x: u32, y: u32, w: u32, h: u32, color: RGBA, mode: u8) -> Entry
        requires { x ≤ width }
        ensures { result ≡ rectangle_entry width x y w h color mode }
    {
        let cut = w.min(width - x);
        Entry {
            kind: Entry::RECTANGLE,
            mode,
            stretch_x: 0,
            stretch_y: 0,
            color,
            x,
            y,
            w: cut,
            h,
            original_width: 0,
            original_height: 0,
            start: 0,
        }
    }

    #[tactic(auto, unfolding(crate::specs::Entries::image_entry))]
    pub fn image(
        width: u32,
        x: u32,
        y: u32,
        w: u32,
        h: u32,
        sx: u8,
        sy: u8,
        color: RGBA,
        mode: u8,
        start: usize,
    ) -> Entry
        requires { (x ≤ width) × (w * factor sx ≤ limit) × (h * factor sy ≤ limit) }
        ensures { result ≡ image_entry width x y w h (factor sx) (factor sy) color mode start }
    {
        let fx = factor_of(sx);
        let fy = factor_of(sy);
        let cut = (w * fx).min(width - x);
        Entry {
            kind: Entry::IMAGE,
            mode,
            stretch_x: fx as u8,
            stretch_y: fy as u8,
            color,
            x,
            y,
            w: cut,
            h: h * fy,
            original_width: w,
            original_height: h,
            start,
        }
    }
}

// The entry's own rows from `own` on.
fn draw_part(buf: &mut [u8], area: Area, e: Entry, own: usize, data: &[u8])
    requires part { (good_kind (length «data».now) e ≡ true) × (own + area.h ≤ e.h) × (area.w ≤ e.w) }
    requires fits { (area.wide ≤ limit) × Fits area.wide area.x area.y area.w area.h (length buf.old) }
    ensures { buf.new ≡ area_on area.wide area.x area.y area.w area.h (own_row «data».now e own) buf.old }
{
    let multiply = e.mode == Entry::MULTIPLY;
    if e.kind == Entry::RECTANGLE {
        draw_area(buf, area, e.color, multiply);
        return;
    }
    image_rows(buf, area, e, own, data, multiply);
}

// The entry's part of the rows that stand in the buffer. Most entries of a plan have none in a row.
pub fn draw_entry(
    buf: &mut [u8],
    wide: usize,
    top: usize,
    e: Entry,
    from: usize,
    rows: usize,
    data: &[u8],
)
    requires { Placed wide top from rows (length buf.old) × (good_entry wide limit (length «data».now) e ≡ true) }
    ensures { buf.new ≡ entry_rows «data».now e wide top from rows buf.old }
{
    let first = from.max(e.y as usize);
    let last = (from + rows).min(e.y as usize + e.h as usize);
    if last <= first {
        return;
    }
    let area = Area {
        wide,
        x: e.x as usize,
        y: top + (first - from),
        w: e.w as usize,
        h: last - first,
    };
    let own = first - e.y as usize;
    draw_part(buf, area, e, own, data);
}
