// The rules that an entry of a plan keeps. Original sizes have no limit of their own; products of
// two u32 fit a usize, and what is left of the given bytes is compared, so that nothing wraps.
ghost use Rattle.std.specs.Prelude.{◌≡◌};
ghost use Rattle.entries.specs.Entries.{good_stretch, good_image, good_kind, good_entry};

use super::Entry;

#[tactic(auto, unfolding(crate::specs::Entries::good_stretch))]
fn good_stretch(e: Entry) -> bool
    ensures { result ≡ good_stretch e }
{
    e.stretch_x > 0
        && e.stretch_y > 0
        && e.original_height as usize * e.stretch_y as usize == e.h as usize
        && e.w as usize <= e.original_width as usize * e.stretch_x as usize
}

#[tactic(auto, unfolding(crate::specs::Entries::good_image, images::specs::Formats::bytes_of))]
fn good_image(n: usize, e: Entry) -> bool
    ensures { result ≡ good_image n e }
{
    let size = (e.original_width as usize).div_ceil(8) * e.original_height as usize;
    e.start <= n && size <= n - e.start && good_stretch(e)
}

#[tactic(auto, unfolding(crate::specs::Entries::good_kind))]
fn good_kind(n: usize, e: Entry) -> bool
    ensures { result ≡ good_kind n e }
{
    match e.kind {
        Entry::RECTANGLE => true,
        Entry::IMAGE => good_image(n, e),
        _ => false,
    }
}

#[tactic(auto, unfolding(crate::specs::Entries::good_entry))]
pub fn good_entry(width: u32, height: u32, n: usize, e: Entry) -> bool
    ensures { result ≡ good_entry width height n e }
{
    e.mode <= Entry::MULTIPLY
        && e.x as usize + e.w as usize <= width as usize
        && e.y as usize + e.h as usize <= height as usize
        && good_kind(n, e)
}
