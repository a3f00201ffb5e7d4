// The row of a list of entries that the caller lends, by the same functions of rows as the row of a
// plan: which entries are good is told by `good_entries`, and they are drawn by `draw_rows`.
#![tactic(auto)]

ghost use Rattle.std.specs.Prelude.{◌≡◌, length};
ghost use Rattle.rows.specs.Rows.{good_plan, list_written, list_given};

use colour::RGBA;
use entries::Entry;
use numbers::DONE;
use rows::{RowAnswer, draw_rows, good_entries, good_sizes, ink_of, refusal_of};

// The list's length is the count of its entries.
fn good_list(width: u32, height: u32, n: usize, entries: &[Entry]) -> bool
    ensures { result ≡ good_plan width height n (length entries.now) entries.now }
{
    good_sizes(width, height, entries.len()) && good_entries(width, height, n, entries)
}

// All entries are judged before a byte is written.
pub fn row_of_entries(
    width: u32,
    height: u32,
    paper_color: RGBA,
    entries: &[Entry],
    row: u32,
    data: &[u8],
    line: &mut [u8],
) -> RowAnswer
    ensures value { result ≡ list_given «data».now width height paper_color entries.now row line.old }
    ensures line_after { line.new ≡ list_written «data».now width height paper_color entries.now row line.old }
{
    let good = good_list(width, height, data.len(), entries);
    if let Err(why) = refusal_of(good, width, height, row, line.len()) {
        return RowAnswer::refused(why);
    }
    draw_rows(width, paper_color, entries, row, 1, data, line, 0);
    let ink = ink_of(line, width as usize);
    RowAnswer { number: DONE, ink }
}
