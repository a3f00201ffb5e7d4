// The listing: the text of its lines, and which jobs it takes. Document 01, "The listing".
#![tactic(auto)]

pub mod printing;
mod writing;

ghost use Rattle.std.specs.Prelude.{◌≡◌, length};
ghost use Rattle.listing.specs.Listing.{paper_line, row_line, refused_line, text_on, text_given, written, listed, first_line};

use numbers::{DONE, Refusal};
use plan::{Translated, translate};
use writing::{digits_of, put_part};

// The most bytes of a job that is listed.
pub const MOST_BYTES: usize = 32768;

// No bytes at all are refused by 11 too.
pub fn list_job(s: &[u8]) -> Translated
    ensures { result ≡ listed s.now }
{
    if s.len() > MOST_BYTES {
        return translate(&s[..0]);
    }
    translate(s)
}

// A line answers how many bytes its text has. In each, `size` is the words and the newline, and then
// the digits. One function for lines of any parts would have to ask how long their words may be.
fn paper_line(width: u32, height: u32, dropped: usize, out: &mut [u8]) -> Result<usize, Refusal>
    ensures value { written result ≡ text_given (paper_line width height dropped) (length out.old) }
    ensures out_after { out.new ≡ text_on (paper_line width height dropped) out.old }
{
    let w = width as usize;
    let h = height as usize;
    let size = 24 + digits_of(w) + digits_of(h) + digits_of(dropped);
    if out.len() < size {
        return Err(Refusal::NoRoom);
    }
    let a = put_part(b"paper ", w, 0, out);
    let b = put_part(b" height ", h, a, out);
    let c = put_part(b" dropped ", dropped, b, out);
    out[c] = b'\n';
    Ok(size)
}

fn refused_line(number: u8, out: &mut [u8]) -> Result<usize, Refusal>
    ensures value { written result ≡ text_given (refused_line number) (length out.old) }
    ensures out_after { out.new ≡ text_on (refused_line number) out.old }
{
    let n = number as usize;
    let size = 9 + digits_of(n);
    if out.len() < size {
        return Err(Refusal::NoRoom);
    }
    let a = put_part(b"refused ", n, 0, out);
    out[a] = b'\n';
    Ok(size)
}

// A refused job has no line but this.
pub fn first_line(t: Translated, out: &mut [u8]) -> Result<usize, Refusal>
    ensures value { written result ≡ text_given (first_line t) (length out.old) }
    ensures out_after { out.new ≡ text_on (first_line t) out.old }
{
    if t.number != DONE {
        return refused_line(t.number, out);
    }
    let plan = t.plan;
    paper_line(plan.width, plan.height, plan.dropped_count, out)
}

pub fn row_line(row: u32, ink: u32, out: &mut [u8]) -> Result<usize, Refusal>
    ensures value { written result ≡ text_given (row_line row ink) (length out.old) }
    ensures out_after { out.new ≡ text_on (row_line row ink) out.old }
{
    let n = row as usize;
    let k = ink as usize;
    let size = 10 + digits_of(n) + digits_of(k);
    if out.len() < size {
        return Err(Refusal::NoRoom);
    }
    let a = put_part(b"row ", n, 0, out);
    let b = put_part(b" ink ", k, a, out);
    out[b] = b'\n';
    Ok(size)
}
