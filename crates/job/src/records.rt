// What stands at a position of a job's bytes.
ghost use Rattle.std.specs.Prelude.{◌≡◌};
ghost use Rattle.job.specs.Records.{record_at};

use super::bytes::{read_u16, read_u32};
use super::kinds::{HEAD_SIZE, KIND_SIZE, LENGTH_SIZE};

// A record's body is `size` bytes from `start` on, and what follows it stands at `next`. `Bad` is
// bytes that are no record.
#[derive(Clone, Copy)]
pub enum Rec {
    Record {
        kind: u16,
        start: usize,
        size: usize,
        next: usize,
    },
    Bad,
    End,
}

// The length is compared with the bytes that are left, so that no sum goes past a usize.
pub fn next_record(s: &[u8], at: usize) -> Rec
    ensures { result ≡ record_at s.now at }
{
    if s.len() <= at {
        return Rec::End;
    }
    if s.len() - at < HEAD_SIZE {
        return Rec::Bad;
    }
    let length = read_u32(s, at) as usize;
    if length < KIND_SIZE {
        return Rec::Bad;
    }
    let after = at + LENGTH_SIZE;
    if s.len() - after < length {
        return Rec::Bad;
    }
    let kind = read_u16(s, after);
    Rec::Record {
        kind,
        start: at + HEAD_SIZE,
        size: length - KIND_SIZE,
        next: after + length,
    }
}
