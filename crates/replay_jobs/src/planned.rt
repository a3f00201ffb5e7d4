// What a line says of the plan.
use super::HEAD;
use plan::Plan;
use vectors::hex::{byte_at, number_at};
use vectors::sums::{NO_BYTES, sum_all};

pub fn plan_agrees(head: &[u8; HEAD], job: &[u8], canvas: &[u8]) -> bool {
    let t = plan::translate(job);
    if t.number != byte_at(head, 60) {
        return false;
    }
    if t.number != 0 {
        return true;
    }
    rows_agree(t.plan, job, canvas, number_at(head, 63, 8))
}

// Each row of the plan is that row of the canvas, if there is one, and the checksum of their ink is
// the line's. A row that is not there is not compared.
fn rows_agree(plan: Plan, job: &[u8], canvas: &[u8], ink: u32) -> bool {
    let mut space = [0; 65536];
    let mut rest = canvas;
    let mut sum = NO_BYTES;
    for row in 0..plan.height {
        let a = rows::row(plan, row, job, &mut space);
        if a.number != 0 {
            return false;
        }
        if let Some((dots, below)) = rest.split_at_checked(plan.width as usize * 4) {
            if !space.starts_with(dots) {
                return false;
            }
            rest = below;
        }
        sum = sum_all(sum, &a.ink.to_le_bytes());
    }
    sum == ink
}
