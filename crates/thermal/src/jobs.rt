// Jobs: a run on a canvas, and the row plan. The dropped commands of an answer are its first
// `dropped_count`; a plan's entries are its first `count`.
ghost use Rattle.std.specs.Prelude.{◌≡◌, length};
ghost use Rattle.plan.specs.Plan.{translated};
ghost use Rattle.rows.specs.Rows.{plan_written, plan_given, plan_rows_refusal, plan_rows_written};
ghost use Rattle.runs.specs.Run.{ran, run_on};

use numbers::number;
use plan::{Plan, Translated};
use rows::RowAnswer;
use runs::Ran;

#[unsafe(no_mangle)]
pub extern "C" fn thermal_run(job: &[u8], buf: &mut [u8]) -> Ran
    ensures value { result ≡ ran job.now (length buf.old) }
    ensures buf_after { buf.new ≡ run_on job.now buf.old }
{
    runs::run(job, buf)
}

#[unsafe(no_mangle)]
pub extern "C" fn thermal_translate(job: &[u8]) -> Translated
    ensures { result ≡ translated job.now }
{
    plan::translate(job)
}

#[unsafe(no_mangle)]
pub extern "C" fn thermal_row(plan: Plan, row: u32, data: &[u8], line: &mut [u8]) -> RowAnswer
    ensures value { result ≡ plan_given «data».now plan row line.old }
    ensures line_after { line.new ≡ plan_written «data».now plan row line.old }
{
    rows::row(plan, row, data, line)
}

#[unsafe(no_mangle)]
pub extern "C" fn thermal_rows(
    plan: Plan,
    first: u32,
    count: u32,
    data: &[u8],
    buf: &mut [u8],
) -> u8
    ensures value { result ≡ plan_rows_refusal plan first count (length «data».now) (length buf.old) }
    ensures buf_after { buf.new ≡ plan_rows_written «data».now plan first count buf.old }
{
    number(rows::rows(plan, first, count, data, buf))
}
