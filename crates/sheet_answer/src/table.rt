// What `table` writes: the table's text.
ghost use Rattle.std.specs.Prelude.{◌≡◌, ◌++◌, ◌+◌, ◌≤◌, length};
ghost use Rattle.units.specs.Limits.{tasks_limit};
ghost use Rattle.writing.specs.Inner.{place_limit};
ghost use Rattle.writing.specs.Wrote.{Wrote};
ghost use Rattle.table_text.specs.Grammar.{cores_written, task_written, tasks_written};
ghost use Rattle.sheet_answer.specs.Inner.{Few};
ghost use Rattle.sheet_answer.specs.Answers.{numbers_of, table_in, table_text};

use crate::input::read_input;
use planning::{Line, Plan};
use units::ticks::Duration;
use writing::refused::put_refusal;
use writing::{NEWLINE, put_byte, put_field, put_number};

// Bytes that any table's text fits.
pub const TABLE: usize = 4_096;

// A task's line.
fn put_task(buf: &mut [u8], at: usize, cost: Duration, period: Duration) -> usize
    requires { at + 42 ≤ place_limit }
    ensures wrote { Wrote buf.old at (task_written cost.0 period.0) buf.new result }
    ensures upper_bound { result ≤ at + 42 }
{
    let a = put_number(buf, at, cost.0 as u64);
    let b = put_field(buf, a, b" ", period.0 as u64);
    put_byte(buf, b, NEWLINE)
}

// A line for each task.
fn put_tasks(buf: &mut [u8], at: usize, lines: &[Line]) -> usize
    requires { (at ≤ 21) × (length lines.now ≤ tasks_limit) }
    ensures wrote { Wrote buf.old at (tasks_written (numbers_of lines.now)) buf.new result }
    ensures upper_bound { result ≤ 4096 }
{
    let mut end = at;
    for line in lines {
        end = put_task(buf, end, line.cost, line.period);
    }
    end
}

// M's line and a line for each task.
fn put_plan(buf: &mut [u8], plan: Plan) -> usize
    requires { Few plan }
    ensures wrote { Wrote buf.old 0 (cores_written plan.cores ++ tasks_written (table_in plan)) buf.new result }
    ensures upper_bound { result ≤ 4096 }
{
    let a = put_number(buf, 0, plan.cores as u64);
    let b = put_byte(buf, a, NEWLINE);
    put_tasks(buf, b, &plan.lines[..plan.count])
}

// The program's answer to an input, and its length.
pub fn answer_table(text: &[u8], out: &mut [u8]) -> usize
    ensures wrote { Wrote out.old 0 (table_text text.now) out.new result }
    ensures upper_bound { result ≤ 4096 }
{
    match read_input(text) {
        Ok(sheet) => put_plan(out, sheet.plan),
        Err(refusal) => put_refusal(out, 0, refusal),
    }
}
