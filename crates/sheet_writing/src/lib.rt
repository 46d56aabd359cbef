// Writing a table as the office's sheet: its ticks times the tick length.
#![tactic(auto)]

ghost use Rattle.std.specs.Prelude.{◌≡◌, ◌*◌, ◌+◌, ◌≤◌, length};
ghost use Rattle.units.specs.Limits.{tasks_limit};
ghost use Rattle.units.specs.Refusals.{said};
ghost use Rattle.admission.specs.Refusals.{◌or_else◌};
ghost use Rattle.name_list.specs.Names.{names_of, names_said};
ghost use Rattle.writing.specs.Inner.{place_limit};
ghost use Rattle.writing.specs.Wrote.{Wrote};
ghost use Rattle.sheet_text.specs.Job.{job};
ghost use Rattle.sheet_text.specs.Grammar.{job_written};
ghost use Rattle.sheet_writing.specs.Write.{count_test, twice_test, write_refusal, sheet_for, fitted, fitted_after, written_of, written_after, writing_told};

use admission::admit::admit;
use name_list::{name_twice, read_names};
use names::name::name_end;
use tick_length::tick_in;
use units::refusal::{Reason, Refusal};
use writing::{NEWLINE, put_byte, put_field, put_number, put_text};

// A job's line: its numbers are ticks.
fn put_job(buf: &mut [u8], at: usize, name: &[u8], cost: u32, period: u32, tick: u32) -> usize
    requires { (at + 60 ≤ place_limit) × (length name.now ≤ 12) }
    ensures wrote { Wrote buf.old at (job_written (job name.now (cost * tick) (period * tick))) buf.new result }
    ensures upper_bound { result ≤ at + 60 }
{
    let a = put_text(buf, at, name);
    let b = put_field(buf, a, b",", cost as u64 * tick as u64);
    let c = put_field(buf, b, b",", period as u64 * tick as u64);
    put_byte(buf, c, NEWLINE)
}

// The sheet of a table and its names.
fn put_sheet(buf: &mut [u8], table: &[u32], names: &[u8], tick: u32) -> usize
    requires { length table.now ≤ 2 * tasks_limit }
    ensures { Wrote buf.old 0 (sheet_for table.now names.now tick) buf.new result }
{
    let first = put_number(buf, 0, tick as u64);
    let mut end = put_byte(buf, first, NEWLINE);
    let mut at = 0;
    for k in 0..table.len() / 2 {
        let Some(next) = name_end(names, at, NEWLINE) else {
            return end;
        };
        end = put_job(
            buf,
            end,
            &names[at..next - 1],
            table[2 * k],
            table[2 * k + 1],
            tick,
        );
        at = next;
    }
    end
}

// 17 and 18: each line is a name, there is one for each task, and none stands twice.
fn names_test(names: &[u8], tasks: usize) -> Result<(), Refusal>
    ensures { said result ≡ (count_test tasks (names_said names.now) or_else twice_test (names_of names.now)) }
{
    if read_names(names) != Some(tasks) {
        return Err(Refusal::from(Reason::Sheet));
    }
    if name_twice(names) {
        return Err(Refusal::from(Reason::Name));
    }
    Ok(())
}

// The first refusal that applies, but for 14.
fn write_test(cores: u32, table: &[u32], names: &[u8], tick: u32) -> Result<(), Refusal>
    ensures { said result ≡ write_refusal cores table.now names.now tick }
{
    if !tick_in(tick as u64) {
        return Err(Refusal::from(Reason::Tick));
    }
    names_test(names, table.len() / 2)?;
    admit(cores, table)?;
    Ok(())
}

// A sheet that nothing but a short buffer refuses: a first run on a buffer of one byte finds its length.
fn write_taken(table: &[u32], names: &[u8], tick: u32, buf: &mut [u8]) -> Result<usize, Refusal>
    requires { length table.now ≤ 2 * tasks_limit }
    ensures value { writing_told result ≡ fitted (sheet_for table.now names.now tick) (length buf.old) }
    ensures buf_after { buf.new ≡ fitted_after (sheet_for table.now names.now tick) buf.old }
{
    let mut one = [0u8; 1];
    let need = put_sheet(&mut one, table, names, tick);
    if buf.len() < need {
        return Err(Refusal::from(Reason::Buffer));
    }
    Ok(put_sheet(buf, table, names, tick))
}

// A table as a sheet in a lent buffer: its length, or the refusal and no byte changed.
pub fn write_sheet(
    cores: u32,
    table: &[u32],
    names: &[u8],
    tick: u32,
    buf: &mut [u8],
) -> Result<usize, Refusal>
    ensures value { writing_told result ≡ written_of cores table.now names.now tick (length buf.old) }
    ensures buf_after { buf.new ≡ written_after cores table.now names.now tick buf.old }
{
    write_test(cores, table, names, tick)?;
    write_taken(table, names, tick, buf)
}
