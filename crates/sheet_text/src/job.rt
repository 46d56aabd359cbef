// The lines of the jobs, `name,cost,period`.
ghost use Rattle.std.specs.Prelude.{◌≡◌, map, ◌+◌, ◌≤◌, ◌<◌, length};
ghost use Rattle.std.proofs.lemmas.List.Edits.{sets};
ghost use Rattle.name_list.specs.Names.{names_text};
ghost use Rattle.tick_length.specs.Inner.{held};
ghost use Rattle.scanning.specs.Lines.{unless_zero};
ghost use Rattle.writing.specs.Inner.{place_limit};
ghost use Rattle.writing.specs.Wrote.{Wrote};
ghost use Rattle.sheet_text.specs.Job.{job_at, name_line, bad_job, jobs_from, names_in, ticks_in};
ghost use Rattle.sheet_text.specs.Sheet.{sheet_limit};

use lent_numbers::store;
use names::name::name_end;
use scanning::line::read_pair_by;
use scanning::lines;
use tick_length::{cost_ticks, period_ticks};
use writing::{NEWLINE, put_byte, put_text};

// The byte between two fields of a line.
const COMMA: u8 = 44;
// 10^15, which each number is below.
pub(crate) const BOUND: u64 = 1_000_000_000_000_000;

// Cost and period of the job at a place, and the place after its line.
fn read_job(sheet: &[u8], at: usize) -> Option<(u64, u64, usize)>
    ensures { result ≡ job_at sheet.now at }
{
    let next = name_end(sheet, at, COMMA)?;
    read_pair_by(sheet, next, BOUND, COMMA)
}

// The first unreadable line of jobs that start with the sheet's second line, if there is one.
pub(crate) fn first_unreadable(sheet: &[u8], from: usize) -> Option<usize>
    ensures { result ≡ unless_zero (bad_job sheet.now from) }
{
    lines::first_unreadable(from, sheet.len(), 2, |at| Some(read_job(sheet, at)?.2))
}

// Stores the ticks of the jobs from a place on, as far as the table reaches, and answers how many numbers they are.
pub(crate) fn store_ticks(sheet: &[u8], from: usize, tick: u64, table: &mut [u32]) -> usize
    requires { 0 < tick }
    ensures value { result ≡ length (ticks_in tick (jobs_from (length sheet.now) sheet.now from)) }
    ensures table_after { table.new
        ≡ sets table.old 0 (map held (ticks_in tick (jobs_from (length sheet.now) sheet.now from))) }
{
    let mut at = from;
    // It counts on past the table's end, since the answer is how many numbers there are: no `for` over the table does.
    let mut i = 0;
    while let Some((c, t, next)) = read_job(sheet, at) {
        let cost = cost_ticks(c, tick);
        let period = period_ticks(t, tick);
        store(table, 2 * i, cost);
        store(table, 2 * i + 1, period);
        at = next;
        i += 1;
    }
    2 * i
}

// Stores the name of the job at a place, a line, where there is one.
fn put_name(sheet: &[u8], at: usize, buf: &mut [u8], end: usize) -> usize
    requires { end + 13 ≤ place_limit }
    ensures { Wrote buf.old end (name_line sheet.now at) buf.new result }
{
    let Some(next) = name_end(sheet, at, COMMA) else {
        return end;
    };
    let stored = put_text(buf, end, &sheet[at..next - 1]);
    put_byte(buf, stored, NEWLINE)
}

// Stores the names of the jobs from a place on, a name a line, as far as the buffer reaches, and answers their length.
pub fn put_names(sheet: &[u8], from: usize, buf: &mut [u8]) -> usize
    requires { length sheet.now ≤ sheet_limit }
    ensures { Wrote buf.old 0 (names_text (names_in (jobs_from (length sheet.now) sheet.now from))) buf.new result }
{
    let mut at = from;
    let mut end = 0;
    while let Some((_, _, next)) = read_job(sheet, at) {
        end = put_name(sheet, at, buf, end);
        at = next;
    }
    end
}
