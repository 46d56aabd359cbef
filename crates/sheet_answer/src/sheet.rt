// What `sheet` writes: the listing, the tick length and a name for each task.
ghost use Rattle.std.specs.Prelude.{Ok, true, ◌≡◌, ◌∷◌, ◌++◌, ◌+◌, ◌*◌, ◌≤◌, length};
ghost use Rattle.writing.specs.Ascii.{blank};
ghost use Rattle.writing.specs.Field.{field, line_end};
ghost use Rattle.writing.specs.Inner.{place_limit};
ghost use Rattle.writing.specs.Wrote.{Wrote};
ghost use Rattle.name_list.specs.Names.{names_of};
ghost use Rattle.sheet_reading.specs.Read.{sheet_told};
ghost use Rattle.sheet_answer.specs.Inner.{Listable, answer_limit};
ghost use Rattle.sheet_answer.specs.Answers.{name_lines, named_listing, sheet_text};

use crate::input::read_input;
use listing::listed::list_plan;
use names::name::name_end;
use sheet_reading::PlannedSheet;
use writing::refused::put_refusal;
use writing::{BLANK, NEWLINE, put_byte, put_field, put_text};

// Bytes that any answer fits.
pub const ANSWER: usize = 32_768;

// A task's name, a line.
fn put_named(buf: &mut [u8], at: usize, task: usize, name: &[u8]) -> usize
    requires { (at + 39 ≤ place_limit) × (length name.now ≤ 12) }
    ensures wrote { Wrote buf.old at ((field "name " task ++ blank ∷ name.now) ++ line_end) buf.new result }
    ensures upper_bound { result ≤ at + 27 + length name.now }
{
    let a = put_field(buf, at, b"name ", task as u64);
    let b = put_byte(buf, a, BLANK);
    let c = put_text(buf, b, name);
    put_byte(buf, c, NEWLINE)
}

// A line for each task's name.
fn put_name_lines(buf: &mut [u8], at: usize, names: &[u8]) -> usize
    requires { (at ≤ 20000) × (length names.now ≤ 832) }
    ensures wrote { Wrote buf.old at (name_lines 1 (names_of names.now)) buf.new result }
    ensures upper_bound { result ≤ at + 14 * 832 }
{
    let mut place = 0;
    // How many lines there are is known at the last: no range counts the tasks.
    let mut task = 1;
    let mut end = at;
    while let Some(next) = name_end(names, place, NEWLINE) {
        end = put_named(buf, end, task, &names[place..next - 1]);
        place = next;
        task += 1;
    }
    end
}

// A sheet that is taken.
fn put_taken(out: &mut [u8], sheet: PlannedSheet) -> usize
    requires { Listable (sheet_told (Ok sheet)) × (answer_limit ≤ length out.old) }
    ensures wrote { Wrote out.old 0 (named_listing (sheet_told (Ok sheet))) out.new result }
    ensures upper_bound { result ≤ answer_limit }
{
    let length = list_plan(sheet.plan, out).unwrap_or(0);
    let a = put_field(out, length, b"tick ", sheet.tick as u64);
    let b = put_byte(out, a, NEWLINE);
    put_name_lines(out, b, &sheet.names[..sheet.length])
}

// The program's answer to an input, and its length.
pub fn answer_sheet(text: &[u8], out: &mut [u8]) -> usize
    requires { answer_limit ≤ length out.old }
    ensures wrote { Wrote out.old 0 (sheet_text text.now) out.new result }
    ensures upper_bound { result ≤ answer_limit }
{
    match read_input(text) {
        Ok(sheet) => put_taken(out, sheet),
        Err(refusal) => put_refusal(out, 0, refusal),
    }
}
