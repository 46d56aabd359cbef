// What a sheet says: 19, then 17, then 18, or a tick length and jobs.
ghost use Rattle.std.specs.Prelude.{true, ◌≡◌, map, ◌≤◌, length};
ghost use Rattle.std.proofs.lemmas.List.Edits.{sets};
ghost use Rattle.name_list.specs.Names.{twice};
ghost use Rattle.tick_length.specs.Ticks.{tick_in};
ghost use Rattle.tick_length.specs.Inner.{held};
ghost use Rattle.sheet_text.specs.Job.{bad_job, jobs_from, names_in};
ghost use Rattle.sheet_text.specs.Sheet.{sheet_limit, tick_line, jobs_said, sheet_of, table_of, end_of, answer_of, reading_told};

use crate::job::{BOUND, first_unreadable, put_names, store_ticks};
use name_list::name_twice;
use scanning::line::read_field;
use tick_length::tick_in;
use units::refusal::Reason;
use writing::NEWLINE;

// Bytes of a sheet, at most.
pub const SHEET: usize = 4_096;

// The tick length, where the jobs start and how many numbers their table has.
#[derive(Clone, Copy)]
pub struct SheetRead {
    pub tick: u32,
    pub from: usize,
    pub count: usize,
}

// Whether jobs have the same name twice.
fn named_twice(sheet: &[u8], from: usize) -> bool
    requires { (length sheet.now ≤ sheet_limit) × (bad_job sheet.now from ≡ 0) }
    ensures { result ≡ twice (names_in (jobs_from (length sheet.now) sheet.now from)) }
{
    let mut names = [0u8; SHEET];
    let n = put_names(sheet, from, &mut names);
    name_twice(&names[..n])
}

// The jobs from a place on, stored only if each of their lines can be read and no name stands there twice.
fn read_jobs(sheet: &[u8], tick: u64, from: usize, table: &mut [u32]) -> Result<SheetRead, Reason>
    requires { tick_in tick ≡ true }
    ensures value { reading_told result ≡ answer_of from (jobs_said sheet.now tick from) }
    ensures table_after { table.new ≡ sets table.old 0 (map held (table_of (jobs_said sheet.now tick from))) }
{
    if SHEET < sheet.len() || first_unreadable(sheet, from).is_some() {
        return Err(Reason::Sheet);
    }
    if named_twice(sheet, from) {
        return Err(Reason::Name);
    }
    let count = store_ticks(sheet, from, tick, table);
    Ok(SheetRead {
        tick: tick as u32,
        from,
        count,
    })
}

// What a sheet says, or the reason that refuses it. Its ticks are stored in the table as far as that reaches; a refused sheet changes none.
pub fn read_sheet(sheet: &[u8], table: &mut [u32]) -> Result<SheetRead, Reason>
    ensures value { reading_told result ≡ answer_of (end_of (tick_line sheet.now)) (sheet_of sheet.now) }
    ensures table_after { table.new ≡ sets table.old 0 (map held (table_of (sheet_of sheet.now))) }
{
    let Some((tick, from)) = read_field(sheet, 0, BOUND, NEWLINE) else {
        return Err(Reason::Tick);
    };
    if tick_in(tick) {
        read_jobs(sheet, tick, from, table)
    } else {
        Err(Reason::Tick)
    }
}
