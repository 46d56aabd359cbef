// Reading the office's sheet: a core count and a sheet to the tick length, the names and the plan, or the refusal.
#![tactic(auto)]

ghost use Rattle.std.specs.Prelude.{◌≡◌, map, ◌≤◌, length};
ghost use Rattle.planning.specs.Plan.{plan_of};
ghost use Rattle.sheet_text.specs.Job.{jobs_from};
ghost use Rattle.sheet_text.specs.Sheet.{sheet_limit};
ghost use Rattle.sheet_reading.specs.Read.{sheet_told, planned, plan_sheet};

use planning::{Plan, plan_of};
use sheet_text::job::put_names;
use sheet_text::sheet::{SheetRead, read_sheet};
use table_text::NUMBERS;
use units::refusal::Refusal;

// Bytes of the names of a table, at most.
pub const NAMES: usize = 832;

// The tick length, the names, a name a line, their length and the plan.
#[derive(Clone, Copy)]
pub struct PlannedSheet {
    pub tick: u32,
    pub names: [u8; NAMES],
    pub length: usize,
    pub plan: Plan,
}

// A sheet whose jobs start at a place, with its table in ticks.
fn plan_jobs(
    cores: u32,
    sheet: &[u8],
    tick: u32,
    from: usize,
    table: &[u32],
) -> Result<PlannedSheet, Refusal>
    requires { length sheet.now ≤ sheet_limit }
    ensures { sheet_told result ≡ planned tick (jobs_from (length sheet.now) sheet.now from) (plan_of cores table.now) }
{
    let plan = plan_of(cores, table)?;
    let mut names = [0u8; NAMES];
    let length = put_names(sheet, from, &mut names);
    Ok(PlannedSheet {
        tick,
        names,
        length,
        plan,
    })
}

// The plan of a sheet on a number of cores.
pub fn plan_sheet(cores: u32, sheet: &[u8]) -> Result<PlannedSheet, Refusal>
    ensures { sheet_told result ≡ plan_sheet cores sheet.now }
{
    let mut table = [0u32; NUMBERS];
    // `?` would turn the reason into a refusal without telling that they say the same.
    let SheetRead { tick, from, count } = match read_sheet(sheet, &mut table) {
        Ok(read) => read,
        Err(reason) => return Err(Refusal::from(reason)),
    };
    plan_jobs(cores, sheet, tick, from, &table[..count])
}
