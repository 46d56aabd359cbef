// Planning: from a core count and a lent table to a plan, or to the first refusal that applies.
#![tactic(auto)]

ghost use Rattle.std.specs.Prelude.{◌≡◌, ◌*◌, ◌≤◌, length};
ghost use Rattle.units.specs.Limits.{cores_limit, tasks_limit};
ghost use Rattle.units.specs.Units.{nums};
ghost use Rattle.assignment.specs.Passes.{rooms, rows_of};
ghost use Rattle.planning.specs.Plan.{lines_of, padded_lines, plan_for, plan_of, plan_told};

use admission::admit::{Admitted, admit};
use assignment::{Row, shares_of};
use units::limits::{CORES, TASKS};
use units::refusal::Refusal;
use units::share::Share;
use units::ticks::Duration;

// A task's line: what the table says of it, and what it is given.
#[repr(C)]
#[derive(Clone, Copy)]
pub struct Line {
    pub cost: Duration,
    pub period: Duration,
    pub weight: Share,
    pub shares: [Share; CORES],
}

impl Line {
    pub const EMPTY: Line = Line {
        cost: Duration(0),
        period: Duration(0),
        weight: Share::EMPTY,
        shares: [Share::EMPTY; CORES],
    };
}

// Cores M, the common period L, the number of tasks N, and the tasks' lines; those past N are empty.
#[repr(C)]
#[derive(Clone, Copy)]
pub struct Plan {
    pub cores: u32,
    pub common: u32,
    pub count: usize,
    pub lines: [Line; TASKS],
}

// The room of empty cores: L on each of them, none on the others.
fn rooms_of(cores: usize, common: u32) -> Row
    requires { cores ≤ cores_limit }
    ensures { nums result.shares ≡ rooms cores common }
{
    let mut room = [Share::EMPTY; CORES];
    room[..cores].fill(Share(common));
    Row { shares: room }
}

// The lines of a table, with its weights and shares.
fn lines_of(table: &[u32], weights: [Share; TASKS], rows: [Row; TASKS]) -> [Line; TASKS]
    requires { length table.now ≤ 2 * tasks_limit }
    ensures { result ≡ padded_lines (lines_of table.now (nums weights) (rows_of rows)) }
{
    let mut lines = [Line::EMPTY; TASKS];
    for k in 0..table.len() / 2 {
        lines[k] = Line {
            cost: Duration(table[2 * k]),
            period: Duration(table[2 * k + 1]),
            weight: weights[k],
            shares: rows[k].shares,
        };
    }
    lines
}

// The plan of a table that is taken.
fn drawn(cores: u32, table: &[u32], common: u32, weights: [Share; TASKS]) -> Plan
    requires { (cores ≤ cores_limit) × (length table.now ≤ 2 * tasks_limit) }
    ensures { result ≡ plan_for cores common (nums weights) table.now }
{
    let room = rooms_of(cores as usize, common);
    let rows = shares_of(weights, room);
    let lines = lines_of(table, weights, rows);
    Plan {
        cores,
        common,
        count: table.len() / 2,
        lines,
    }
}

// The plan of a table on a number of cores, or the first refusal that applies.
pub fn plan_of(cores: u32, table: &[u32]) -> Result<Plan, Refusal>
    ensures { plan_told result ≡ plan_of cores table.now }
{
    let Admitted { common, weights } = admit(cores, table)?;
    Ok(drawn(cores, table, common, weights))
}
