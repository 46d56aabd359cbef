// What the program `rehearse` writes: a table's text, a stop and arrivals in, the day's lines or the refusal's out, piece by piece.
#![tactic(auto)]

ghost use Rattle.units.specs.Refusals.{told};
ghost use Rattle.planning.specs.Plan.{plan_of};
ghost use Rattle.writing.specs.Refused.{refusal_text};
ghost use Rattle.day_window.specs.Window.{Windowed};
ghost use Rattle.rehearsal_answer.specs.Answer.{tested_text, planned_text, rehearsal_text};
ghost use Rattle.rehearsal_answer.specs.Inner.{Stoppable};

use arrivals::arrivals_refusal;
use day_text::{NUMBERS as ARRIVED, read_day};
use planning::{Plan, plan_of};
use rehearsal::ending::write_day;
use table_text::NUMBERS;
use units::limits::CLOCK;
use units::refusal::{Reason, Refusal};
use units::ticks::Ticks;
use writing::put_text;
use writing::refused::put_refusal;

// Bytes of a refusal's line, at most.
const LINE: usize = 60;

// A day that is asked for: its stop, its arrivals, and whether a line is left after them.
#[derive(Clone, Copy)]
struct Day<'a> {
    stop: u64,
    arrivals: &'a [u64],
    more: bool,
}

// A refusal's line from a byte on, as far as the buffer reaches, and the line's length.
fn put_refusal_within(out: &mut [u8], skip: usize, refusal: Refusal) -> usize
    ensures { Windowed out.old skip 0 (refusal_text (told refusal)) out.new result }
{
    let mut line = [0u8; LINE];
    let n = put_refusal(&mut line, 0, refusal);
    if skip < n {
        put_text(out, 0, &line[skip..n]);
    }
    n
}

// The day, if no arrival is refused and no line is left.
fn put_tested(plan: Plan, day: Day, skip: usize, out: &mut [u8]) -> usize
    requires { Stoppable plan day.stop }
    ensures { Windowed out.old skip 0 (tested_text plan day.entry.stop day.entry.arrivals.now day.entry.more) out.new result }
{
    if let Err(refusal) = arrivals_refusal(plan, day.arrivals) {
        return put_refusal_within(out, skip, refusal);
    }
    if day.more {
        return put_refusal_within(
            out,
            skip,
            Refusal {
                reason: Reason::Arrival,
                named: day.arrivals.len() / 3 + 1,
            },
        );
    }
    write_day(plan, day.arrivals, Ticks(day.stop), skip, out)
}

// The day of a table that is taken, if its stop is within the clock's limit.
fn put_planned(cores: u32, table: &[u32], day: Day, skip: usize, out: &mut [u8]) -> usize
    ensures { Windowed out.old skip 0 (planned_text (plan_of cores table.now) day.entry.stop day.entry.arrivals.now day.entry.more) out.new result }
{
    match plan_of(cores, table) {
        Err(refusal) => put_refusal_within(out, skip, refusal),
        Ok(plan) => {
            if CLOCK < day.stop {
                return put_refusal_within(out, skip, Refusal::from(Reason::Clock));
            }
            put_tested(plan, day, skip, out)
        }
    }
}

// The program's answer to an input from a byte on, as far as the buffer reaches, and the whole answer's length.
pub fn answer(text: &[u8], skip: usize, out: &mut [u8]) -> usize
    ensures { Windowed out.old skip 0 (rehearsal_text text.now) out.new result }
{
    let mut table = [0u32; NUMBERS];
    let mut arrivals = [0u64; ARRIVED];
    match read_day(text, &mut table, &mut arrivals) {
        Err(line) => put_refusal_within(
            out,
            skip,
            Refusal {
                reason: Reason::Text,
                named: line,
            },
        ),
        Ok(read) => {
            let day = Day {
                stop: read.stop,
                arrivals: &arrivals[..read.numbers],
                more: read.more,
            };
            put_planned(read.cores, &table[..read.count], day, skip, out)
        }
    }
}
