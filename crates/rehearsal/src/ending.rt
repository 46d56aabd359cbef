// The end of a rehearsal: what is said at the stop.
ghost use Rattle.std.specs.Prelude.{◌≤◌};
ghost use Rattle.day_window.specs.Window.{Windowed};
ghost use Rattle.day_rules.specs.Day.{day_text};
ghost use Rattle.rehearsal.specs.Inner.{Rehearsable};

use crate::steps::rehearse;
use day_lines::Event;
use day_window::put_within;
use day_writing::put_spans;
use instants::Seen;
use planning::Plan;
use unfinished_runs::put_unfinished;
use units::limits::{CORES, TASKS};
use units::ticks::Ticks;

// Numbers of all fronts.
const FRONTS: usize = 7 * TASKS;

// Numbers of all runs that have the cores.
const GOINGS: usize = 3 * CORES;

// All that a rehearsal says, in a window of its text.
pub fn write_day(plan: Plan, arrivals: &[u64], stop: Ticks, skip: usize, out: &mut [u8]) -> usize
    requires { Rehearsable plan arrivals.now stop.0 }
    ensures windowed { Windowed out.old skip 0 (day_text plan arrivals.now stop.0) out.new result }
    ensures upper_bound { result ≤ 20000000000000000 }
{
    let mut fronts = [0u64; FRONTS];
    let mut had = [0u64; TASKS];
    let mut goings = [0u64; GOINGS];
    let desk = rehearse(
        plan,
        arrivals,
        stop,
        skip,
        out,
        &mut fronts,
        &mut had,
        &mut goings,
    );
    let idle = [Seen::IDLE; CORES];
    let cores = plan.cores as usize;
    let spans = put_spans(out, skip, desk.end, &mut goings, idle, cores, stop);
    let stopped = put_within(out, skip, spans, Event::Stopped(stop));
    let seats = desk.seats;
    put_unfinished(out, skip, stopped, plan.count, seats, &had)
}
