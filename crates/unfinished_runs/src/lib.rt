// Writing the unfinished runs at a rehearsal's stop, in a window of its text.
#![tactic(auto)]

ghost use Rattle.std.specs.Prelude.{◌≡◌, length, ◌+◌, ◌*◌, ◌≤◌, ◌<◌};
ghost use Rattle.units.specs.Limits.{runs_limit, tasks_limit, clock_limit};
ghost use Rattle.writing.specs.Inner.{place_limit};
ghost use Rattle.day_lines.specs.Lines.{event_text, events_text};
ghost use Rattle.day_window.specs.Window.{Windowed};
ghost use Rattle.day_rules.specs.Day.{runs_left};
ghost use Rattle.unfinished_runs.specs.Inner.{run_left};
ghost use Rattle.unfinished_runs.specs.Left.{left_by, Leavable};

use day_lines::{Event, Ran};
use day_window::put_within;
use run_lengths::Work;
use seats::Seat;
use task_state::State;
use units::limits::TASKS;

// A task's k-th unfinished run, from 0.
fn put_run(
    out: &mut [u8],
    skip: usize,
    at: usize,
    task: usize,
    k: usize,
    state: State,
    work: Work,
    had: u64,
) -> usize
    requires { (at + 180 ≤ place_limit) × (k < runs_limit) × (work.ended ≤ clock_limit) }
    ensures windowed { Windowed out.old skip at (event_text (run_left state work had task k)) out.new result }
    ensures upper_bound { result ≤ at + 180 }
{
    let ran = Ran {
        core: state.cores[k] as usize,
        task,
        run: work.ended + 1 + k as u64,
    };
    let ticks = if k == 0 { had } else { 0 };
    let event = Event::Unfinished(ran, state.deadlines[k], ticks, work.lengths[k]);
    put_within(out, skip, at, event)
}

// A task's unfinished runs, oldest first.
fn put_runs(
    out: &mut [u8],
    skip: usize,
    at: usize,
    task: usize,
    state: State,
    work: Work,
    had: u64,
) -> usize
    requires { (at + 180 * runs_limit ≤ place_limit) × (state.live ≤ runs_limit) × (work.ended ≤ clock_limit) }
    ensures windowed { Windowed out.old skip at (events_text (runs_left state work had task state.live)) out.new result }
    ensures upper_bound { result ≤ at + 180 * runs_limit }
{
    let mut end = at;
    for k in 0..state.live as usize {
        end = put_run(out, skip, end, task, k, state, work, had);
    }
    end
}

// The unfinished runs of the first tasks, by task and run.
pub fn put_unfinished(
    out: &mut [u8],
    skip: usize,
    at: usize,
    count: usize,
    seats: [Seat; TASKS],
    had: &[u64],
) -> usize
    requires { (at + 180 * runs_limit * tasks_limit ≤ place_limit) × (count ≤ tasks_limit) × Leavable seats count × (length had.now ≡ tasks_limit) }
    ensures windowed { Windowed out.old skip at (events_text (left_by seats had.now count)) out.new result }
    ensures upper_bound { result ≤ at + 180 * runs_limit * count }
{
    let mut end = at;
    for i in 0..count {
        end = put_runs(out, skip, end, i + 1, seats[i].state, seats[i].work, had[i]);
    }
    end
}
