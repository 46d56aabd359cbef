// The steps of a rehearsal: a finish, an arrival, or a look at all cores and a jump.
ghost use Rattle.std.specs.Prelude.{◌≡◌, ◌+◌, ◌≤◌};
ghost use Rattle.writing.specs.Inner.{place_limit};
ghost use Rattle.day_lines.specs.Lines.{event_text, events_text};
ghost use Rattle.day_window.specs.Window.{Windowed};
ghost use Rattle.day_lines.specs.declared.Event.TheVariants.{Finished};
ghost use Rattle.day.specs.Desk.{desk_at};
ghost use Rattle.rehearsal.specs.Desk.{fresh_desk};
ghost use Rattle.rehearsal.specs.Inner.{on_core, Rehearsable, Blank, Stood};

use crate::parts::{coming_at, done_by, fresh_fronts, jump_from};
use day_lines::{Event, Ran};
use day_window::put_within;
use day_writing::{put_arrival, put_spans};
use front_rows::{front_in, store_front};
use goings::{Going, going_in, ran_by};
use instants::scan;
use planning::Plan;
use seats::{Ended, Seat};
use units::limits::TASKS;
use units::ticks::Ticks;

// Where a rehearsal is: each task; the instant, the next arrival, the next core whose run may be done, and the place after what was said.
#[derive(Clone, Copy)]
pub(crate) struct Desk {
    pub seats: [Seat; TASKS],
    pub time: u64,
    pub next: usize,
    pub core: usize,
    pub cores: usize,
    pub end: usize,
}

// Nothing yet.
fn fresh_desk(cores: usize) -> Desk
    ensures { result ≡ fresh_desk cores }
{
    Desk {
        seats: [Seat::FRESH; TASKS],
        time: 0,
        next: 0,
        core: cores,
        cores,
        end: 0,
    }
}

// A run that ends on a core, from 1.
fn put_finish(
    out: &mut [u8],
    skip: usize,
    at: usize,
    core: usize,
    run: Going,
    time: Ticks,
    ended: Ended,
) -> usize
    requires { at + 180 ≤ place_limit }
    ensures windowed { Windowed out.old skip at (event_text (Finished (on_core core run) time ended.late)) out.new result }
    ensures upper_bound { result ≤ at + 180 }
{
    let ran = Ran {
        core,
        task: run.task,
        run: run.run,
    };
    put_within(out, skip, at, Event::Finished(ran, time, ended.late))
}

// All steps up to the stop, and what they say. Fronts, ticks had and the runs that have the cores are lent, since numbers that are lent are not copied.
pub(crate) fn rehearse(
    plan: Plan,
    arrivals: &[u64],
    stop: Ticks,
    skip: usize,
    out: &mut [u8],
    fronts: &mut [u64],
    had: &mut [u64],
    goings: &mut [u64],
) -> Desk
    requires { Rehearsable plan arrivals.now stop.0 × Blank fronts.old had.old goings.old }
    ensures stood { Stood plan arrivals.now stop.0 result had.new goings.new }
    ensures windowed { Windowed out.old skip 0 (events_text (desk_at plan arrivals.now stop.0).said) out.new result.end }
    ensures end_bound { result.end ≤ 10000000000000000 }
{
    let mut desk = fresh_desk(plan.cores as usize);
    fresh_fronts(plan, fronts);
    // No range: each step moves on one of three, the core, the next arrival or the time.
    while (desk.core < desk.cores) | (desk.time < stop.0) {
        let time = Ticks(desk.time);
        let coming = coming_at(arrivals, desk.next, stop);
        if desk.core < desk.cores {
            let run = going_in(goings, desk.core);
            desk.core += 1;
            let i = run.task.saturating_sub(1);
            let front = front_in(fronts, i);
            if done_by(run, front, had[i]) {
                let ended = desk.seats[i].end(plan.lines[i], time);
                desk.end = put_finish(out, skip, desk.end, desk.core, run, time, ended);
                desk.seats[i] = ended.seat;
                store_front(fronts, i, ended.front);
                had[i] = 0;
            }
        } else if coming.0 == time.0 {
            let i = arrivals[3 * desk.next + 1] as usize - 1;
            let length = arrivals[3 * desk.next + 2];
            desk.next += 1;
            let arrived = desk.seats[i].arrive(plan.lines[i], time, length);
            desk.end = put_arrival(out, skip, desk.end, arrived.taken, desk.next, i + 1, time);
            desk.seats[i] = arrived.seat;
            store_front(fronts, i, arrived.front);
        } else {
            let instant = scan(fronts, had, plan.count, time, coming);
            let jump = jump_from(instant, desk.cores, time);
            desk.end = put_spans(out, skip, desk.end, goings, instant.seen, desk.cores, time);
            ran_by(had, goings, desk.cores, jump.more);
            desk.time += jump.more;
            desk.core = jump.core;
        }
    }
    desk
}
