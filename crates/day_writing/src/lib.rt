// Writing what a rehearsal says of an arrival and of all cores, in a window of its text.
#![tactic(auto)]

ghost use Rattle.std.specs.Prelude.{◌+◌, ◌*◌, ◌≤◌, ◌<◌, ◌≡◌, cond, [], ◌∷◌, eqb, length};
ghost use Rattle.units.specs.Limits.{cores_limit};
ghost use Rattle.units.specs.Refusals.{number_said as no};
ghost use Rattle.writing.specs.Inner.{place_limit};
ghost use Rattle.day_lines.specs.Lines.{events_text};
ghost use Rattle.day_window.specs.Window.{Windowed};
ghost use Rattle.day_lines.specs.declared.Event.TheVariants.{Refused};
ghost use Rattle.day_rules.specs.Day.{span_end};
ghost use Rattle.day_rules.specs.Spans.{spans_end};
ghost use Rattle.goings.specs.Rows.{goings_in};
ghost use Rattle.instants.specs.Goings.{goings_of, gone_on};

use day_lines::{Event, Ran};
use day_window::put_within;
use goings::{Going, going_in, store_going};
use instants::Seen;
use units::limits::CORES;
use units::refusal::Reason;
use units::ticks::Ticks;

// An arrival refused by any number; nothing where that is 0.
pub fn put_arrival_numbered(
    out: &mut [u8],
    skip: usize,
    at: usize,
    no: u32,
    arrival: usize,
    task: usize,
    time: Ticks,
) -> usize
    requires { at + 180 ≤ place_limit }
    ensures windowed { Windowed out.old skip at (events_text (cond (eqb no 0) [] (Refused no arrival task time ∷ []))) out.new result }
    ensures upper_bound { result ≤ at + 180 }
{
    if no == 0 {
        return at;
    }
    put_within(out, skip, at, Event::Refused(no, arrival, task, time))
}

// A refused arrival; nothing where it is taken.
#[tactic(auto, using(day_window::proofs::Windows::none))]
pub fn put_arrival(
    out: &mut [u8],
    skip: usize,
    at: usize,
    taken: Result<(), Reason>,
    arrival: usize,
    task: usize,
    time: Ticks,
) -> usize
    requires { at + 180 ≤ place_limit }
    ensures windowed { Windowed out.old skip at (events_text (cond (eqb (no taken) 0) [] (Refused (no taken) arrival task time ∷ []))) out.new result }
    ensures upper_bound { result ≤ at + 180 }
{
    match taken {
        Ok(()) => at,
        Err(reason) => put_arrival_numbered(out, skip, at, reason.number(), arrival, task, time),
    }
}

// The span that ends on a core, from 0, where another run has it now.
#[tactic(auto, using(day_window::proofs::Windows::none, day_window::proofs::Saying::alone))]
fn put_span(
    out: &mut [u8],
    skip: usize,
    at: usize,
    core: usize,
    old: Going,
    new: Going,
    time: Ticks,
) -> usize
    requires { (at + 180 ≤ place_limit) × (core < cores_limit) }
    ensures windowed { Windowed out.old skip at (events_text (span_end core old new.task new.run time.0)) out.new result }
    ensures upper_bound { result ≤ at + 180 }
{
    if old.is_run(new.task, new.run) || old.task == 0 {
        return at;
    }
    let ran = Ran {
        core: core + 1,
        task: old.task,
        run: old.run,
    };
    put_within(out, skip, at, Event::Spanned(ran, old.from, time))
}

// Those of all cores, by rising core, where the choices have the cores from now on.
pub fn put_spans(
    out: &mut [u8],
    skip: usize,
    at: usize,
    goings: &mut [u64],
    seen: [Seen; CORES],
    cores: usize,
    time: Ticks,
) -> usize
    requires { (at + 180 * cores_limit ≤ place_limit) × (cores ≤ cores_limit) × (length goings.old ≡ 3 * cores_limit) }
    ensures fact { let gs = goings_in goings.old in
        Windowed out.old skip at (events_text (spans_end gs (goings_of gs seen time.0 cores) time.0 cores)) out.new result }
    ensures upper_bound { result ≤ at + 180 * cores }
    ensures goings_after { goings.new ≡ gone_on goings.old seen time.0 cores }
{
    let mut end = at;
    for core in 0..cores {
        let old = going_in(goings, core);
        let new = old.then(seen[core].task, seen[core].run, time);
        end = put_span(out, skip, end, core, old, new, time);
        store_going(goings, core, new);
    }
    end
}
