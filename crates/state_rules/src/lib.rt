// The rules of soundness for one task's state.
#![tactic(auto)]

ghost use Rattle.std.specs.Prelude.{◌≡◌, cond, ◌<◌, eqb};
ghost use Rattle.units.specs.Limits.{runs_limit};
ghost use Rattle.lists.specs.Lists.{total};
ghost use Rattle.task_state.specs.State.{run_at};
ghost use Rattle.state_rules.specs.Sound.{runs_sound, last_sound, state_sound, runs_empty, state_empty};

use planning::Line;
use stored_runs::Run;
use task_state::State;
use task_state::due::due_after;
use units::limits::{CLOCK, CORES, RUNS};

// The turn counts sum to this place.
fn sums_to(counts: [u32; CORES], place: u32) -> bool
    ensures { result ≡ eqb (total counts) place }
{
    counts.iter().map(|n| *n as u64).sum::<u64>() == place as u64
}

// A stored run, from 0. The state is lent: who receives it copies it.
fn run_of(state: &State, k: usize) -> Run
    requires { k < runs_limit }
    ensures { result ≡ run_at state.now k }
{
    Run {
        core: state.cores[k] as usize,
        deadline: state.deadlines[k],
    }
}

// A task has 0 to 8 unfinished runs, each sound; past them all is 0.
fn runs_sound(state: State, line: Line) -> bool
    ensures { result ≡ runs_sound line state }
{
    let live = state.live as usize;
    if RUNS < live {
        return false;
    }
    let shares = line.shares;
    let latest = CLOCK + due_after(line).0 as u64;
    for k in 0..RUNS {
        let run = run_of(&state, k);
        let fine = if k < live {
            run.placed() && run.sound(shares[run.core - 1], latest)
        } else {
            run.empty()
        };
        if !fine {
            return false;
        }
    }
    true
}

// The flag is 0 or 1; a last release is within the clock's range, and 0 where there was none.
fn last_sound(state: State) -> bool
    ensures { result ≡ last_sound state }
{
    (state.had <= 1) & (state.last.0 <= CLOCK) & ((state.had == 1) | (state.last.0 == 0))
}

// No run stands.
fn runs_empty(state: State) -> bool
    ensures { result ≡ runs_empty state }
{
    for k in 0..RUNS {
        if !run_of(&state, k).empty() {
            return false;
        }
    }
    true
}

// A task in use is sound, another is empty: both ask what the counts sum to, which is quicker before any branch.
pub fn state_ok(state: State, used: bool, line: Line) -> bool
    ensures { result ≡ cond used (state_sound line state) (state_empty state) }
{
    if !sums_to(state.counts, state.place) {
        return false;
    }
    if used {
        return (state.place < line.weight.0) & last_sound(state) & runs_sound(state, line);
    }
    (state.place == 0)
        & (state.last.0 == 0)
        & (state.had == 0)
        & (state.live == 0)
        & runs_empty(state)
}
