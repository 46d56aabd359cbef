// Who goes first on a core.
ghost use Rattle.std.specs.Prelude.{◌≡◌, ◌+◌, ◌<◌, ◌≤◌};
ghost use Rattle.units.specs.Limits.{cores_limit, clock_limit, period_limit};
ghost use Rattle.task_state.specs.Key.{deadline_of, waits as waits_on, key_of};

use crate::State;
use crate::due::due_after;
use planning::Line;
use release_times::held;
use task_shares::rows::{first_core, parts_of};
use task_shares::standing::{Standing, moves_by, stands};
use units::ticks::Ticks;

impl State {
    // Its oldest unfinished run is on this core, from 1, and not held.
    pub fn waits(self, line: Line, core: usize, time: Ticks) -> bool
        requires { time.0 ≤ clock_limit }
        ensures { result ≡ waits_on line self core time.0 }
    {
        let early = held(self.deadlines[0], due_after(line), time);
        (0 < self.live) & (self.cores[0] as usize == core) & !early
    }

    // The least key goes first: an upper mover, then a lower one, then fixed tasks by earliest deadline.
    pub fn key(self, line: Line, core: usize) -> u64
        requires { (0 < core) × (core ≤ cores_limit) × (deadline_of self ≤ clock_limit + period_limit) }
        ensures { result ≡ key_of line self core }
    {
        let shares = line.shares;
        let at = core - 1;
        let moves = moves_by(parts_of(shares));
        let first = first_core(shares);
        match stands(moves, shares[at], first, at) {
            Standing::Upper => 0,
            Standing::Lower => 1,
            Standing::Fixed | Standing::Absent => 2 + self.deadlines[0].0,
        }
    }
}
