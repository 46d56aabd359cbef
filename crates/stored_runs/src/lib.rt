// A stored run, and its rules of soundness.
#![tactic(auto)]

ghost use Rattle.std.specs.Prelude.{◌≡◌, ◌&&◌, ltb, leb};
ghost use Rattle.units.specs.Limits.{cores_limit};
ghost use Rattle.stored_runs.specs.Run.{run_empty};

use units::limits::CORES;
use units::share::Share;
use units::ticks::Ticks;

// A run that is not finished: its core, from 1, and its deadline; 0 and 0 for none.
#[derive(Clone, Copy)]
pub struct Run {
    pub core: usize,
    pub deadline: Ticks,
}

impl Run {
    // Its core is from 1 to 16.
    pub fn placed(self) -> bool
        ensures { result ≡ (ltb 0 self.core && leb self.core cores_limit) }
    {
        (0 < self.core) & (self.core <= CORES)
    }

    // Its task has a share on its core, and its deadline is at most the latest.
    pub fn sound(self, share: Share, latest: u64) -> bool
        ensures { result ≡ (ltb 0 share.0 && leb self.deadline.0 latest) }
    {
        (0 < share.0) & (self.deadline.0 <= latest)
    }

    // All numbers are 0. `==` with an empty run would be no plainer: it asks for the equality of `Ticks` too.
    pub fn empty(self) -> bool
        ensures { result ≡ run_empty self }
    {
        (self.core == 0) & (self.deadline.0 == 0)
    }
}
