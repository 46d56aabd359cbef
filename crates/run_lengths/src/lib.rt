// What a rehearsal keeps of a task beside its state: its unfinished runs' lengths, and how many runs have ended.
#![tactic(auto)]

ghost use Rattle.std.specs.Prelude.{◌≡◌, ◌<◌};
ghost use Rattle.units.specs.Limits.{runs_limit, clock_limit};
ghost use Rattle.run_lengths.specs.Work.{with_length, without_length};

use units::limits::RUNS;

// The lengths of a task's unfinished runs, oldest first, 0 past them, and how many of its runs have ended.
#[derive(Clone, Copy)]
pub struct Work {
    pub lengths: [u64; RUNS],
    pub ended: u64,
}

impl Work {
    pub const FRESH: Work = Work {
        lengths: [0; RUNS],
        ended: 0,
    };

    // One run more, at its place among the unfinished ones.
    pub fn with_run(self, at: usize, length: u64) -> Work
        requires { at < runs_limit }
        ensures { result ≡ with_length self at length }
    {
        let mut work = self;
        work.lengths[at] = length;
        work
    }

    // Without the oldest run: the others move up.
    pub fn without_run(self) -> Work
        requires { self.ended < clock_limit }
        ensures { result ≡ without_length self }
    {
        let mut lengths = self.lengths;
        lengths[0] = 0;
        lengths.rotate_left(1);
        Work {
            lengths,
            ended: self.ended + 1,
        }
    }
}
