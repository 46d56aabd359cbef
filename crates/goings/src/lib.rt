// The runs that have the cores, and since when.
#![tactic(auto)]

ghost use Rattle.std.specs.Prelude.{◌≡◌, ◌*◌, ◌<◌, ◌≤◌, length};
ghost use Rattle.units.specs.Limits.{cores_limit};
ghost use Rattle.goings.specs.Going.{same, going_of, ran_by};
ghost use Rattle.goings.specs.Rows.{going_at, goings_in, put_going};
ghost use Rattle.goings.specs.Inner.{Addable};

use lent_numbers::store;
use units::ticks::Ticks;

// The run that has a core, its task from 1, 0 for none, and since when.
#[derive(Clone, Copy)]
pub struct Going {
    pub task: usize,
    pub run: u64,
    pub from: Ticks,
}

impl Going {
    // It is that run of that task.
    pub fn is_run(self, task: usize, run: u64) -> bool
        ensures { result ≡ same self task run }
    {
        self.task == task && self.run == run
    }

    // It goes on where the choice is the same run, and else the choice goes from now on.
    pub fn then(self, task: usize, run: u64, time: Ticks) -> Going
        ensures { result ≡ going_of self task run time.0 }
    {
        if self.is_run(task, run) {
            return self;
        }
        Going {
            task,
            run,
            from: time,
        }
    }
}

// The run that has a core, from 0, in a lent list of three numbers a core.
pub fn going_in(goings: &[u64], core: usize) -> Going
    requires { (core < cores_limit) × (length goings.now ≡ 3 * cores_limit) }
    ensures { result ≡ going_at goings.now core }
{
    let at = 3 * core;
    Going {
        task: goings[at] as usize,
        run: goings[at + 1],
        from: Ticks(goings[at + 2]),
    }
}

// Another run has it.
pub fn store_going(goings: &mut [u64], core: usize, going: Going)
    requires { core < cores_limit }
    ensures { goings.new ≡ put_going goings.old core going }
{
    let at = 3 * core;
    store(goings, at, going.task as u64);
    store(goings, at + 1, going.run);
    store(goings, at + 2, going.from.0);
}

// The ticks that each task's oldest run has had, after so many more for the run that has each core.
#[tactic(auto, using(crate::proofs::Rows::goings_at, crate::proofs::Ran::ran_fits), unfolding(crate::specs::Going::ran_by))]
pub fn ran_by(had: &mut [u64], goings: &[u64], cores: usize, more: u64)
    requires { Addable had.old goings.now cores more }
    ensures { had.new ≡ ran_by (goings_in goings.now) more had.old cores }
{
    for core in 0..cores {
        let task = goings[3 * core] as usize;
        if 0 < task {
            had[task - 1] += more;
        }
    }
}
