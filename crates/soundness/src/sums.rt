// What the tasks put on each core, summed up task by task.
ghost use Rattle.std.specs.Prelude.{◌≡◌, true, false, ◌≤◌};
ghost use Rattle.units.specs.Limits.{common_limit};
ghost use Rattle.units.specs.Units.{nums};
ghost use Rattle.lists.specs.Lists.{total};
ghost use Rattle.task_shares.specs.Movers.{moves};
ghost use Rattle.planning.specs.Plan.{row_of};
ghost use Rattle.soundness.specs.Inner.{AtMostAllTasks, OneMore};

use planning::Line;
use task_shares::rows::{first_core, parts_of};
use task_shares::standing::moves_by;
use units::limits::CORES;
use units::share::Share;

// Of each core: its load, the weight of its heaviest fixed task, its movers, those whose first core it is, the weight of the heaviest mover.
// Five arrays and not one of structs: that leaves the vector registers, 300 of 2,780 ns of a call (docs/PROVING.md).
#[derive(Clone, Copy)]
pub(crate) struct Sums {
    pub(crate) loads: [Share; CORES],
    pub(crate) fixed: [Share; CORES],
    pub(crate) movers: [u32; CORES],
    pub(crate) firsts: [u32; CORES],
    pub(crate) heaviest: [Share; CORES],
}

impl Sums {
    // Of no task.
    pub(crate) const NONE: Sums = Sums {
        loads: [Share::EMPTY; CORES],
        fixed: [Share::EMPTY; CORES],
        movers: [0; CORES],
        firsts: [0; CORES],
        heaviest: [Share::EMPTY; CORES],
    };

    // With one fixed task more: its one share is its weight.
    fn with_fixed(self, shares: [Share; CORES]) -> Sums
        requires { AtMostAllTasks self × (total (nums shares) ≤ common_limit) × (moves (nums shares) ≡ false) }
        ensures { OneMore (nums shares) self result }
    {
        let mut sums = self;
        for p in 0..CORES {
            let share = shares[p].0;
            sums.loads[p] = Share(sums.loads[p].0 + share);
            sums.fixed[p] = Share(sums.fixed[p].0.max(share));
        }
        sums
    }

    // With one mover more.
    fn with_mover(self, shares: [Share; CORES], weight: Share) -> Sums
        requires { AtMostAllTasks self × (total (nums shares) ≡ weight.0) × (weight.0 ≤ common_limit) × (moves (nums shares) ≡ true) }
        ensures { OneMore (nums shares) self result }
    {
        let mut sums = self;
        sums.firsts[first_core(shares)] += 1;
        for p in 0..CORES {
            let share = shares[p].0;
            sums.loads[p] = Share(sums.loads[p].0 + share);
            if 0 < share {
                sums.movers[p] += 1;
                sums.heaviest[p] = Share(sums.heaviest[p].0.max(weight.0));
            }
        }
        sums
    }

    // With one task more, whose shares sum to its weight.
    pub(crate) fn with_line(self, line: Line) -> Sums
        requires { AtMostAllTasks self × (total (row_of line) ≡ line.weight.0) × (line.weight.0 ≤ common_limit) }
        ensures { OneMore (row_of line) self result }
    {
        let shares = line.shares;
        if moves_by(parts_of(shares)) {
            return self.with_mover(shares, line.weight);
        }
        self.with_fixed(shares)
    }
}
