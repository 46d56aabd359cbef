// The movers of each core.
ghost use Rattle.std.specs.Prelude.{◌≡◌, ◌<◌};
ghost use Rattle.lists.specs.Lists.{parts};
ghost use Rattle.task_shares.specs.Movers.{first_core, upper};
ghost use Rattle.planning.specs.Plan.{row_of};
ghost use Rattle.lateness.specs.Inner.{mover, InFront};

use planning::Line;
use task_shares::standing::{Standing, stands};
use units::limits::CORES;
use units::share::Share;
use units::ticks::Duration;

// A mover on a core: its share there, its cost, its period and its first core.
#[derive(Clone, Copy)]
pub(crate) struct Mover {
    pub(crate) share: Share,
    pub(crate) cost: Duration,
    pub(crate) period: Duration,
    pub(crate) first: usize,
}

impl Mover {
    pub(crate) const NONE: Mover = Mover {
        share: Share::EMPTY,
        cost: Duration(0),
        period: Duration(0),
        first: CORES,
    };
}

// The upper and the lower mover of each core. Their numbers alone are kept: whole lines would be copied for each mover.
#[derive(Clone, Copy)]
pub(crate) struct Movers {
    pub(crate) upper: [Mover; CORES],
    pub(crate) lower: [Mover; CORES],
}

// A line with a share on a core as a mover there.
pub(crate) fn mover_on(share: Share, line: Line, first: usize) -> Mover
    ensures { result ≡ mover share line first }
{
    Mover {
        share,
        cost: line.cost,
        period: line.period,
        first,
    }
}

// The upper movers with one line more in front, which moves.
pub(crate) fn with_line(above: [Mover; CORES], line: Line, first: usize) -> [Mover; CORES]
    requires { (1 < parts (row_of line)) × (first ≡ first_core (row_of line)) }
    ensures { InFront (λ p. upper p (row_of line)) line above result }
{
    let mut movers = above;
    for p in 0..CORES {
        let share = line.shares[p];
        if let Standing::Upper = stands(true, share, first, p) {
            movers[p] = mover_on(share, line, first);
        }
    }
    movers
}
