// Which core a run goes to: a one-processor Pfair rule.
#![tactic(auto)]

ghost use Rattle.std.specs.Prelude.{◌≤◌, ◌<◌, ◌≡◌};
ghost use Rattle.units.specs.Limits.{cores_limit};
ghost use Rattle.units.specs.Units.{nums};
ghost use Rattle.lists.specs.Lists.{total};
ghost use Rattle.turn.specs.Turn.{better_core, counted as counted_of, turn_of};
ghost use Rattle.turn.specs.Inner.{Turnable};

use arith::ceiling::ceil_div;
use units::limits::CORES;
use units::share::Share;

// The best core so far, from 1 (0: none, as `nobody` of specs/Turn has it), and the place by which its next run is due.
#[derive(Clone, Copy)]
pub struct Best {
    pub core: usize,
    pub due: u64,
}

// The core that the run goes to, from 1, and the counts and the place after it.
#[derive(Clone, Copy)]
pub struct Turn {
    pub core: usize,
    pub counts: [u32; CORES],
    pub place: u32,
}

// The best core when core j, of this share and count, is looked at too.
fn better_core(best: Best, j: usize, share: u32, count: u32, weight: u32, place: u32) -> Best
    ensures { result ≡ better_core weight place best j share count }
{
    let w = weight as u64;
    let s = share as u64;
    let n = count as u64;
    if s * (place as u64 + 1) <= n * w {
        return best;
    }
    let due = ceil_div((n + 1) * w, s);
    let here = Best { core: j, due };
    if best.core == 0 {
        return here;
    }
    if due < best.due { here } else { best }
}

// The core of the next run, and the counts and the place after it.
pub fn turn_of(weight: Share, place: u32, shares: [Share; CORES], counts: [u32; CORES]) -> Turn
    requires { Turnable weight.0 place (nums shares) counts }
    ensures { result ≡ turn_of weight.0 place (nums shares) counts }
{
    let w = weight.0;
    let mut best = Best { core: 0, due: 0 };
    for j in 0..CORES {
        best = better_core(best, j + 1, shares[j].0, counts[j], w, place);
    }
    counted(best.core, counts, w, place)
}

// The run is counted; after the last run of a cycle counts and place start from 0 again.
fn counted(core: usize, counts: [u32; CORES], weight: u32, place: u32) -> Turn
    requires { (0 < core) × (core ≤ cores_limit) × (place < weight) × (total counts ≡ place) }
    ensures { result ≡ counted_of weight place counts core }
{
    if place + 1 == weight {
        return Turn {
            core,
            counts: [0; CORES],
            place: 0,
        };
    }
    let mut next = counts;
    next[core - 1] += 1;
    Turn {
        core,
        counts: next,
        place: place + 1,
    }
}
