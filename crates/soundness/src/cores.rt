// The rules for the cores, by their sums.
ghost use Rattle.std.specs.Prelude.{◌≡◌};
ghost use Rattle.units.specs.Limits.{cores_limit};
ghost use Rattle.lists.specs.Below.{all_below};
ghost use Rattle.soundness.specs.Inner.{sums_sound};

use crate::sums::Sums;
use core_rules::{core_within, few_movers, guarded, one_first};
use units::limits::CORES;

// All rules for all cores.
pub(crate) fn cores_sound(sums: Sums, cores: usize, common: u32) -> bool
    ensures { result ≡ all_below cores_limit (sums_sound cores common sums) }
{
    let mut sound = true;
    for p in 0..CORES {
        // In locals: read where they are handed on they take 3 percent more of a whole test.
        let load = sums.loads[p];
        let fixed = sums.fixed[p];
        let movers = sums.movers[p];
        let firsts = sums.firsts[p];
        let mover = sums.heaviest[p];
        sound = core_within(load, p, cores, common)
            & few_movers(movers)
            & one_first(movers, firsts)
            & guarded(mover, fixed)
            & sound;
    }
    sound
}
