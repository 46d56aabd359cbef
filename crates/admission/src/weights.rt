// The weights of a table's tasks.
ghost use Rattle.std.specs.Prelude.{◌≡◌, ◌≤◌, ◌<◌};
ghost use Rattle.std.specs.Int.{◌∣◌};
ghost use Rattle.lists.specs.Lists.{total as sum_of};
ghost use Rattle.units.specs.Units.{nums};
ghost use Rattle.admission.specs.Weight.{weight, weights as weights_of, padded};
ghost use Rattle.admission.specs.Inner.{Weighable};

use units::limits::TASKS;
use units::share::Share;

// Each task's weight, and their sum.
#[derive(Clone, Copy)]
pub(crate) struct Weighed {
    pub(crate) weights: [Share; TASKS],
    pub(crate) sum: Share,
}

// C × L / T: the period divides L, so no product needs more than 32 bits.
fn weight_of(common: u32, cost: u32, period: u32) -> Share
    requires { (0 < period) × (cost ≤ period) × (period ∣ common) }
    ensures { (result.0 ≡ weight common cost period) × (result.0 ≤ common) }
{
    Share(common / period * cost)
}

pub(crate) fn weigh(table: &[u32], common: u32) -> Weighed
    requires { Weighable common table.now }
    ensures { (nums result.weights ≡ padded (weights_of common table.now)) × (result.sum.0 ≡ sum_of (weights_of common table.now)) }
{
    let n = table.len() / 2;
    let mut weights = [Share::EMPTY; TASKS];
    let mut sum = Share::EMPTY;
    for k in 0..n {
        let w = weight_of(common, table[2 * k], table[2 * k + 1]);
        weights[k] = w;
        sum = Share(sum.0 + w.0);
    }
    Weighed { weights, sum }
}
