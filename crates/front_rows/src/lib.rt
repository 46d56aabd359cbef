// What an instant asks of the tasks, in a lent list of seven numbers a task: nothing of it is copied.
#![tactic(auto)]

ghost use Rattle.std.specs.Prelude.{◌≡◌, ◌*◌, ◌<◌, length};
ghost use Rattle.units.specs.Limits.{tasks_limit};
ghost use Rattle.front_rows.specs.Rows.{front_at, put_front};

use fronts::Front;
use lent_numbers::store;
use units::ticks::Ticks;

// A task's front, its task from 0.
pub fn front_in(fronts: &[u64], i: usize) -> Front
    requires { (i < tasks_limit) × (length fronts.now ≡ 7 * tasks_limit) }
    ensures { result ≡ front_at fronts.now i }
{
    let at = 7 * i;
    Front {
        core: fronts[at] as usize,
        release: Ticks(fronts[at + 1]),
        key: fronts[at + 2],
        length: fronts[at + 3],
        run: fronts[at + 4],
        last: Ticks(fronts[at + 5]),
        period: fronts[at + 6],
    }
}

// A task has another front.
pub fn store_front(fronts: &mut [u64], i: usize, front: Front)
    requires { i < tasks_limit }
    ensures { fronts.new ≡ put_front fronts.old i front }
{
    let at = 7 * i;
    store(fronts, at, front.core as u64);
    store(fronts, at + 1, front.release.0);
    store(fronts, at + 2, front.key);
    store(fronts, at + 3, front.length);
    store(fronts, at + 4, front.run);
    store(fronts, at + 5, front.last.0);
    store(fronts, at + 6, front.period);
}
