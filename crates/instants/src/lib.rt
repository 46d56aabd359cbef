// The choices of all cores at an instant, in one scan of the tasks, and how long they last.
#![tactic(auto)]

ghost use Rattle.std.specs.Prelude.{◌≡◌, ◌*◌, ◌≤◌, length};
ghost use Rattle.front_rows.specs.Rows.{fronts_in};
ghost use Rattle.units.specs.Limits.{cores_limit, tasks_limit};
ghost use Rattle.units.specs.Units.{ticks};
ghost use Rattle.instants.specs.Seen.{better, seen_of, next_of, least_left};

use front_rows::front_in;
use fronts::Front;
use units::limits::CORES;
use units::ticks::Ticks;

// A core's choice: its task from 1, 0 where the core is idle, its key, its run's number and the ticks that this still has to run.
#[derive(Clone, Copy)]
pub struct Seen {
    pub task: usize,
    pub key: u64,
    pub run: u64,
    pub left: u64,
}

impl Seen {
    pub const IDLE: Seen = Seen {
        task: 0,
        key: 0,
        run: 0,
        left: 0,
    };

    // The better of the best so far and a task, from 1, whose oldest run has had so many ticks.
    fn better(self, task: usize, front: Front, had: u64) -> Seen
        ensures { result ≡ better self task front had }
    {
        if self.task == 0 || front.key < self.key {
            return Seen {
                task,
                key: front.key,
                run: front.run,
                left: front.length.saturating_sub(had),
            };
        }
        self
    }
}

// Each core's choice, and the next release time ahead or a given time before it.
#[derive(Clone, Copy)]
pub struct Instant {
    pub seen: [Seen; CORES],
    pub next: Ticks,
}

// One scan of the tasks for all cores.
#[tactic(auto, unfolding(crate::specs::Seen::seen_of, crate::specs::Seen::next_of))]
pub fn scan(fronts: &[u64], had: &[u64], count: usize, time: Ticks, until: Ticks) -> Instant
    requires { (count ≤ tasks_limit) × (length fronts.now ≡ 7 * tasks_limit) × (length had.now ≡ tasks_limit) }
    ensures seen_value { result.seen ≡ seen_of (fronts_in fronts.now) had.now time.0 count }
    ensures next_value { result.next ≡ ticks (next_of (fronts_in fronts.now) time.0 until.0 count) }
{
    let mut seen = [Seen::IDLE; CORES];
    let mut next = until;
    for i in 0..count {
        let front = front_in(fronts, i);
        if front.sees(time) {
            let k = front.core - 1;
            seen[k] = seen[k].better(i + 1, front, had[i]);
        }
        next = front.ahead(time, next);
    }
    Instant { seen, next }
}

// The least that a choice still has to run, or less where that is given.
#[tactic(auto, unfolding(crate::specs::Seen::least_left))]
pub fn least_left(seen: [Seen; CORES], cores: usize, most: u64) -> u64
    requires { cores ≤ cores_limit }
    ensures { result ≡ least_left seen most cores }
{
    let mut least = most;
    for one in &seen[..cores] {
        if 0 < one.task {
            least = least.min(one.left);
        }
    }
    least
}
