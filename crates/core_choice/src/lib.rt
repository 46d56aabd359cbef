// Who goes first on a core: the better of two tasks, and the choice that the best one is.
#![tactic(auto)]

ghost use Rattle.std.specs.Prelude.{◌≡◌, ◌+◌, ◌<◌, ◌≤◌};
ghost use Rattle.units.specs.Limits.{cores_limit, period_limit, clock_limit};
ghost use Rattle.task_state.specs.Key.{deadline_of};
ghost use Rattle.core_choice.specs.Choice.{better_task, choice_by};
ghost use Rattle.core_choice.specs.Told.{told_of, choice_told};
ghost use Rattle.core_choice.specs.Inner.{kind_by};

use planning::Line;
use task_state::State;
use units::ticks::Ticks;

// Where a mover stands on a core: lower on its first core, upper on any other.
#[derive(Clone, Copy)]
pub enum Side {
    Upper,
    Lower,
}

// A core's choice: idle, a fixed task with its deadline, or a mover with its deadline and side.
#[derive(Clone, Copy)]
pub enum Choice {
    Idle,
    Fixed(usize, Ticks),
    Mover(usize, Ticks, Side),
}

// A choice in numbers: its kind (0 idle, 1 fixed, 2 lower, 3 upper), its task from 1 and its deadline; 0 and 0 where it is idle.
#[repr(C)]
#[derive(Clone, Copy)]
pub struct Told {
    pub kind: u64,
    pub task: usize,
    pub deadline: Ticks,
}

impl Told {
    pub const IDLE: Told = Told {
        kind: 0,
        task: 0,
        deadline: Ticks(0),
    };

    // The choice that the numbers tell. A method, not `From`: it is public, and keeps its contract and its law (`Settled`).
    pub fn choice(self) -> Choice
        ensures { result ≡ choice_told self }
    {
        match self.kind {
            0 => Choice::Idle,
            1 => Choice::Fixed(self.task, self.deadline),
            2 => Choice::Mover(self.task, self.deadline, Side::Lower),
            _ => Choice::Mover(self.task, self.deadline, Side::Upper),
        }
    }
}

// The best task so far, from 1 (0: none), and its key.
#[derive(Clone, Copy)]
pub struct Best {
    pub task: usize,
    pub key: u64,
}

// The better of the best task so far and another, from 1, at a time.
pub fn better_task(
    best: Best,
    task: usize,
    line: Line,
    state: State,
    core: usize,
    time: Ticks,
) -> Best
    requires { (0 < core) × (core ≤ cores_limit) × (deadline_of state ≤ clock_limit + period_limit) × (time.0 ≤ clock_limit) }
    ensures { result ≡ better_task best task line state core time.0 }
{
    if !state.waits(line, core, time) {
        return best;
    }
    let key = state.key(line, core);
    if (best.task == 0) | (key < best.key) {
        return Best { task, key };
    }
    best
}

// A choice's kind, by its task's key.
fn kind_of(key: u64) -> u64
    ensures { result ≡ kind_by key }
{
    match key {
        0 => 3,
        1 => 2,
        _ => 1,
    }
}

impl Best {
    // The choice that it is, by its state, in numbers.
    pub fn told(self, state: State) -> Told
        requires { 0 < self.task }
        ensures { result ≡ told_of (choice_by self (deadline_of state)) }
    {
        Told {
            kind: kind_of(self.key),
            task: self.task,
            deadline: state.deadlines[0],
        }
    }
}
