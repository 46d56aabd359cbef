// One task of a rehearsal: its state and its runs' lengths, with a run more and without the oldest.
#![tactic(auto)]

ghost use Rattle.std.specs.Prelude.{◌≡◌};
ghost use Rattle.seats.specs.Seat.{arrival_told, arrived_of, ended_of};
ghost use Rattle.seats.specs.Inner.{Arrivable, Endable};

use fronts::{Front, front_of};
use planning::Line;
use run_lengths::Work;
use task_state::State;
use units::refusal::Reason;
use units::ticks::Ticks;

// A task's state, and its runs' lengths.
#[derive(Clone, Copy)]
pub struct Seat {
    pub state: State,
    pub work: Work,
}

impl Seat {
    pub const FRESH: Seat = Seat {
        state: State::FRESH,
        work: Work::FRESH,
    };
}

// Whether an arrival is taken; the task after it, and its front.
#[derive(Clone, Copy)]
pub struct Arrived {
    pub taken: Result<(), Reason>,
    pub seat: Seat,
    pub front: Front,
}

// An ended run's lateness; the task after it, and its front.
#[derive(Clone, Copy)]
pub struct Ended {
    pub late: i64,
    pub seat: Seat,
    pub front: Front,
}

impl Seat {
    // A run of a length arrives.
    #[tactic(auto, unfolding(crate::specs::Seat::arrived_of, task_state::specs::Runs::taken_run))]
    pub fn arrive(self, line: Line, time: Ticks, length: u64) -> Arrived
        requires { Arrivable line self.state self.work time.0 length }
        ensures { arrival_told result ≡ arrived_of line self.state self.work time.0 length }
    {
        let Seat { state, work } = self;
        let taken = state.release_tests(line, time);
        if taken.is_err() {
            return Arrived {
                taken,
                seat: self,
                front: front_of(line, state, work),
            };
        }
        let after = state.with_run(line, time).state;
        let more = work.with_run(state.live as usize, length);
        Arrived {
            taken,
            seat: Seat {
                state: after,
                work: more,
            },
            front: front_of(line, after, more),
        }
    }

    // Its oldest run ends.
    #[tactic(auto, unfolding(crate::specs::Seat::ended_of))]
    pub fn end(self, line: Line, time: Ticks) -> Ended
        requires { Endable line self.state self.work time.0 }
        ensures { result ≡ ended_of line self.state self.work time.0 }
    {
        let Seat { state, work } = self;
        let late = time.0 as i64 - state.deadlines[0].0 as i64;
        let after = state.without_run();
        let less = work.without_run();
        Ended {
            late,
            seat: Seat {
                state: after,
                work: less,
            },
            front: front_of(line, after, less),
        }
    }
}
