// When a task's runs are due.
ghost use Rattle.std.specs.Prelude.{◌≡◌};
ghost use Rattle.units.specs.Units.{duration};
ghost use Rattle.task_state.specs.Due.{due_after};

use planning::Line;
use units::ticks::Duration;

// How long after its release a run is due.
pub fn due_after(line: Line) -> Duration
    ensures { result ≡ duration (due_after line) }
{
    line.period
}
