// What is no table, whatever numbers it has.
ghost use Rattle.std.specs.Prelude.{◌≡◌};
ghost use Rattle.admission.specs.Refusals.{no_table};

use units::limits::TASKS;

// So many numbers are no table: none, over 64 tasks, or ending inside a task. The one test of refusal 2.
pub fn no_table(numbers: usize) -> bool
    ensures { result ≡ no_table numbers }
{
    numbers == 0 || 2 * TASKS < numbers || numbers % 2 == 1
}
