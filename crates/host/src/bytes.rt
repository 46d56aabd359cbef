// A table's bytes: eight for a task, cost then period, each least byte first.
ghost use Rattle.std.specs.Prelude.{◌≡◌, ◌*◌, ◌≤◌, length};
ghost use Rattle.units.specs.Limits.{tasks_limit};
ghost use Rattle.little_endian.specs.Number.{numbers_of};
ghost use Rattle.host.specs.Inner.{filled, held_table};

use admission::table::no_table;
use little_endian::number32;
use units::limits::TASKS;

// Numbers from the front, then zeros, and how many they are.
#[derive(Clone, Copy)]
pub(crate) struct Table {
    pub(crate) numbers: [u32; 2 * TASKS],
    pub(crate) count: usize,
}

// The numbers of a table of at most 64 tasks, then zeros.
fn numbers_of(bytes: &[u8]) -> [u32; 2 * TASKS]
    requires { length bytes.now ≤ 8 * tasks_limit }
    ensures { result ≡ filled (numbers_of bytes.now) }
{
    let mut numbers = [0; 2 * TASKS];
    for k in 0..bytes.len() / 4 {
        numbers[k] = number32(bytes, 4 * k);
    }
    numbers
}

// A table's numbers; none where it ends inside a number or is none that planning takes, and planning refuses both alike.
pub(crate) fn table_of(bytes: &[u8]) -> Table
    ensures { result ≡ held_table bytes.now }
{
    let n = bytes.len();
    let out = no_table(n / 4);
    if (n % 4 != 0) | out {
        return Table {
            numbers: [0; 2 * TASKS],
            count: 0,
        };
    }
    let numbers = numbers_of(bytes);
    Table {
        numbers,
        count: n / 4,
    }
}
