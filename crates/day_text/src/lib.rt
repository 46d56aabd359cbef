// Reading a rehearsal's input: a table's text, a line `rehearse STOP`, then a line `TIME TASK LENGTH` for each arrival.
#![tactic(auto)]

ghost use Rattle.std.specs.Prelude.{◌≡◌, [], ◌∷◌, ◌*◌, ◌≤◌, length};
ghost use Rattle.std.proofs.lemmas.List.Edits.{sets};
ghost use Rattle.table_text.specs.Text.{table_said};
ghost use Rattle.day_text.specs.Line.{stop_line};
ghost use Rattle.day_text.specs.Input.{lines_limit, arrivals_at, more_at, table_in, day_of, arrivals_said, day_answer};
ghost use Rattle.day_text.specs.Inner.{stop_answer, stop_arrivals};

use crate::line::{read_arrival, read_stop, stop_place};
use lent_numbers::store;
use table_text::{TableRead, read_text};

pub mod line;

// Arrivals of a day, at most.
pub const ARRIVALS: usize = 4_096;
// Their numbers.
pub const NUMBERS: usize = 12_288;
// Bytes of an input that decide what it says: a table's text of 4,096, the stop's line of 25 at most, 4,096 lines of 48 at most, and one more.
pub const INPUT: usize = 200_730;

// The core count, how many numbers the table has, the stop, how many the arrivals have and whether more is left.
#[derive(Clone, Copy)]
pub struct DayRead {
    pub cores: u32,
    pub count: usize,
    pub stop: u64,
    pub numbers: usize,
    pub more: bool,
}

// How many numbers were read, and whether more is left.
#[derive(Clone, Copy)]
struct Stored {
    numbers: usize,
    more: bool,
}

// Stores an arrival's numbers, the i-th from 0.
fn store_arrival(arrivals: &mut [u64], i: usize, time: u64, task: u64, length: u64)
    requires { i ≤ lines_limit }
    ensures { arrivals.new ≡ sets arrivals.old (3 * i) (time ∷ task ∷ length ∷ []) }
{
    let at = 3 * i;
    store(arrivals, at, time);
    store(arrivals, at + 1, task);
    store(arrivals, at + 2, length);
}

// Stores the numbers of the arrivals from a place on.
fn store_arrivals(text: &[u8], from: usize, arrivals: &mut [u64]) -> Stored
    ensures numbers_value { (result.numbers ≡ length (arrivals_at text.now from)) × (result.more ≡ more_at text.now from) }
    ensures arrivals_after { arrivals.new ≡ sets arrivals.old 0 (arrivals_at text.now from) }
{
    let mut at = from;
    for i in 0..ARRIVALS {
        let Some((time, task, length, next)) = read_arrival(text, at) else {
            return Stored {
                numbers: 3 * i,
                more: at < text.len(),
            };
        };
        store_arrival(arrivals, i, time, task, length);
        at = next;
    }
    Stored {
        numbers: 3 * ARRIVALS,
        more: at < text.len(),
    }
}

// The stop at a place, and the arrivals after it, of a table of so many numbers.
fn read_stopped(
    text: &[u8],
    place: usize,
    cores: u32,
    count: usize,
    arrivals: &mut [u64],
) -> Result<DayRead, usize>
    ensures value { result ≡ stop_answer text.now cores count (stop_line text.now place) }
    ensures arrivals_after { arrivals.new ≡ sets arrivals.old 0 (stop_arrivals text.now (stop_line text.now place)) }
{
    let Some((stop, at)) = read_stop(text, place) else {
        return Err(2 + count / 2);
    };
    let Stored { numbers, more } = store_arrivals(text, at, arrivals);
    Ok(DayRead {
        cores,
        count,
        stop,
        numbers,
        more,
    })
}

// What the input says, or the line that cannot be read.
// Its numbers are stored as far as the lent lists reach: the table's if its text can be read, the arrivals' if the input can.
pub fn read_day(text: &[u8], table: &mut [u32], arrivals: &mut [u64]) -> Result<DayRead, usize>
    ensures value { result ≡ day_answer (day_of text.now) }
    ensures table_after { table.new ≡ sets table.old 0 (table_said (table_in text.now)) }
    ensures arrivals_after { arrivals.new ≡ sets arrivals.old 0 (arrivals_said (day_of text.now)) }
{
    let place = stop_place(text);
    let TableRead { cores, count } = read_text(&text[..place], table)?;
    read_stopped(text, place, cores, count, arrivals)
}
