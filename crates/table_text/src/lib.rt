// Reading the program's text: a core count and a table, or the line that cannot be read.
#![tactic(auto)]

ghost use Rattle.std.specs.Prelude.{◌≡◌, length};
ghost use Rattle.std.proofs.lemmas.List.Edits.{sets};
ghost use Rattle.scanning.specs.Lines.{unless_zero};
ghost use Rattle.table_text.specs.Text.{text_of, table_from, bad_task, numbers_from, table_said, answer_of};

use lent_numbers::store;
use scanning::line::{read_field, read_pair};
use scanning::lines;
use writing::NEWLINE;

// Bytes of a text, at most.
pub const BYTES: usize = 4_096;
// Numbers of a table that any text's fit.
pub const NUMBERS: usize = 2_048;
// 2^32, which each number is below.
const BOUND: u64 = 4_294_967_296;

// The core count, and how many numbers the table has.
#[derive(Clone, Copy)]
pub struct TableRead {
    pub cores: u32,
    pub count: usize,
}

// The first unreadable line of a table that starts with the text's second line, if there is one.
fn first_unreadable(text: &[u8], from: usize) -> Option<usize>
    ensures { result ≡ unless_zero (bad_task text.now from) }
{
    lines::first_unreadable(
        from,
        text.len(),
        2,
        |at| Some(read_pair(text, at, BOUND)?.2),
    )
}

// Stores the numbers of the lines from a place on, and answers how many they are.
fn store_tasks(text: &[u8], from: usize, table: &mut [u32]) -> usize
    ensures value { result ≡ length (numbers_from (length text.now) text.now from) }
    ensures table_after { table.new ≡ sets table.old 0 (numbers_from (length text.now) text.now from) }
{
    let mut at = from;
    let mut i = 0;
    while let Some((cost, period, next)) = read_pair(text, at, BOUND) {
        store(table, 2 * i, cost as u32);
        store(table, 2 * i + 1, period as u32);
        at = next;
        i += 1;
    }
    2 * i
}

// The table, stored only if each of its lines can be read.
fn read_table(text: &[u8], cores: u32, from: usize, table: &mut [u32]) -> Result<TableRead, usize>
    ensures value { result ≡ answer_of (table_from text.now cores from) }
    ensures table_after { table.new ≡ sets table.old 0 (table_said (table_from text.now cores from)) }
{
    if let Some(line) = first_unreadable(text, from) {
        return Err(line);
    }
    let count = store_tasks(text, from, table);
    Ok(TableRead { cores, count })
}

// What the text says, or the line that cannot be read. Its numbers are stored in the table as far as that reaches; an unreadable text changes none.
pub fn read_text(text: &[u8], table: &mut [u32]) -> Result<TableRead, usize>
    ensures value { result ≡ answer_of (text_of text.now) }
    ensures table_after { table.new ≡ sets table.old 0 (table_said (text_of text.now)) }
{
    let n = text.len();
    if BYTES < n {
        return Err(0);
    }
    if n == 0 {
        return Err(0);
    }
    let Some((cores, from)) = read_field(text, 0, BOUND, NEWLINE) else {
        return Err(1);
    };
    read_table(text, cores as u32, from, table)
}
