// The dispatcher for the host, on a record that it lends: planning, release, finish, look and the listing.
// A start stores in place; the others load, make one call by value and store.
ghost use Rattle.std.specs.Prelude.{◌≡◌, ◌≤◌, length};
ghost use Rattle.dispatch.specs.Release.{release_or};
ghost use Rattle.dispatch.specs.Finish.{finish_or};
ghost use Rattle.dispatch.specs.Look.{look_or};
ghost use Rattle.listing.specs.Listed.{listing_limit, listing_told, listed_of, buffer_after};
ghost use Rattle.host.specs.Dispatcher.{start_or, list_or};

use crate::bytes::table_of;
use core_choice::Told;
use dispatch::{After, Record};
use listing::listed::list;
use units::refusal::Refusal;
use units::ticks::Ticks;

// The fresh record of a byte table, stored where the record stands; or the refusal, and the record as it was.
#[tactic(auto, using(crate::proofs::Held::part_within))]
fn start(held: &mut Record, cores: u32, table: &[u8]) -> u32
    ensures { let a = start_or held.old cores table.now in
        (result ≡ a.refusal) × (held.new ≡ a.next) }
{
    let read = table_of(table);
    match Record::fresh(cores, &read.numbers[..read.count]) {
        Ok(fresh) => {
            *held = fresh;
            0
        }
        Err(refusal) => refusal.reason.number(),
    }
}

// Plans a byte table: 0 and the fresh record, or the refusal.
pub fn yagomila_start(held: &mut Record, cores: u32, table: &[u8]) -> u32
    ensures { let a = start_or held.old cores table.now in
        (result ≡ a.refusal) × (held.new ≡ a.next) }
{
    start(held, cores, table)
}

// A release at a time in plain ticks, as C hands it: 0 with the run's core and deadline, or the refusal.
pub fn yagomila_release(
    held: &mut Record,
    task: usize,
    time: u64,
    core: &mut usize,
    deadline: &mut Ticks,
) -> u32
    ensures { let a = release_or held.old task time core.old deadline.old in
        (result ≡ a.refusal) × (held.new ≡ a.next) × (core.new ≡ a.core) × (deadline.new ≡ a.deadline) }
{
    let After { answer, next } = (*held).release(task, Ticks(time));
    *held = next;
    match answer {
        Ok(run) => {
            *core = run.core;
            *deadline = run.deadline;
            0
        }
        Err(reason) => reason.number(),
    }
}

// A finish: 0 with the time less the deadline, or the refusal.
pub fn yagomila_finish(held: &mut Record, task: usize, time: u64, late: &mut i64) -> u32
    ensures { let a = finish_or held.old task time late.old in
        (result ≡ a.refusal) × (held.new ≡ a.next) × (late.new ≡ a.late) }
{
    let After { answer, next } = (*held).finish(task, Ticks(time));
    *held = next;
    match answer {
        Ok(ticks) => {
            *late = ticks;
            0
        }
        Err(reason) => reason.number(),
    }
}

// A look: 0 with the core's choice in numbers, or the refusal.
pub fn yagomila_look(held: &mut Record, core: usize, time: u64, choice: &mut Told) -> u32
    ensures { let a = look_or held.old core time choice.old in
        (result ≡ a.refusal) × (held.new ≡ a.next) × (choice.new ≡ a.told) }
{
    let After { answer, next } = (*held).look_in_numbers(core, Ticks(time));
    *held = next;
    match answer {
        Ok(told) => {
            *choice = told;
            0
        }
        Err(reason) => reason.number(),
    }
}

// The listing of a record that is handed on by value, whose lines show that the length is short.
fn listed(held: Record, buf: &mut [u8]) -> Result<usize, Refusal>
    ensures value { listing_told result ≡ listed_of held (length buf.old) }
    ensures buf_after { buf.new ≡ buffer_after held buf.old }
    ensures short { (listing_told result).length ≤ listing_limit }
{
    list(held, buf)
}

// The record's listing: 0 with its length in bytes, or the refusal.
pub fn yagomila_list(held: &Record, buf: &mut [u8], len: &mut i64) -> u32
    ensures { let a = list_or held.now buf.old len.old in
        (result ≡ a.refusal) × (buf.new ≡ buffer_after held.now buf.old) × (len.new ≡ a.len) }
{
    match listed(*held, buf) {
        Ok(length) => {
            *len = length as i64;
            0
        }
        Err(refused) => refused.reason.number(),
    }
}
