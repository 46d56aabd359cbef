// What the box's host, which is written in C, calls: each is `host`'s call of the same name, and promises the same.
// They stand twice for the C interface: a crate is a library, on which `demands` stands, or a static library, which C links.
#![tactic(auto)]

ghost use Rattle.std.specs.Prelude.{◌≡◌, length};
ghost use Rattle.dispatch.specs.Release.{release_or};
ghost use Rattle.dispatch.specs.Finish.{finish_or};
ghost use Rattle.dispatch.specs.Look.{look_or};
ghost use Rattle.listing.specs.Listed.{buffer_after};
ghost use Rattle.host.specs.Host.{admit_of, host_listed, host_after};
ghost use Rattle.host.specs.Dispatcher.{start_or, list_or};

use core_choice::Told;
use dispatch::Record;
use host::dispatcher;
use units::ticks::Ticks;

// The admission number of a byte table: 0 or a refusal.
#[unsafe(no_mangle)]
pub extern "C" fn yagomila_admit(cores: u32, table: &[u8]) -> u32
    ensures { result ≡ admit_of cores table.now }
{
    host::yagomila_admit(cores, table)
}

// The listing's length, or the refusal number made negative; on a refusal no byte changes.
#[unsafe(no_mangle)]
pub extern "C" fn yagomila_listing(cores: u32, table: &[u8], buf: &mut [u8]) -> i64
    ensures value { result ≡ host_listed cores table.now (length buf.old) }
    ensures buf_after { buf.new ≡ host_after cores table.now buf.old }
{
    host::yagomila_listing(cores, table, buf)
}

// Plans a byte table: 0 and the fresh record, or the refusal.
#[unsafe(no_mangle)]
pub extern "C" fn yagomila_start(held: &mut Record, cores: u32, table: &[u8]) -> u32
    ensures { let a = start_or held.old cores table.now in
        (result ≡ a.refusal) × (held.new ≡ a.next) }
{
    dispatcher::yagomila_start(held, cores, table)
}

// A release: 0 with the run's core and deadline, or the refusal.
#[unsafe(no_mangle)]
pub extern "C" fn yagomila_release(
    held: &mut Record,
    task: usize,
    time: u64,
    core: &mut usize,
    deadline: &mut Ticks,
) -> u32
    ensures { let a = release_or held.old task time core.old deadline.old in
        (result ≡ a.refusal) × (held.new ≡ a.next) × (core.new ≡ a.core) × (deadline.new ≡ a.deadline) }
{
    dispatcher::yagomila_release(held, task, time, core, deadline)
}

// A finish: 0 with the time less the deadline, or the refusal.
#[unsafe(no_mangle)]
pub extern "C" fn yagomila_finish(held: &mut Record, task: usize, time: u64, late: &mut i64) -> u32
    ensures { let a = finish_or held.old task time late.old in
        (result ≡ a.refusal) × (held.new ≡ a.next) × (late.new ≡ a.late) }
{
    dispatcher::yagomila_finish(held, task, time, late)
}

// A look: 0 with the core's choice, or the refusal.
#[unsafe(no_mangle)]
pub extern "C" fn yagomila_look(held: &mut Record, core: usize, time: u64, choice: &mut Told) -> u32
    ensures { let a = look_or held.old core time choice.old in
        (result ≡ a.refusal) × (held.new ≡ a.next) × (choice.new ≡ a.told) }
{
    dispatcher::yagomila_look(held, core, time, choice)
}

// The record's listing: 0 with its length in bytes, or the refusal.
#[unsafe(no_mangle)]
pub extern "C" fn yagomila_list(held: &Record, buf: &mut [u8], len: &mut i64) -> u32
    ensures { let a = list_or held.now buf.old len.old in
        (result ≡ a.refusal) × (buf.new ≡ buffer_after held.now buf.old) × (len.new ≡ a.len) }
{
    dispatcher::yagomila_list(held, buf, len)
}
