// What a rehearsal says, a line each.
#![tactic(auto)]

ghost use Rattle.std.specs.Prelude.{◌+◌, ◌≤◌, length};
ghost use Rattle.writing.specs.Inner.{place_limit};
ghost use Rattle.writing.specs.Wrote.{Wrote};
ghost use Rattle.day_lines.specs.Lines.{ran_after, finish_text, refused_text, span_text, stop_text, left_text, unfinished_text, event_text};

use units::ticks::Ticks;
use writing::{NEWLINE, put_byte, put_field, put_signed, put_text};

// A run on a core: its task's number and its own, each from 1.
#[derive(Clone, Copy)]
pub struct Ran {
    pub core: usize,
    pub task: usize,
    pub run: u64,
}

// A run finished at an instant, so late; an arrival refused by a number, of a task at an instant; a run had a core from one instant to another;
// the stop; a run that is unfinished then, with its deadline, the ticks it has had and its length.
#[derive(Clone, Copy)]
pub enum Event {
    Finished(Ran, Ticks, i64),
    Refused(u32, usize, usize, Ticks),
    Spanned(Ran, Ticks, Ticks),
    Stopped(Ticks),
    Unfinished(Ran, Ticks, u64, u64),
}

// A run on a core, after a word.
fn put_ran(buf: &mut [u8], at: usize, word: &[u8], ran: Ran) -> usize
    requires { (at + 85 ≤ place_limit) × (length word.now ≤ 12) }
    ensures wrote { Wrote buf.old at (ran_after word.now ran) buf.new result }
    ensures upper_bound { result ≤ at + 85 }
{
    let a = put_field(buf, at, word, ran.core as u64);
    let b = put_field(buf, a, b" task ", ran.task as u64);
    put_field(buf, b, b" run ", ran.run)
}

// A finish.
fn put_finish(buf: &mut [u8], at: usize, ran: Ran, time: Ticks, late: i64) -> usize
    requires { at + 160 ≤ place_limit }
    ensures wrote { Wrote buf.old at (finish_text ran time.0 late) buf.new result }
    ensures upper_bound { result ≤ at + 160 }
{
    let a = put_ran(buf, at, b"finish core ", ran);
    let b = put_field(buf, a, b" at ", time.0);
    let c = put_text(buf, b, b" late ");
    let d = put_signed(buf, c, late);
    put_byte(buf, d, NEWLINE)
}

// A refused arrival.
fn put_refused(
    buf: &mut [u8],
    at: usize,
    no: u32,
    arrival: usize,
    task: usize,
    time: Ticks,
) -> usize
    requires { at + 160 ≤ place_limit }
    ensures wrote { Wrote buf.old at (refused_text no arrival task time.0) buf.new result }
    ensures upper_bound { result ≤ at + 160 }
{
    let a = put_field(buf, at, b"refused ", no as u64);
    let b = put_field(buf, a, b" arrival ", arrival as u64);
    let c = put_field(buf, b, b" task ", task as u64);
    let d = put_field(buf, c, b" at ", time.0);
    put_byte(buf, d, NEWLINE)
}

// A span.
fn put_span(buf: &mut [u8], at: usize, ran: Ran, from: Ticks, to: Ticks) -> usize
    requires { at + 160 ≤ place_limit }
    ensures wrote { Wrote buf.old at (span_text ran from.0 to.0) buf.new result }
    ensures upper_bound { result ≤ at + 160 }
{
    let a = put_ran(buf, at, b"span core ", ran);
    let b = put_field(buf, a, b" from ", from.0);
    let c = put_field(buf, b, b" to ", to.0);
    put_byte(buf, c, NEWLINE)
}

// The stop.
fn put_stop(buf: &mut [u8], at: usize, time: Ticks) -> usize
    requires { at + 160 ≤ place_limit }
    ensures wrote { Wrote buf.old at (stop_text time.0) buf.new result }
    ensures upper_bound { result ≤ at + 160 }
{
    let a = put_field(buf, at, b"stop ", time.0);
    put_byte(buf, a, NEWLINE)
}

// An unfinished run: its task and number, its core and deadline.
fn put_left(buf: &mut [u8], at: usize, ran: Ran, deadline: Ticks) -> usize
    requires { at + 122 ≤ place_limit }
    ensures wrote { Wrote buf.old at (left_text ran deadline.0) buf.new result }
    ensures upper_bound { result ≤ at + 122 }
{
    let a = put_field(buf, at, b"unfinished task ", ran.task as u64);
    let b = put_field(buf, a, b" run ", ran.run);
    let c = put_field(buf, b, b" core ", ran.core as u64);
    put_field(buf, c, b" deadline ", deadline.0)
}

// And the ticks it has had, of its length.
fn put_unfinished(buf: &mut [u8], at: usize, ran: Ran, deadline: Ticks, had: u64, all: u64) -> usize
    requires { at + 180 ≤ place_limit }
    ensures wrote { Wrote buf.old at (unfinished_text ran deadline.0 had all) buf.new result }
    ensures upper_bound { result ≤ at + 180 }
{
    let a = put_left(buf, at, ran, deadline);
    let b = put_field(buf, a, b" had ", had);
    let c = put_field(buf, b, b" of ", all);
    put_byte(buf, c, NEWLINE)
}

// An event's line.
#[tactic(auto, unfolding(crate::specs::Lines::event_text))]
pub fn put_event(buf: &mut [u8], at: usize, event: Event) -> usize
    requires { at + 180 ≤ place_limit }
    ensures wrote { Wrote buf.old at (event_text event) buf.new result }
    ensures upper_bound { result ≤ at + 180 }
{
    match event {
        Event::Finished(ran, time, late) => put_finish(buf, at, ran, time, late),
        Event::Refused(no, arrival, task, time) => put_refused(buf, at, no, arrival, task, time),
        Event::Spanned(ran, from, to) => put_span(buf, at, ran, from, to),
        Event::Stopped(time) => put_stop(buf, at, time),
        Event::Unfinished(ran, deadline, had, all) => put_unfinished(
            buf, at, ran, deadline, had, all,
        ),
    }
}
