// Writing a call's answer.
ghost use Rattle.std.specs.Prelude.{◌+◌, ◌≤◌, ◌++◌, length};
ghost use Rattle.writing.specs.Decimal.{decimal_of};
ghost use Rattle.writing.specs.Field.{field};
ghost use Rattle.writing.specs.Inner.{place_limit};
ghost use Rattle.writing.specs.Wrote.{Wrote};
ghost use Rattle.dispatch.specs.Calls.{call_told};
ghost use Rattle.player.specs.Answers.{mover_text, choice_text, answer_line};

use core_choice::{Choice, Side};
use dispatch::call::Answer;
use units::refusal::{Reason, Refusal};
use units::ticks::Ticks;
use writing::refused::put_refusal;
use writing::{NEWLINE, put_byte, put_field, put_signed, put_text};

// A chosen task and its deadline, after a word.
fn put_chosen(buf: &mut [u8], at: usize, word: &[u8], task: usize, deadline: Ticks) -> usize
    requires { (at + 59 ≤ place_limit) × (length word.now ≤ 6) }
    ensures wrote { Wrote buf.old at (word.now ++ decimal_of task ++ field " deadline " deadline.0) buf.new result }
    ensures upper_bound { result ≤ at + 59 }
{
    let a = put_field(buf, at, word, task as u64);
    put_field(buf, a, b" deadline ", deadline.0)
}

// A mover's side, its task and deadline.
fn put_mover(buf: &mut [u8], at: usize, side: Side, task: usize, deadline: Ticks) -> usize
    requires { at + 59 ≤ place_limit }
    ensures wrote { Wrote buf.old at (mover_text side task deadline.0) buf.new result }
    ensures upper_bound { result ≤ at + 59 }
{
    match side {
        Side::Upper => put_chosen(buf, at, b"upper ", task, deadline),
        Side::Lower => put_chosen(buf, at, b"lower ", task, deadline),
    }
}

// A core's choice.
fn put_choice(buf: &mut [u8], at: usize, choice: Choice) -> usize
    requires { at + 59 ≤ place_limit }
    ensures wrote { Wrote buf.old at (choice_text choice) buf.new result }
    ensures upper_bound { result ≤ at + 59 }
{
    match choice {
        Choice::Idle => put_text(buf, at, b"idle"),
        Choice::Fixed(task, deadline) => put_chosen(buf, at, b"fixed ", task, deadline),
        Choice::Mover(task, deadline, side) => put_mover(buf, at, side, task, deadline),
    }
}

// A call's answer, a line.
pub(crate) fn put_answer(buf: &mut [u8], at: usize, answer: Result<Answer, Reason>) -> usize
    requires { at + 60 ≤ place_limit }
    ensures wrote { Wrote buf.old at (answer_line (call_told answer)) buf.new result }
    ensures upper_bound { result ≤ at + 60 }
{
    match answer {
        Err(reason) => put_refusal(buf, at, Refusal::from(reason)),
        Ok(Answer::Released(core, deadline)) => {
            let a = put_field(buf, at, b"core ", core as u64);
            let b = put_field(buf, a, b" deadline ", deadline.0);
            put_byte(buf, b, NEWLINE)
        }
        Ok(Answer::Finished(late)) => {
            let a = put_text(buf, at, b"late ");
            let b = put_signed(buf, a, late);
            put_byte(buf, b, NEWLINE)
        }
        Ok(Answer::Looked(choice)) => {
            let a = put_choice(buf, at, choice);
            put_byte(buf, a, NEWLINE)
        }
    }
}
