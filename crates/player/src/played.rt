// Playing calls: each is made on the record that the one before handed on.
ghost use Rattle.std.specs.Prelude.{◌≤◌, length};
ghost use Rattle.writing.specs.Wrote.{Wrote};
ghost use Rattle.calls_text.specs.Input.{input_limit, calls_from};
ghost use Rattle.player.specs.Played.{answers_limit, answers_text};

use crate::answers::put_answer;
use calls_text::line::read_call;
use dispatch::Record;

// The calls from a place on.
pub(crate) fn play_calls(text: &[u8], from: usize, first: Record, buf: &mut [u8]) -> usize
    requires { length text.now ≤ input_limit }
    ensures wrote { Wrote buf.old 0 (answers_text first (calls_from (length text.now) text.now from)) buf.new result }
    ensures upper_bound { result ≤ answers_limit }
{
    let mut held = first;
    let mut at = from;
    let mut end = 0;
    while let Some((call, next)) = read_call(text, at) {
        let answered = held.call(call);
        end = put_answer(buf, end, answered.answer);
        held = answered.next;
        at = next;
    }
    end
}
