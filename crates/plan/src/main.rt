// The program: a table's text on standard input, its listing or refusal on standard output.
#![tactic(auto)]

use plan_answer::{ANSWER, answer};
use streams::answer_input;
use table_text::BYTES;

// One byte more than a text may have, so that a longer one is seen as such.
const TEXT: usize = BYTES + 1;

fn main(rt: HostRuntime) {
    answer_input::<TEXT, ANSWER, _, _>(&rt, answer);
}
