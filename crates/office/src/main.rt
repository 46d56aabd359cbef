// The office's writer: a table's text and its names on standard input, the sheet or the refusal on standard output.
#![tactic(auto)]

use office_answer::{ANSWER, answer};
use streams::answer_input;

// 4,096 bytes of a table's text, 14 of the line `names 1000000`, 1,023 names of 13, and one more: what is longer is refused by 16, 19 or 17 whatever follows.
const TEXT: usize = 17_410;

fn main(rt: HostRuntime) {
    answer_input::<TEXT, ANSWER, _, _>(&rt, answer);
}
