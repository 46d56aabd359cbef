// The call player: a table's text and calls on standard input, a line for each call on standard output.
#![tactic(auto)]

use calls_text::INPUT;
use player::play::{ANSWERS, play};
use streams::answer_input;

// One byte more than an input may have, so that a longer one is seen as such.
const TEXT: usize = INPUT + 1;

fn main(rt: HostRuntime) {
    answer_input::<TEXT, ANSWERS, _, _>(&rt, play);
}
