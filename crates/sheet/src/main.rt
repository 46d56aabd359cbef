// The program: a line with M and a sheet on standard input, the listing, the tick length and the names on standard output.
#![tactic(auto)]

use sheet_answer::INPUT;
use sheet_answer::sheet::{ANSWER, answer_sheet};
use streams::answer_input;

// One byte more than an input may have, so that a longer one is seen as such.
const TEXT: usize = INPUT + 1;

fn main(rt: HostRuntime) {
    answer_input::<TEXT, ANSWER, _, _>(&rt, answer_sheet);
}
