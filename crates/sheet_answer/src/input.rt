// The input of both programs.
ghost use Rattle.std.specs.Prelude.{◌≡◌};
ghost use Rattle.sheet_reading.specs.Read.{sheet_told};
ghost use Rattle.sheet_answer.specs.Input.{input_sheet};

use scanning::line::read_field;
use sheet_reading::{PlannedSheet, plan_sheet};
use units::refusal::{Reason, Refusal};
use writing::NEWLINE;

// 2^32, which M is below.
const BOUND: u64 = 4_294_967_296;

// The sheet after M's line, planned; where that line cannot be read, 16 names line 1.
pub(crate) fn read_input(text: &[u8]) -> Result<PlannedSheet, Refusal>
    ensures { sheet_told result ≡ input_sheet text.now }
{
    match read_field(text, 0, BOUND, NEWLINE) {
        Some((cores, sheet)) => plan_sheet(cores as u32, &text[sheet..]),
        None => Err(Refusal {
            reason: Reason::Text,
            named: 1,
        }),
    }
}
