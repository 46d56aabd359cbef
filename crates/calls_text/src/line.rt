// Reading a call's line.
ghost use Rattle.std.specs.Prelude.{◌≡◌, ℕ};
ghost use Rattle.units.specs.declared.ticks.Ticks.{Ticks as TicksOf};
ghost use Rattle.dispatch.specs.declared.call.Call.{Call as CallOf};
ghost use Rattle.calls_text.specs.Line.{numbers_at, as_call, call_line};

use dispatch::call::Call;
use scanning::line::read_pair;
use scanning::word::read_word;
use units::ticks::Ticks;

// 10^15, which each number is below.
const BOUND: u64 = 1_000_000_000_000_000;

// The numbers of a call, as the call that they make.
fn read_numbers<F: Fn(usize, Ticks) -> Call>(
    text: &[u8],
    at: usize,
    call: F,
) -> Option<(Call, usize)>
    requires { F.IsAlwaysCallable call }
    ensures { (made : ℕ → TicksOf → CallOf)
        → ((i : ℕ) (t : TicksOf) (r : CallOf) → F.post call i t r → r ≡ made i t)
        → result ≡ as_call made (numbers_at text.now at) }
{
    let (i, time, next) = read_pair(text, at, BOUND)?;
    Some((call(i as usize, Ticks(time)), next))
}

// The call's line at a place.
pub fn read_call(text: &[u8], at: usize) -> Option<(Call, usize)>
    ensures { result ≡ call_line text.now at }
{
    if let Some(next) = read_word(text, at, b"release ") {
        return read_numbers(text, next, Call::Release);
    }
    if let Some(next) = read_word(text, at, b"finish ") {
        return read_numbers(text, next, Call::Finish);
    }
    let next = read_word(text, at, b"look ")?;
    read_numbers(text, next, Call::Look)
}
