// A line in a window of a longer text.
#![tactic(auto)]

ghost use Rattle.std.specs.Prelude.{◌+◌, ◌≤◌};
ghost use Rattle.writing.specs.Inner.{place_limit};
ghost use Rattle.day_lines.specs.Lines.{event_text};
ghost use Rattle.day_window.specs.Window.{Windowed};

use day_lines::{Event, put_event};
use writing::put_text;

// Bytes of a line, at most.
const LINE: usize = 180;

// A line of which what lies before the window is left out.
fn put_cut(out: &mut [u8], skipped: usize, event: Event) -> usize
    ensures windowed { Windowed out.old skipped 0 (event_text event) out.new result }
    ensures upper_bound { result ≤ 180 }
{
    let mut line = [0u8; LINE];
    let n = put_event(&mut line, 0, event);
    if skipped < n {
        put_text(out, 0, &line[skipped..n]);
    }
    n
}

// An event's line at a place of a text, of which a buffer holds what stands from another place on, as far as it reaches.
#[tactic(auto, using(crate::proofs::Windows::inside, crate::proofs::Windows::before))]
pub fn put_within(out: &mut [u8], skip: usize, at: usize, event: Event) -> usize
    requires { at + 180 ≤ place_limit }
    ensures windowed { Windowed out.old skip at (event_text event) out.new result }
    ensures upper_bound { result ≤ at + 180 }
{
    if skip <= at {
        return put_event(out, at - skip, event) + skip;
    }
    put_cut(out, skip - at, event) + at
}
