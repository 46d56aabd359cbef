// Looking for the first line of a text that starts with a word.
#![tactic(auto)]

ghost use Rattle.std.specs.Prelude.{◌≡◌, ◌<◌, ◌≤◌, length};
ghost use Rattle.line_place.specs.Place.{line_starts, line_here, line_place};

use scanning::word::read_word;
use writing::NEWLINE;

// Whether a line starts at a place.
pub fn line_starts(text: &[u8], at: usize) -> bool
    requires { at < length text.now }
    ensures { result ≡ line_starts text.now at }
{
    if at == 0 {
        return true;
    }
    let before = text[at - 1];
    before == NEWLINE
}

// Whether a line that starts with a word stands at a place.
fn line_here(text: &[u8], at: usize, word: &[u8]) -> bool
    requires { at < length text.now }
    ensures { result ≡ line_here word.now text.now at }
{
    line_starts(text, at) && read_word(text, at, word).is_some()
}

// Where the first line that starts with a word stands, and the text's end if there is none.
pub fn line_place(text: &[u8], word: &[u8]) -> usize
    ensures value { result ≡ line_place word.now text.now }
    ensures upper_bound { result ≤ length text.now }
{
    (0..text.len())
        .find(|at| line_here(text, *at, word))
        .unwrap_or(text.len())
}
