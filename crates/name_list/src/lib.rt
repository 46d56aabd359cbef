// A list of names: a text, a name a line.
#![tactic(auto)]

ghost use Rattle.std.specs.Prelude.{◌≡◌, [], ◌∷◌, ◌++◌, length};
ghost use Rattle.writing.specs.Ascii.{newline};
ghost use Rattle.names.specs.Name.{letters};
ghost use Rattle.name_list.specs.Names.{among, twice, names_from, names_of, names_said};

use names::name::name_end;
use scanning::word::read_word;
use writing::NEWLINE;

// Whether the name of a line, which has its newline, is among those of the lines from a place on.
fn name_again(text: &[u8], line: &[u8], from: usize) -> bool
    requires { line.now ≡ letters line.now ++ newline ∷ [] }
    ensures { result ≡ among (letters line.now) (names_from (length text.now) text.now from) }
{
    let mut at = from;
    while let Some(next) = name_end(text, at, NEWLINE) {
        if read_word(text, at, line).is_some() {
            return true;
        }
        at = next;
    }
    false
}

// Whether a list has the same name twice.
pub fn name_twice(names: &[u8]) -> bool
    ensures { result ≡ twice (names_of names.now) }
{
    let mut at = 0;
    while let Some(next) = name_end(names, at, NEWLINE) {
        if name_again(names, &names[at..next], next) {
            return true;
        }
        at = next;
    }
    false
}

// How many names a list has, if each of its lines is one.
pub fn read_names(names: &[u8]) -> Option<usize>
    ensures { result ≡ names_said names.now }
{
    let mut at = 0;
    // Where the last name ends is asked too: a chain that counts the places is no plainer.
    let mut count = 0;
    while let Some(next) = name_end(names, at, NEWLINE) {
        at = next;
        count += 1;
    }
    if at < names.len() { None } else { Some(count) }
}
