// A name at a place of a text.
ghost use Rattle.std.specs.Prelude.{◌≡◌, ◌<◌, length};
ghost use Rattle.std.specs.List.{prefix_len};
ghost use Rattle.std.specs.Char.{is_ascii_lowercase};
ghost use Rattle.scanning.specs.Lines.{unless_zero};
ghost use Rattle.names.specs.Name.{letters, name_end};

// Letters of a name, at most.
pub const LETTERS: usize = 12;

// How many small letters a text starts with.
fn letters_of(text: &[u8]) -> usize
    ensures { result ≡ prefix_len is_ascii_lowercase text.now }
{
    text.iter().take_while(|b| b.is_ascii_lowercase()).count()
}

// The place after the name at a place and the byte that has to end it, if a name stands there.
pub fn name_end(text: &[u8], at: usize, end: u8) -> Option<usize>
    requires { 0 < end }
    ensures { result ≡ unless_zero (name_end text.now end at) }
{
    let rest = text.get(at..)?;
    let count = letters_of(rest);
    if count == 0 || LETTERS < count {
        return None;
    }
    if *rest.get(count)? == end {
        Some(at + count + 1)
    } else {
        None
    }
}
