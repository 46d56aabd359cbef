// Reading a word.
ghost use Rattle.std.specs.Prelude.{◌≡◌};
ghost use Rattle.scanning.specs.Word.{word_at};

// The place after a word, if it stands at a place of the text.
pub fn read_word(text: &[u8], at: usize, word: &[u8]) -> Option<usize>
    ensures { result ≡ word_at word.now text.now at }
{
    let rest = text.get(at..).unwrap_or(&[]);
    if rest.starts_with(word) {
        Some(at + word.len())
    } else {
        None
    }
}
