// Reading a number.
ghost use Rattle.std.specs.Prelude.{◌≡◌, ◌≤◌, ◌<◌, length, drop};
ghost use Rattle.scanning.specs.Number.{digit_of, digits_of, number_at};
ghost use Rattle.scanning.specs.Inner.{Bound};

// What a byte is as a digit, and 10 if it is none.
fn digit(b: u8) -> u64
    ensures value { result ≡ digit_of b }
    ensures upper_bound { result ≤ 10 }
{
    if b < 48 {
        return 10;
    }
    if 57 < b {
        return 10;
    }
    (b - 48) as u64
}

// The digits that follow a number's first.
fn digits(text: &[u8], from: usize, first: u64, bound: u64) -> Option<(u64, usize)>
    requires { (from ≤ length text.now) × (first < bound) × Bound bound }
    ensures { result ≡ digits_of bound (drop from text.now) first from }
{
    let mut v = first;
    for at in from..text.len() {
        let d = digit(text[at]);
        if 9 < d {
            return Some((v, at));
        }
        let w = v * 10 + d;
        if bound <= w {
            return None;
        }
        v = w;
    }
    Some((v, text.len()))
}

// The number at a place of the text, below a bound, and the place after it.
pub(crate) fn read_number(text: &[u8], at: usize, bound: u64) -> Option<(u64, usize)>
    requires { Bound bound }
    ensures { result ≡ number_at bound text.now at }
{
    if text.len() <= at {
        return None;
    }
    let d = digit(text[at]);
    if 9 < d {
        return None;
    }
    let next = at + 1;
    if d == 0 {
        return Some((0, next));
    }
    digits(text, next, d, bound)
}
