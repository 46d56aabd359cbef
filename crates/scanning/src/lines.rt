// Looking for the first line that cannot be read.
ghost use Rattle.std.specs.Prelude.{◌<◌, ◌+◌, ℕ, Some};
ghost use Rattle.scanning.specs.Inner.{TellsFirst};

// The first unreadable one of the lines from a place on, if there is one, by the number that the first of them is given; `read` answers the place after a line.
pub fn first_unreadable<F: Fn(usize) -> Option<usize>>(
    from: usize,
    end: usize,
    start: usize,
    read: F,
) -> Option<usize>
    requires callable { F.IsAlwaysCallable read }
    requires ahead { (at after : ℕ) → F.post read at (Some after) → at < after }
    requires room { end + start < 18446744073709551616 }
    ensures { TellsFirst (F.post read) from end start result }
{
    let mut at = from;
    let mut line = start;
    while at < end {
        let Some(after) = read(at) else {
            return Some(line);
        };
        at = after;
        line += 1;
    }
    None
}
