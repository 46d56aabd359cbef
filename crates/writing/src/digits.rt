// Numbers of up to eight digits, two digits at a time, where there is room.
ghost use Rattle.std.specs.Prelude.{◌+◌, ◌≤◌, ◌<◌, length};
ghost use Rattle.writing.specs.Inner.{two_digits, four_digits};
ghost use Rattle.writing.specs.Decimal.{decimal_of};
ghost use Rattle.writing.specs.Wrote.{Wrote};

// Both digits of a number below 100.
fn put_two(buf: &mut [u8], at: usize, n: u32) -> usize
    requires n_bound { n < 100 }
    requires at_in_bounds { at + 2 ≤ length buf.old }
    ensures { Wrote buf.old at (two_digits n) buf.new result }
{
    let tens = b'0' + (n / 10) as u8;
    let ones = b'0' + (n % 10) as u8;
    buf[at] = tens;
    buf[at + 1] = ones;
    at + 2
}

// A number below 100.
fn put_one_or_two(buf: &mut [u8], at: usize, n: u32) -> usize
    requires n_bound { n < 100 }
    requires at_in_bounds { at + 2 ≤ length buf.old }
    ensures wrote { Wrote buf.old at (decimal_of n) buf.new result }
    ensures upper_bound { result ≤ at + 2 }
{
    if n < 10 {
        let ones = b'0' + n as u8;
        buf[at] = ones;
        return at + 1;
    }
    put_two(buf, at, n)
}

// All four digits of a number below 10,000.
fn put_four(buf: &mut [u8], at: usize, n: u32) -> usize
    requires n_bound { n < 10000 }
    requires at_in_bounds { at + 4 ≤ length buf.old }
    ensures { Wrote buf.old at (four_digits n) buf.new result }
{
    let next = put_two(buf, at, n / 100);
    put_two(buf, next, n % 100)
}

// A number below 10,000.
fn put_few(buf: &mut [u8], at: usize, n: u32) -> usize
    requires n_bound { n < 10000 }
    requires at_in_bounds { at + 4 ≤ length buf.old }
    ensures wrote { Wrote buf.old at (decimal_of n) buf.new result }
    ensures upper_bound { result ≤ at + 4 }
{
    if n < 100 {
        return put_one_or_two(buf, at, n);
    }
    let next = put_one_or_two(buf, at, n / 100);
    put_two(buf, next, n % 100)
}

// A number below 100,000,000.
pub(crate) fn put_short(buf: &mut [u8], at: usize, n: u32) -> usize
    requires n_bound { n < 100000000 }
    requires at_in_bounds { at + 8 ≤ length buf.old }
    ensures wrote { Wrote buf.old at (decimal_of n) buf.new result }
    ensures upper_bound { result ≤ at + 8 }
{
    if n < 10_000 {
        return put_few(buf, at, n);
    }
    let next = put_few(buf, at, n / 10_000);
    put_four(buf, next, n % 10_000)
}
