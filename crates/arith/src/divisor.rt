// Greatest common divisor and least common multiple.
ghost use Rattle.std.specs.Prelude.{◌≡◌, ◌%◌};
ghost use Rattle.arith.specs.Divisor.{gcd as gcd_of, lcm as lcm_of};

// That of an odd number and another: of two odd ones the smaller is kept and taken off the larger, which leaves an even one to halve.
fn odd_gcd(odd: u32, other: u32) -> u32
    requires { odd % 2 ≡ 1 }
    ensures { result ≡ gcd_of odd other }
{
    if odd == 1 {
        return 1;
    }
    let mut kept = odd;
    let mut rest = other;
    while rest != 0 {
        if rest % 2 == 1 {
            if kept < rest {
                rest -= kept;
            } else {
                (kept, rest) = (rest, kept - rest);
            }
        }
        rest /= 2;
    }
    kept
}

// The greatest common divisor, by halving and subtracting: the second number is halved to an odd one, and each two that both have doubles the answer.
pub fn gcd(a: u32, b: u32) -> u32
    ensures { result ≡ gcd_of a b }
{
    if a == 0 {
        return b;
    }
    if b == 0 {
        return a;
    }
    let mut x = a;
    let mut y = b;
    let mut twos: u32 = 0;
    while y % 2 == 0 {
        y /= 2;
        if x % 2 == 0 {
            x /= 2;
            twos += 1;
        }
    }
    odd_gcd(y, x) << twos
}

// The least common multiple, which may need more than 32 bits; a itself where b divides it.
pub(crate) fn lcm(a: u32, b: u32) -> u64
    ensures { result ≡ lcm_of a b }
{
    if b == 0 {
        return 0;
    }
    let r = a % b;
    if r == 0 {
        return a as u64;
    }
    let g = gcd(b, r);
    (a / g) as u64 * b as u64
}
