// Division rounded up.
ghost use Rattle.std.specs.Prelude.{◌≡◌};
ghost use Rattle.arith.specs.Ceiling.{ceil_div};

// a / b rounded up, 0 where b is 0.
pub fn ceil_div(a: u64, b: u64) -> u64
    ensures { result ≡ ceil_div a b }
{
    if b == 0 { 0 } else { a.div_ceil(b) }
}
