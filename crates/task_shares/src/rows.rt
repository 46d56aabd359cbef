// A row of shares, one for each core: its sum, how many are positive, its first core.
ghost use Rattle.std.specs.Prelude.{◌≡◌};
ghost use Rattle.lists.specs.Lists.{total as sum_of, parts as parts_of, first_part};
ghost use Rattle.units.specs.Units.{nums};

use units::limits::CORES;
use units::share::Share;

// The sum, which may need more than 32 bits.
pub fn sum_of(shares: [Share; CORES]) -> u64
    ensures { result ≡ sum_of (nums shares) }
{
    let mut sum: u64 = 0;
    for s in shares {
        sum += s.0 as u64;
    }
    sum
}

// How many shares are positive.
pub fn parts_of(shares: [Share; CORES]) -> usize
    ensures { result ≡ parts_of (nums shares) }
{
    // A chain of filter and count takes twice the time.
    let mut parts: usize = 0;
    for s in shares {
        if 0 < s.0 {
            parts += 1;
        }
    }
    parts
}

// The lowest core with a share, CORES where there is none.
pub fn first_core(shares: [Share; CORES]) -> usize
    ensures { result ≡ first_part (nums shares) }
{
    shares.iter().position(|s| 0 < s.0).unwrap_or(CORES)
}
