// A lent list of numbers.
#![tactic(auto)]

ghost use Rattle.std.specs.Prelude.{◌≡◌, set};

// Stores a number, of whatever width, where the list reaches.
pub fn store<T: Copy>(numbers: &mut [T], at: usize, x: T)
    ensures { numbers.new ≡ set numbers.old at x }
{
    if at < numbers.len() {
        numbers[at] = x;
    }
}
