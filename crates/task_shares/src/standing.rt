// How a task stands on a core.
ghost use Rattle.std.specs.Prelude.{◌≡◌, ltb};
ghost use Rattle.task_shares.specs.Standing.{standing_by};

use units::share::Share;

// Without a share there, as a fixed task, as a lower or as an upper mover.
#[derive(Clone, Copy)]
pub enum Standing {
    Absent,
    Fixed,
    Lower,
    Upper,
}

// A task with so many positive shares moves.
pub fn moves_by(parts: usize) -> bool
    ensures { result ≡ ltb 1 parts }
{
    1 < parts
}

// By numbers alone, so that no row is copied: whether the task moves, its share on the core and its first core.
pub fn stands(moves: bool, share: Share, first: usize, core: usize) -> Standing
    ensures { result ≡ standing_by moves share.0 first core }
{
    if share.0 == 0 {
        Standing::Absent
    } else if !moves {
        Standing::Fixed
    } else if first == core {
        Standing::Lower
    } else {
        Standing::Upper
    }
}
