// Units of 1/L core: weights, shares, loads and rooms.
ghost use Rattle.std.specs.Prelude.{◌≡◌, ◌*◌, ◌-◌, min};
ghost use Rattle.units.specs.Limits.{cores_limit, common_limit};

use crate::limits::{COMMON, CORES};

#[repr(C)]
#[derive(Clone, Copy)]
pub struct Share(pub u32);

impl Share {
    // The empty share.
    pub const EMPTY: Self = Self(0);

    // The largest sum: sixteen whole cores. No list that is taken weighs more; what is refused by 6 may.
    pub const LARGEST: Self = Self(CORES as u32 * COMMON);

    pub fn largest() -> Self
        ensures { result.0 ≡ cores_limit * common_limit }
    {
        Self::LARGEST
    }

    // The smaller of two.
    pub fn smaller(self, other: Self) -> Self
        ensures { result.0 ≡ min self.0 other.0 }
    {
        Self(self.0.min(other.0))
    }

    // The rest of a core of this many units beside a load.
    pub fn rest(self, load: Self) -> Self
        ensures { result.0 ≡ self.0 - load.0 }
    {
        Self(self.0.saturating_sub(load.0))
    }
}
