// The rules of soundness for one core, by its numbers.
#![tactic(auto)]

ghost use Rattle.std.specs.Prelude.{◌≡◌, ◌&&◌, ◌||◌, not, ltb, leb, eqb};

use units::share::Share;

// The load of core p is at most L, and 0 if it is not among the M cores.
pub fn core_within(load: Share, p: usize, cores: usize, common: u32) -> bool
    ensures { result ≡ (leb load.0 common && (ltb p cores || eqb load.0 0)) }
{
    (load.0 <= common) & ((p < cores) | (load.0 == 0))
}

// No more than two movers.
pub fn few_movers(movers: u32) -> bool
    ensures { result ≡ leb movers 2 }
{
    movers <= 2
}

// Of two movers it is the first core of exactly one.
pub fn one_first(movers: u32, firsts: u32) -> bool
    ensures { result ≡ (not (eqb movers 2) || eqb firsts 1) }
{
    (movers != 2) | (firsts == 1)
}

// The heaviest fixed task weighs at least as much as the heaviest mover.
pub fn guarded(mover: Share, fixed: Share) -> bool
    ensures { result ≡ leb mover.0 fixed.0 }
{
    mover.0 <= fixed.0
}
