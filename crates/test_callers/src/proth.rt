//! Callers of `FixedProth`.

ghost use Rattle.std.specs.Prelude.{◌≡◌};

use modular_monty::proth::FixedProth32;
use modular_reduced::reducer::Reducer;

/// The modulus 1 * 2^31 + 1.
pub fn proth_modulus_of_31_and_1() -> u32 {
    FixedProth32::<31, 1>::fixed_modulus()
}

/// The reducer of 3 * 2^2 + 1.
pub fn proth_ring_of_13() -> FixedProth32<2, 3>
    ensures { ⟦<FixedProth32<2, 3> as Reducer<u32>>⟧.modulus result ≡ 13 }
{
    FixedProth32::<2, 3>::new(&13)
}
