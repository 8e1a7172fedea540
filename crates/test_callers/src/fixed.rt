//! Callers of `FixedMontgomery`.

ghost use Rattle.std.specs.Prelude.{◌≡◌};

use modular_monty::fixed::FixedMontgomery32;
use modular_reduced::reducer::Reducer;

/// The reducer of the parameter 21.
pub fn fixed_ring_of_21() -> FixedMontgomery32<21>
    ensures { ⟦<FixedMontgomery32<21> as Reducer<u32>>⟧.modulus result ≡ 21 }
{
    FixedMontgomery32::<21>::new(&21)
}

/// The parameter 11.
pub fn fixed_modulus_11() -> u32
    ensures { result ≡ 11 }
{
    FixedMontgomery32::<11>::fixed_modulus()
}
