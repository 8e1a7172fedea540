//! Callers of `FixedTrinomialSolinas`.

ghost use Rattle.std.specs.Prelude.{◌≡◌};

use modular_folds::solinas::FixedTrinomialSolinas32;
use modular_reduced::reducer::Reducer;

/// The modulus 2^5 - 2^2 + 3.
pub fn modulus_of_5_2_and_3() -> u32
    ensures { result ≡ 31 }
{
    FixedTrinomialSolinas32::<5, 2, 3>::fixed_modulus()
}

/// The reducer of the modulus 2^5 - 2^2 + 3.
pub fn ring_of_31() -> FixedTrinomialSolinas32<5, 2, 3>
    ensures { ⟦<FixedTrinomialSolinas32<5, 2, 3> as Reducer<u32>>⟧.modulus result ≡ 31 }
{
    FixedTrinomialSolinas32::<5, 2, 3>::new(&31)
}
