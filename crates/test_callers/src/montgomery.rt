//! Callers of `Montgomery`.

ghost use Rattle.std.specs.Prelude.{◌≡◌};

use modular_monty::montgomery::Montgomery;
use modular_reduced::reducer::Reducer;

/// The reducer of 20.
pub fn ring_of_20() -> Montgomery<u8>
    ensures { ⟦<Montgomery<u8> as Reducer<u8>>⟧.modulus result ≡ 20 }
{
    Montgomery::<u8>::new(20)
}
