//! Callers of `PreMulInv2by1` and `Vanilla`, proved from contracts alone; no test runs them.

ghost use Rattle.std.specs.Prelude.{◌≡◌};

use modular_barrett::premul::PreMulInv2by1;
use modular_reduced::reducer::Reducer;
use modular_reduced::vanilla::Vanilla;

/// The scaled reducer of 21.
pub fn scaled_ring_of_21() -> PreMulInv2by1<u8>
    ensures { ⟦<PreMulInv2by1<u8> as Reducer<u8>>⟧.modulus result ≡ 21 }
{
    PreMulInv2by1::<u8>::new(21)
}

/// The plain reducer of 21.
pub fn plain_ring_of_21() -> Vanilla<u8>
    ensures { ⟦<Vanilla<u8> as Reducer<u8>>⟧.modulus result ≡ 21 }
{
    Vanilla::<u8>::new(&21)
}
