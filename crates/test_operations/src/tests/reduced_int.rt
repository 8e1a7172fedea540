//! Callers of the operators of `ReducedInt`, generic in the reducer.

ghost use Rattle.modular_reduced.specs.Integers.{CanDivide, IsQuotient, IsReduced, modulus_of, residue_of};
ghost use Rattle.modular_word.specs.Inverses.{HasInverse};
ghost use Rattle.std.specs.Prelude.{◌≡◌, ◌↔◌, IfSome, IsSome, IsTrue};

use modular_reduced::modular_integer::ModularInteger;
use modular_reduced::reduced_int::ReducedInt;
use modular_reduced::reducer::Reducer;
use modular_word::ring_word::RingWord;

/// Whether two integers are equal: `==` compares the moduli and the residues.
pub fn are_equal<T: RingWord, R: Reducer<T> + Copy>(
    a: &ReducedInt<T, R>,
    b: &ReducedInt<T, R>,
) -> bool
    ensures { IsTrue result ↔ ((modulus_of a.now ≡ modulus_of b.now) × (residue_of a.now ≡ residue_of b.now)) }
{
    *a == *b
}

/// The quotient; `None` exactly where a can't be divided by b. The condition is tested: the moduli are compared,
/// and the divisor is inverted.
pub fn quotient_if_any<T: RingWord, R: Reducer<T> + Copy>(
    a: ReducedInt<T, R>,
    b: ReducedInt<T, R>,
) -> Option<ReducedInt<T, R>>
    ensures some { IsSome result ↔ CanDivide a b }
    ensures quotient { IfSome result (λ q. IsQuotient a b q) }
{
    if a.modulus() == b.modulus() && b.inv().is_some() {
        Some(a / b)
    } else {
        None
    }
}

/// 5 modulo 21, which has an inverse.
pub fn five_modulo_21<R: Reducer<u8> + Copy>() -> ReducedInt<u8, R>
    requires { R.admits 21 }
    ensures five { IsReduced 21 5 result }
    ensures unit { HasInverse (modulus_of result) (residue_of result) }
{
    ReducedInt::<u8, R>::new(5, &21)
}

/// 5 - 255 modulo 21.
pub fn difference_modulo_21<R: Reducer<u8> + Copy>() -> u8
    requires { R.admits 21 }
    ensures { result ≡ 2 }
{
    (five_modulo_21::<R>() - 255u8).residue()
}
