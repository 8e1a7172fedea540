//! The trait that combines the modular operations and the symbols.

ghost use Rattle.std.specs.Prelude.{◌≡◌};
ghost use Rattle.std.proofs.Common.{sym, ◌∙◌};

// rattle: line
use crate::operands::{SymbolWord, UnsignedOperand};
use crate::symbols::ModularSymbols;
use modular_prim::numbered::Numbered;
use modular_prim::operations::{ModularCoreOps, ModularPow, ModularUnaryOps};
// rattle: line
use modular_prim::plain_word::PlainWord;

/// All operations and symbols of words, by value: the modulus is passed by reference.
///
/// # Examples
///
/// ```
/// use num_modular::ModularOps;
///
/// fn sum_of_squares<T: Copy + for<'a> ModularOps<T, &'a T, T>>(x: T, y: T, m: T) -> T {
///     x.sqm(&m).addm(y.sqm(&m), &m)
/// }
/// assert_eq!(sum_of_squares(200u8, 100, 251), 51); // 50000 = 199 * 251 + 51
/// ```
// rust instead: pub trait ModularOps<Rhs = Self, Modulus = Self, Output = Self>: Sized
pub trait ModularOps<Rhs: Numbered, Modulus: UnsignedOperand, Output: Numbered>: UnsignedOperand
    + ModularCoreOps<Rhs, Modulus, Output = Output>
    + ModularUnaryOps<Modulus, Output = Output>
    + ModularPow<Rhs, Modulus, Output = Output>
    + ModularSymbols<Modulus> {
    // Operands of equal number are equal, and so are results: so the contracts of the traits above give each result.
    ghost one_operand: { (x y : Self) → Self.whole_number x ≡ Self.whole_number y → x ≡ y };

    ghost one_answer: { (x y : Output) → Output.whole_number x ≡ Output.whole_number y → x ≡ y };
}

// rust: impl<Rhs, Modulus, Output, Any> ModularOps<Rhs, Modulus, Output> for Any
// rust: where
// rust:     Any: ModularCoreOps<Rhs, Modulus, Output = Output>
// rust:         + ModularUnaryOps<Modulus, Output = Output>
// rust:         + ModularPow<Rhs, Modulus, Output = Output>
// rust:         + ModularSymbols<Modulus>
// rust: {
// rust: }

impl<T: PlainWord + SymbolWord + UnsignedOperand> ModularOps<T, &T, T> for T {
    ghost one_operand = { λ x y e. T.injective x y (sym (T.numbered x) ∙ e ∙ T.numbered y) };

    ghost one_answer = { λ x y e. T.injective x y (sym (T.numbered x) ∙ e ∙ T.numbered y) };
}
