//! The integer of an operand, and words given by their sign and their magnitude.

ghost use Rattle.std.specs.Prelude.{◌≡◌, pos, ◌<◌, ◌↔◌, IsTrue};
ghost use Rattle.std.proofs.Common.{refl, rules};
ghost use Rattle.modular_symbols.specs.Kronecker.{signed};

use crate::low_part::LowPart;
pub use modular_prim::numbered::IntegerValued;
use modular_prim::numbered::Numbered;
// rattle: line
use modular_prim::plain_word::PlainWord;

/// An unsigned operand: its integer is its whole number, which `==` compares.
///
/// It has no methods. Code that is generic over the modular operations and the symbols uses it to treat both
/// numbers of an operand as one.
pub trait UnsignedOperand: Numbered + IntegerValued + Eq {
    // The integer is the whole number.
    ghost integer_is_number: { (x : Self) → Self.integer_value x ≡ pos (Self.whole_number x) };

    // `==` returns whether the numbers are equal.
    ghost compares: { (x y : Self) → IsTrue (Self.eq x y) ↔ (Self.whole_number x ≡ Self.whole_number y) };
}

impl<T: UnsignedOperand> UnsignedOperand for &T {
    ghost integer_is_number = { λ x. T.integer_is_number x.now };

    ghost compares = { λ x y. T.compares x.now y.now };
}

/// A signed or unsigned machine word.
///
/// # Examples
///
/// ```
/// use num_modular::SymbolWord;
///
/// fn is_positive<T: SymbolWord + PartialEq + Default>(n: T) -> bool {
///     n != T::default() && !n.sign_and_magnitude().0
/// }
/// assert!(is_positive(3u8) && !is_positive(-3i64) && !is_positive(0));
/// ```
pub trait SymbolWord: IntegerValued + Copy {
    /// The unsigned word that holds every magnitude, also that of the least number.
    type Magnitude: LowPart;

    /// Whether it is negative, and its magnitude.
    ///
    /// # Examples
    ///
    /// ```
    /// use num_modular::SymbolWord;
    ///
    /// assert_eq!((-128i8).sign_and_magnitude(), (true, 128));
    /// assert_eq!(5u64.sign_and_magnitude(), (false, 5));
    /// ```
    fn sign_and_magnitude(self) -> (bool, Self::Magnitude)
        ensures value { signed result.0 (pos (Self.Magnitude.number result.1)) ≡ Self.integer_value self }
        ensures negative { IsTrue result.0 → 0 < Self.Magnitude.number result.1 };
}

impl UnsignedOperand for u8 {
    ghost integer_is_number = { λ x. refl };

    ghost compares = { Prim.search rules };
}

impl UnsignedOperand for u16 {
    ghost integer_is_number = { λ x. refl };

    ghost compares = { Prim.search rules };
}

impl UnsignedOperand for u32 {
    ghost integer_is_number = { λ x. refl };

    ghost compares = { Prim.search rules };
}

impl UnsignedOperand for u64 {
    ghost integer_is_number = { λ x. refl };

    ghost compares = { Prim.search rules };
}

impl UnsignedOperand for usize {
    ghost integer_is_number = { λ x. refl };

    ghost compares = { Prim.search rules };
}

impl SymbolWord for u8 {
    type Magnitude = u8;

    fn sign_and_magnitude(self) -> (bool, u8) {
        (false, self)
    }
}

impl SymbolWord for u16 {
    type Magnitude = u16;

    fn sign_and_magnitude(self) -> (bool, u16) {
        (false, self)
    }
}

impl SymbolWord for u32 {
    type Magnitude = u32;

    fn sign_and_magnitude(self) -> (bool, u32) {
        (false, self)
    }
}

impl SymbolWord for u64 {
    type Magnitude = u64;

    fn sign_and_magnitude(self) -> (bool, u64) {
        (false, self)
    }
}

// rust: #[cfg(target_pointer_width = "64")]
impl SymbolWord for usize {
    type Magnitude = usize;

    fn sign_and_magnitude(self) -> (bool, usize) {
        (false, self)
    }
}

impl SymbolWord for i8 {
    type Magnitude = u8;

    fn sign_and_magnitude(self) -> (bool, u8) {
        (self < 0, self.unsigned_abs())
    }
}

impl SymbolWord for i16 {
    type Magnitude = u16;

    fn sign_and_magnitude(self) -> (bool, u16) {
        (self < 0, self.unsigned_abs())
    }
}

impl SymbolWord for i32 {
    type Magnitude = u32;

    fn sign_and_magnitude(self) -> (bool, u32) {
        (self < 0, self.unsigned_abs())
    }
}

impl SymbolWord for i64 {
    type Magnitude = u64;

    fn sign_and_magnitude(self) -> (bool, u64) {
        (self < 0, self.unsigned_abs())
    }
}

// rust: #[cfg(target_pointer_width = "64")]
impl SymbolWord for isize {
    type Magnitude = usize;

    fn sign_and_magnitude(self) -> (bool, usize) {
        (self < 0, self.unsigned_abs())
    }
}
