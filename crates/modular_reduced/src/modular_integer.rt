//! The trait of integers modulo m, for generic code.

ghost use Rattle.modular_reduced.specs.Integers.{IsInteger};
ghost use Rattle.modular_word.specs.Residues.{residue};
ghost use Rattle.std.specs.Prelude.{◌≡◌, ℕ, ◌+◌, ◌*◌, ◌%◌, ◌<◌, ◌↔◌, IsTrue, pos, ◌-ℤ◌, neg_ℤ};

// rattle: line
use modular_word::ring_word::RingWord;
use std::ops::{Add, Mul, Neg, Sub};

/// An integer modulo m, with its modulus.
///
/// Integers of equal modulus may be added, subtracted and multiplied, and each may be negated. `==` returns whether
/// the moduli and the residues are equal.
///
/// # Examples
///
/// ```
/// use num_modular::{ModularInteger, MontgomeryInt};
///
/// fn cube<I: ModularInteger + Copy>(x: I) -> I {
///     x.square() * x
/// }
/// assert_eq!(cube(MontgomeryInt::<u64>::new(10, &97)).residue(), 30); // 1000 modulo 97
/// ```
// rust instead: pub trait ModularInteger: Sized + PartialEq
pub trait ModularInteger: PartialEq
    + Add<Self, Output = Self>
    + Sub<Self, Output = Self>
    + Mul<Self, Output = Self>
    + Neg<Output = Self> {
    /// The type of moduli and residues.
    // rust instead: type Base;
    type Base: RingWord;

    // The modulus. The laws below say what the operators and `==` return.
    ghost modulus_number: { Self → ℕ };

    // The residue: a number below the modulus.
    ghost residue_number: { Self → ℕ };

    /// The modulus m.
    ///
    /// # Examples
    ///
    /// ```
    /// use num_modular::{ModularInteger, MontgomeryInt};
    ///
    /// assert_eq!(MontgomeryInt::<u64>::new(10, &97).modulus(), 97);
    /// ```
    fn modulus(&self) -> Self::Base
        ensures { Self.Base.number result ≡ modulus_number self.now };

    /// The residue, below m.
    ///
    /// # Examples
    ///
    /// ```
    /// use num_modular::{ModularInteger, MontgomeryInt};
    ///
    /// assert_eq!(MontgomeryInt::<u64>::new(100, &97).residue(), 3);
    /// ```
    fn residue(&self) -> Self::Base
        ensures { Self.Base.number result ≡ residue_number self.now };

    /// Whether the residue is 0.
    ///
    /// # Examples
    ///
    /// ```
    /// use num_modular::{ModularInteger, MontgomeryInt};
    ///
    /// assert!(MontgomeryInt::<u64>::new(194, &97).is_zero()); // 2 * 97
    /// assert!(!MontgomeryInt::<u64>::new(195, &97).is_zero());
    /// ```
    fn is_zero(&self) -> bool
        ensures { IsTrue result ↔ (residue_number self.now ≡ 0) };

    /// n modulo m, with this modulus: that of `self`.
    ///
    /// # Examples
    ///
    /// ```
    /// use num_modular::{ModularInteger, MontgomeryInt};
    ///
    /// let x = MontgomeryInt::<u64>::new(10, &97);
    /// let y = x.convert(100);
    /// assert_eq!((y.residue(), y.modulus()), (3, 97));
    /// ```
    // rust: #[must_use]
    fn convert(&self, n: Self::Base) -> Self
        ensures { let m = modulus_number self.now in
            IsInteger modulus_number residue_number m (Self.Base.number n % m) result };

    /// Twice the integer.
    ///
    /// # Examples
    ///
    /// ```
    /// use num_modular::{ModularInteger, MontgomeryInt};
    ///
    /// assert_eq!(MontgomeryInt::<u64>::new(50, &97).double().residue(), 3);
    /// ```
    // rust: #[must_use]
    fn double(self) -> Self
        ensures { let m = modulus_number self in
            IsInteger modulus_number residue_number m ((2 * residue_number self) % m) result };

    /// The integer times itself.
    ///
    /// # Examples
    ///
    /// ```
    /// use num_modular::{ModularInteger, MontgomeryInt};
    ///
    /// assert_eq!(MontgomeryInt::<u64>::new(10, &97).square().residue(), 3);
    /// ```
    // rust: #[must_use]
    fn square(self) -> Self
        ensures { let m = modulus_number self in
            IsInteger modulus_number residue_number m ((residue_number self * residue_number self) % m) result };

    // The residue is below the modulus.
    ghost below: { (a : Self) → residue_number a < modulus_number a };

    // `==` returns whether the moduli and the residues are equal.
    ghost equal: { (a b : Self) → IsTrue (Self.eq a b) ↔
        ((modulus_number a ≡ modulus_number b) × (residue_number a ≡ residue_number b)) };

    // Integers of equal modulus may be added, and the result is the residue of the sum.
    ghost may_add: { (a b : Self) → modulus_number a ≡ modulus_number b → Self.can_add a b };

    ghost adds: { (a b c : Self) → modulus_number a ≡ modulus_number b → Self.add_gives a b c →
        let m = modulus_number a in IsInteger modulus_number residue_number m
        ((residue_number a + residue_number b) % m) c };

    // Likewise subtracted.
    ghost may_subtract: { (a b : Self) → modulus_number a ≡ modulus_number b → Self.can_sub a b };

    ghost subtracts: { (a b c : Self) → modulus_number a ≡ modulus_number b → Self.sub_gives a b c →
        let m = modulus_number a in IsInteger modulus_number residue_number m
        (residue m (pos (residue_number a) -ℤ pos (residue_number b))) c };

    // Likewise multiplied.
    ghost may_multiply: { (a b : Self) → modulus_number a ≡ modulus_number b → Self.can_mul a b };

    ghost multiplies: { (a b c : Self) → modulus_number a ≡ modulus_number b → Self.mul_gives a b c →
        let m = modulus_number a in IsInteger modulus_number residue_number m
        ((residue_number a * residue_number b) % m) c };

    // Each may be negated, and the result is the residue of the negative.
    ghost may_negate: { (a : Self) → Self.can_neg a };

    ghost negates: { (a c : Self) → Self.neg_gives a c →
        let m = modulus_number a in IsInteger modulus_number residue_number m
        (residue m (neg_ℤ (pos (residue_number a)))) c };
}
