//! The modular operations, as traits.

ghost use Rattle.std.specs.Prelude.{◌≡◌, ℕ, ◌+◌, ◌*◌, ◌%◌, ◌^◌, ◌≤◌, pos, ◌-ℤ◌, neg_ℤ};
ghost use Rattle.modular_word.specs.Inverses.{IsInversion};
ghost use Rattle.modular_word.specs.Residues.{residue};

use crate::numbered::{IntegerValued, Numbered};

/// Sums, differences and products of words: modulo m, of operands that may be above m.
///
/// Each returns a residue below m.
///
/// # Examples
///
/// ```
/// use num_modular::ModularCoreOps;
///
/// assert_eq!(200u8.addm(100u8, &7), 6);
/// assert_eq!(2u64.subm(5u64, &97), 94);
/// assert_eq!(u64::MAX.mulm(u64::MAX, &97), 11);
/// ```
// rust instead: pub trait ModularCoreOps<Rhs = Self, Modulus = Self>: Sized {
pub trait ModularCoreOps<Rhs: Numbered, Modulus: Numbered>: Numbered {
    /// The type of the results.
    type Output: Numbered;

    /// x + y modulo m.
    ///
    /// # Conditions
    ///
    /// - m is at least 1
    ///
    /// # Examples
    ///
    /// ```
    /// use num_modular::ModularCoreOps;
    ///
    /// assert_eq!(5u32.addm(4u32, &7), 2);
    /// assert_eq!(255u8.addm(255u8, &100), 10); // 510 modulo 100
    /// ```
    // rust: #[cfg_attr(debug_assertions, track_caller)]
    fn addm(self, rhs: Rhs, m: Modulus) -> Self::Output
        requires { 1 ≤ Modulus.whole_number m }
        ensures { Self.Output.whole_number result
            ≡ (Self.whole_number self + Rhs.whole_number rhs) % Modulus.whole_number m };

    /// x - y modulo m.
    ///
    /// # Conditions
    ///
    /// - m is at least 1
    ///
    /// # Examples
    ///
    /// ```
    /// use num_modular::ModularCoreOps;
    ///
    /// assert_eq!(5u32.subm(4u32, &7), 1);
    /// assert_eq!(4u32.subm(5u32, &7), 6); // -1 modulo 7
    /// ```
    // rust: #[cfg_attr(debug_assertions, track_caller)]
    fn subm(self, rhs: Rhs, m: Modulus) -> Self::Output
        requires { 1 ≤ Modulus.whole_number m }
        ensures { Self.Output.whole_number result
            ≡ residue (Modulus.whole_number m) (pos (Self.whole_number self) -ℤ pos (Rhs.whole_number rhs)) };

    /// x·y modulo m.
    ///
    /// # Conditions
    ///
    /// - m is at least 1
    ///
    /// # Examples
    ///
    /// ```
    /// use num_modular::ModularCoreOps;
    ///
    /// assert_eq!(5u32.mulm(4u32, &7), 6);
    /// assert_eq!(255u8.mulm(255u8, &100), 25); // 65025 modulo 100
    /// ```
    // rust: #[cfg_attr(debug_assertions, track_caller)]
    fn mulm(self, rhs: Rhs, m: Modulus) -> Self::Output
        requires { 1 ≤ Modulus.whole_number m }
        ensures { Self.Output.whole_number result
            ≡ (Self.whole_number self * Rhs.whole_number rhs) % Modulus.whole_number m };
}

/// Operations on one word: modulo m, which the operand may be above.
///
/// Each returns a residue below m.
///
/// # Examples
///
/// ```
/// use num_modular::ModularUnaryOps;
///
/// assert_eq!(3u32.negm(&7), 4);
/// assert_eq!(3u32.invm(&7), Some(5));
/// assert_eq!(3u32.invm(&6), None);
/// ```
// rust instead: pub trait ModularUnaryOps<Modulus = Self>: Sized {
pub trait ModularUnaryOps<Modulus: Numbered>: Numbered {
    /// The type of the results.
    type Output: Numbered;

    /// -x modulo m.
    ///
    /// # Conditions
    ///
    /// - m is at least 1
    ///
    /// # Examples
    ///
    /// ```
    /// use num_modular::ModularUnaryOps;
    ///
    /// assert_eq!(3u32.negm(&7), 4);
    /// assert_eq!(7u32.negm(&7), 0);
    /// ```
    // rust: #[cfg_attr(debug_assertions, track_caller)]
    fn negm(self, m: Modulus) -> Self::Output
        requires { 1 ≤ Modulus.whole_number m }
        ensures { Self.Output.whole_number result
            ≡ residue (Modulus.whole_number m) (neg_ℤ (pos (Self.whole_number self))) };

    /// The inverse of x modulo m; `None` exactly where there is none.
    ///
    /// Not for secrets.
    ///
    /// # Conditions
    ///
    /// - m is at least 1
    ///
    /// # Examples
    ///
    /// ```
    /// use num_modular::ModularUnaryOps;
    ///
    /// assert_eq!(3u32.invm(&10), Some(7)); // 3 * 7 = 21
    /// assert_eq!(4u32.invm(&10), None); // 2 divides both
    /// ```
    // rust: #[cfg_attr(debug_assertions, track_caller)]
    fn invm(self, m: Modulus) -> Option<Self::Output>
        requires { 1 ≤ Modulus.whole_number m }
        ensures { IsInversion Self.Output.whole_number (Modulus.whole_number m) (Self.whole_number self) result };

    /// 2x modulo m.
    ///
    /// # Conditions
    ///
    /// - m is at least 1
    ///
    /// # Examples
    ///
    /// ```
    /// use num_modular::ModularUnaryOps;
    ///
    /// assert_eq!(200u8.dblm(&251), 149); // 400 - 251
    /// ```
    // rust: #[cfg_attr(debug_assertions, track_caller)]
    fn dblm(self, m: Modulus) -> Self::Output
        requires { 1 ≤ Modulus.whole_number m }
        ensures { Self.Output.whole_number result ≡ (2 * Self.whole_number self) % Modulus.whole_number m };

    /// x² modulo m.
    ///
    /// # Conditions
    ///
    /// - m is at least 1
    ///
    /// # Examples
    ///
    /// ```
    /// use num_modular::ModularUnaryOps;
    ///
    /// assert_eq!(16u8.sqm(&251), 5); // 256 - 251
    /// ```
    // rust: #[cfg_attr(debug_assertions, track_caller)]
    fn sqm(self, m: Modulus) -> Self::Output
        requires { 1 ≤ Modulus.whole_number m }
        ensures { Self.Output.whole_number result
            ≡ (Self.whole_number self * Self.whole_number self) % Modulus.whole_number m };
}

/// Powers of words: modulo m, of a base that may be above m; each is below m.
///
/// # Examples
///
/// ```
/// use num_modular::ModularPow;
///
/// assert_eq!(3u64.powm(100, &101), 1);
/// ```
// rust instead: pub trait ModularPow<Exp = Self, Modulus = Self>: Sized {
pub trait ModularPow<Exp: Numbered, Modulus: Numbered>: Numbered {
    /// The type of the results.
    type Output: Numbered;

    /// x^exp modulo m: that of 1 for the exponent 0.
    ///
    /// # Conditions
    ///
    /// - m is at least 1
    ///
    /// # Examples
    ///
    /// ```
    /// use num_modular::ModularPow;
    ///
    /// assert_eq!(2u32.powm(10, &1000), 24); // 1024 modulo 1000
    /// assert_eq!(2u32.powm(0, &1000), 1);
    /// ```
    // rust: #[cfg_attr(debug_assertions, track_caller)]
    fn powm(self, exp: Exp, m: Modulus) -> Self::Output
        requires { 1 ≤ Modulus.whole_number m }
        ensures { Self.Output.whole_number result
            ≡ Self.whole_number self ^ Exp.whole_number exp % Modulus.whole_number m };
}

/// Residues of signed numbers: as unsigned words.
///
/// # Examples
///
/// ```
/// use num_modular::ModularAbs;
///
/// assert_eq!((-3i64).absm(&7u64), 4);
/// ```
// rust instead: pub trait ModularAbs<Modulus = Self>: Sized {
pub trait ModularAbs<Modulus: Numbered>: IntegerValued {
    /// z modulo m, for signed z: the only number from 0 to m - 1 from which it differs by a multiple of m.
    ///
    /// # Conditions
    ///
    /// - m is at least 1
    ///
    /// # Examples
    ///
    /// ```
    /// use num_modular::ModularAbs;
    ///
    /// assert_eq!((-10i8).absm(&7u8), 4); // -10 + 2 * 7
    /// assert_eq!(10i8.absm(&7u8), 3);
    /// ```
    // rust: #[cfg_attr(debug_assertions, track_caller)]
    fn absm(self, m: &Modulus) -> Modulus
        requires { 1 ≤ Modulus.whole_number m.now }
        ensures { Modulus.whole_number result ≡ residue (Modulus.whole_number m.now) (Self.integer_value self) };
}
