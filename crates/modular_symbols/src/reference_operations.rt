//! The modular operations and the symbols over plain references.

ghost use Rattle.std.specs.Prelude.{◌≡◌, ℕ, ◌+◌, ◌*◌, ◌%◌, ◌^◌, ◌≤◌, pos, ◌-ℤ◌, neg_ℤ};
ghost use Rattle.std.proofs.Common.{sym, ◌∙◌};
ghost use Rattle.modular_word.specs.Inverses.{IsInversion};
ghost use Rattle.modular_word.specs.Residues.{residue};
ghost use Rattle.modular_symbols.specs.Jacobi.{checked_jacobi_of};
ghost use Rattle.modular_symbols.specs.Kronecker.{kronecker};
ghost use Rattle.modular_symbols.specs.Legendre.{checked_legendre_of};

// rattle: line
use crate::operands::{SymbolWord, UnsignedOperand};
// rust instead: use crate::modular_symbols::operations::ModularOps;
use crate::symbols::ModularSymbols;
// rattle: line
use modular_prim::plain_word::PlainWord;
// rattle: line
use modular_prim::{euclid, power, residues};

/// All operations and symbols of words, by reference: the results are those of [`ModularOps`].
///
/// # Examples
///
/// ```
/// use num_modular::ModularRefOps;
///
/// fn sum_of_squares<T: ModularRefOps + Clone>(x: &T, y: &T, m: &T) -> T {
///     x.sqm_ref(m).addm_ref(&y.sqm_ref(m), m)
/// }
/// assert_eq!(sum_of_squares(&3u8, &4, &7), 4); // 25 modulo 7
/// ```
// rust instead: pub trait ModularRefOps: for<'r> ModularOps<&'r Self, &'r Self> {
pub trait ModularRefOps: UnsignedOperand + Copy {
    /// As the call by value: the residue of the sum.
    ///
    /// # Conditions
    ///
    /// - m is at least 1
    ///
    /// # Examples
    ///
    /// ```
    /// use num_modular::ModularRefOps;
    ///
    /// assert_eq!(5u32.addm_ref(&4, &7), 2);
    /// ```
    // rust: #[must_use]
    // rust: #[cfg_attr(debug_assertions, track_caller)]
    // rust instead: fn addm_ref(&self, rhs: &Self, m: &Self) -> Self where Self: Clone
    fn addm_ref(&self, rhs: &Self, m: &Self) -> Self
        requires { 1 ≤ Self.whole_number m.now }
        ensures { Self.whole_number result
            ≡ (Self.whole_number self.now + Self.whole_number rhs.now) % Self.whole_number m.now };

    /// As the call by value: the residue of the difference.
    ///
    /// # Conditions
    ///
    /// - m is at least 1
    ///
    /// # Examples
    ///
    /// ```
    /// use num_modular::ModularRefOps;
    ///
    /// assert_eq!(4u32.subm_ref(&5, &7), 6);
    /// ```
    // rust: #[must_use]
    // rust: #[cfg_attr(debug_assertions, track_caller)]
    // rust instead: fn subm_ref(&self, rhs: &Self, m: &Self) -> Self where Self: Clone
    fn subm_ref(&self, rhs: &Self, m: &Self) -> Self
        requires { 1 ≤ Self.whole_number m.now }
        ensures { Self.whole_number result
            ≡ residue (Self.whole_number m.now) (pos (Self.whole_number self.now) -ℤ pos (Self.whole_number rhs.now)) };

    /// As the call by value: the residue of the product.
    ///
    /// # Conditions
    ///
    /// - m is at least 1
    ///
    /// # Examples
    ///
    /// ```
    /// use num_modular::ModularRefOps;
    ///
    /// assert_eq!(5u32.mulm_ref(&4, &7), 6);
    /// ```
    // rust: #[must_use]
    // rust: #[cfg_attr(debug_assertions, track_caller)]
    // rust instead: fn mulm_ref(&self, rhs: &Self, m: &Self) -> Self where Self: Clone
    fn mulm_ref(&self, rhs: &Self, m: &Self) -> Self
        requires { 1 ≤ Self.whole_number m.now }
        ensures { Self.whole_number result
            ≡ (Self.whole_number self.now * Self.whole_number rhs.now) % Self.whole_number m.now };

    /// As the call by value: the residue of the negative.
    ///
    /// # Conditions
    ///
    /// - m is at least 1
    ///
    /// # Examples
    ///
    /// ```
    /// use num_modular::ModularRefOps;
    ///
    /// assert_eq!(3u32.negm_ref(&7), 4);
    /// ```
    // rust: #[must_use]
    // rust: #[cfg_attr(debug_assertions, track_caller)]
    // rust instead: fn negm_ref(&self, m: &Self) -> Self where Self: Clone
    fn negm_ref(&self, m: &Self) -> Self
        requires { 1 ≤ Self.whole_number m.now }
        ensures { Self.whole_number result
            ≡ residue (Self.whole_number m.now) (neg_ℤ (pos (Self.whole_number self.now))) };

    /// As the call by value: the inverse modulo m, 0 for m = 1, and `None` exactly where there is none.
    ///
    /// # Conditions
    ///
    /// - m is at least 1
    ///
    /// # Examples
    ///
    /// ```
    /// use num_modular::ModularRefOps;
    ///
    /// assert_eq!(3u32.invm_ref(&10), Some(7));
    /// assert_eq!(4u32.invm_ref(&10), None);
    /// ```
    // rust: #[cfg_attr(debug_assertions, track_caller)]
    // rust instead: fn invm_ref(&self, m: &Self) -> Option<Self> where Self: Clone
    fn invm_ref(&self, m: &Self) -> Option<Self>
        requires { 1 ≤ Self.whole_number m.now }
        ensures { IsInversion Self.whole_number (Self.whole_number m.now) (Self.whole_number self.now) result };

    /// As the call by value: the residue of the double.
    ///
    /// # Conditions
    ///
    /// - m is at least 1
    ///
    /// # Examples
    ///
    /// ```
    /// use num_modular::ModularRefOps;
    ///
    /// assert_eq!(5u32.dblm_ref(&7), 3);
    /// ```
    // rust: #[must_use]
    // rust: #[cfg_attr(debug_assertions, track_caller)]
    // rust instead: fn dblm_ref(&self, m: &Self) -> Self where Self: Clone
    fn dblm_ref(&self, m: &Self) -> Self
        requires { 1 ≤ Self.whole_number m.now }
        ensures { Self.whole_number result ≡ (2 * Self.whole_number self.now) % Self.whole_number m.now };

    /// As the call by value: the residue of the square.
    ///
    /// # Conditions
    ///
    /// - m is at least 1
    ///
    /// # Examples
    ///
    /// ```
    /// use num_modular::ModularRefOps;
    ///
    /// assert_eq!(5u32.sqm_ref(&7), 4);
    /// ```
    // rust: #[must_use]
    // rust: #[cfg_attr(debug_assertions, track_caller)]
    // rust instead: fn sqm_ref(&self, m: &Self) -> Self where Self: Clone
    fn sqm_ref(&self, m: &Self) -> Self
        requires { 1 ≤ Self.whole_number m.now }
        ensures { Self.whole_number result
            ≡ (Self.whole_number self.now * Self.whole_number self.now) % Self.whole_number m.now };

    /// As the call by value: the residue of the power to the exponent `exp`, that of 1 for the exponent 0.
    ///
    /// # Conditions
    ///
    /// - m is at least 1
    ///
    /// # Examples
    ///
    /// ```
    /// use num_modular::ModularRefOps;
    ///
    /// assert_eq!(2u32.powm_ref(&10, &1000), 24);
    /// ```
    // rust: #[must_use]
    // rust: #[cfg_attr(debug_assertions, track_caller)]
    // rust instead: fn powm_ref(&self, exp: &Self, m: &Self) -> Self where Self: Clone
    fn powm_ref(&self, exp: &Self, m: &Self) -> Self
        requires { 1 ≤ Self.whole_number m.now }
        ensures { Self.whole_number result
            ≡ Self.whole_number self.now ^ Self.whole_number exp.now % Self.whole_number m.now };

    /// As the call by value: 0, 1 or -1, and `None` where the power is none of these, and for n = 0.
    ///
    /// # Examples
    ///
    /// ```
    /// use num_modular::ModularRefOps;
    ///
    /// assert_eq!(2u32.checked_legendre_ref(&7), Some(1)); // 3 * 3 = 9
    /// assert_eq!(2u32.checked_legendre_ref(&9), None); // 2^4 modulo 9 is 7
    /// ```
    fn checked_legendre_ref(&self, n: &Self) -> Option<i8>
        ensures { result ≡ checked_legendre_of (pos (Self.whole_number self.now)) (pos (Self.whole_number n.now)) };

    /// As the call by value: the Jacobi symbol, and `None` exactly for an even n.
    ///
    /// # Examples
    ///
    /// ```
    /// use num_modular::ModularRefOps;
    ///
    /// assert_eq!(2u32.checked_jacobi_ref(&15), Some(1));
    /// assert_eq!(2u32.checked_jacobi_ref(&14), None);
    /// ```
    fn checked_jacobi_ref(&self, n: &Self) -> Option<i8>
        ensures { result ≡ checked_jacobi_of (pos (Self.whole_number self.now)) (pos (Self.whole_number n.now)) };

    /// As the call by value: the Kronecker symbol.
    ///
    /// # Examples
    ///
    /// ```
    /// use num_modular::ModularRefOps;
    ///
    /// assert_eq!(3u32.kronecker_ref(&2), -1);
    /// ```
    fn kronecker_ref(&self, n: &Self) -> i8
        ensures { result ≡ kronecker (pos (Self.whole_number self.now)) (pos (Self.whole_number n.now)) };

    // Words of equal number are equal.
    ghost one_word: { (x y : Self) → Self.whole_number x ≡ Self.whole_number y → x ≡ y };
}

// rust instead: impl<T: for<'r> ModularOps<&'r T, &'r T>> ModularRefOps for T {
impl<T: PlainWord + SymbolWord + UnsignedOperand> ModularRefOps for T {
    // rust: #[cfg_attr(debug_assertions, track_caller)]
    // rust instead: fn addm_ref(&self, rhs: &T, m: &T) -> T where T: Clone {
    fn addm_ref(&self, rhs: &T, m: &T) -> T {
        // rust instead: self.clone().addm(rhs, m)
        residues::addm(*self, *rhs, *m)
    }

    // rust: #[cfg_attr(debug_assertions, track_caller)]
    // rust instead: fn subm_ref(&self, rhs: &T, m: &T) -> T where T: Clone {
    fn subm_ref(&self, rhs: &T, m: &T) -> T {
        // rust instead: self.clone().subm(rhs, m)
        residues::subm(*self, *rhs, *m)
    }

    // rust: #[cfg_attr(debug_assertions, track_caller)]
    // rust instead: fn mulm_ref(&self, rhs: &T, m: &T) -> T where T: Clone {
    fn mulm_ref(&self, rhs: &T, m: &T) -> T {
        // rust instead: self.clone().mulm(rhs, m)
        residues::mulm(*self, *rhs, *m)
    }

    // rust: #[cfg_attr(debug_assertions, track_caller)]
    // rust instead: fn negm_ref(&self, m: &T) -> T where T: Clone {
    fn negm_ref(&self, m: &T) -> T {
        // rust instead: self.clone().negm(m)
        residues::negm(*self, *m)
    }

    // rust: #[cfg_attr(debug_assertions, track_caller)]
    // rust instead: fn invm_ref(&self, m: &T) -> Option<T> where T: Clone {
    fn invm_ref(&self, m: &T) -> Option<T> {
        // rust instead: self.clone().invm(m)
        euclid::invm(*self, *m)
    }

    // rust: #[cfg_attr(debug_assertions, track_caller)]
    // rust instead: fn dblm_ref(&self, m: &T) -> T where T: Clone {
    fn dblm_ref(&self, m: &T) -> T {
        // rust instead: self.clone().dblm(m)
        residues::dblm(*self, *m)
    }

    // rust: #[cfg_attr(debug_assertions, track_caller)]
    // rust instead: fn sqm_ref(&self, m: &T) -> T where T: Clone {
    fn sqm_ref(&self, m: &T) -> T {
        // rust instead: self.clone().sqm(m)
        residues::sqm(*self, *m)
    }

    // rust: #[cfg_attr(debug_assertions, track_caller)]
    // rust instead: fn powm_ref(&self, exp: &T, m: &T) -> T where T: Clone {
    fn powm_ref(&self, exp: &T, m: &T) -> T {
        // rust instead: self.clone().powm(exp, m)
        power::powm(*self, *exp, *m)
    }

    fn checked_legendre_ref(&self, n: &T) -> Option<i8> {
        self.checked_legendre(n)
    }

    fn checked_jacobi_ref(&self, n: &T) -> Option<i8> {
        self.checked_jacobi(n)
    }

    fn kronecker_ref(&self, n: &T) -> i8 {
        self.kronecker(n)
    }

    ghost one_word = { λ x y e. T.injective x y (sym (T.numbered x) ∙ e ∙ T.numbered y) };
}
