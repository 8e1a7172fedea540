//! The trait of the symbols.

ghost use Rattle.std.specs.Prelude.{◌≡◌, nat_abs, Some, IsSome};
ghost use Rattle.modular_symbols.specs.Jacobi.{jacobi, checked_jacobi_of};
ghost use Rattle.modular_symbols.specs.Kronecker.{kronecker};
ghost use Rattle.modular_symbols.specs.Legendre.{checked_legendre_of};
ghost use Rattle.modular_symbols.specs.Primes.{IsOddPrime};

use crate::magnitudes;
use crate::operands::{IntegerValued, SymbolWord};

/// The symbols of a number over n.
///
/// A symbol is -1, 0 or 1.
///
/// Not for secrets.
///
/// # Examples
///
/// ```
/// use num_modular::ModularSymbols;
///
/// assert_eq!(2u8.jacobi(&15), 1);
/// assert_eq!(2u8.checked_jacobi(&14), None);
/// ```
// rust instead: pub trait ModularSymbols<Modulus = Self> {
pub trait ModularSymbols<Modulus: IntegerValued>: IntegerValued {
    /// The value in `checked_legendre`.
    ///
    /// # Conditions
    ///
    /// - `checked_legendre` is `Some`, as it is for each odd prime n
    ///
    /// # Examples
    ///
    /// ```
    /// use num_modular::ModularSymbols;
    ///
    /// assert_eq!(2u8.legendre(&7), 1); // 3 * 3 = 9
    /// assert_eq!((-1i8).legendre(&7), -1);
    /// ```
    // rust: #[track_caller]
    fn legendre(&self, n: Modulus) -> i8
        requires { IsSome (checked_legendre_of (Self.integer_value self.now) (Modulus.integer_value n)) }
        ensures { Some result ≡ checked_legendre_of (Self.integer_value self.now) (Modulus.integer_value n) }
    {
        match self.checked_legendre(n) {
            Some(symbol) => symbol,
            // rust instead: None => panic!("`checked_legendre` must be `Some`, as it is for each odd prime n"),
            None => unreachable!(),
        }
    }

    /// 0, 1 or -1, to which a^((n - 1)/2) is congruent: modulo n, with the exponent rounded down, tried in this order.
    ///
    /// `None` where it is none of these, and for n below 1.
    ///
    /// For an odd prime n this is the Legendre symbol, which is the Jacobi symbol. The call doesn't test whether n
    /// is prime.
    ///
    /// # Examples
    ///
    /// ```
    /// use num_modular::ModularSymbols;
    ///
    /// assert_eq!(2u8.checked_legendre(&7), Some(1)); // 2^3 modulo 7 is 1
    /// assert_eq!(2u8.checked_legendre(&9), None); // 2^4 modulo 9 is 7
    /// ```
    fn checked_legendre(&self, n: Modulus) -> Option<i8>
        ensures class { result ≡ checked_legendre_of (Self.integer_value self.now) (Modulus.integer_value n) }
        ensures prime { IsOddPrime (Modulus.integer_value n)
            → result ≡ Some (jacobi (Self.integer_value self.now) (nat_abs (Modulus.integer_value n))) };

    /// The value in `checked_jacobi`.
    ///
    /// # Conditions
    ///
    /// - n is odd and above 0
    ///
    /// # Examples
    ///
    /// ```
    /// use num_modular::ModularSymbols;
    ///
    /// assert_eq!(7u8.jacobi(&15), -1); // 1 over 3, and -1 over 5
    /// ```
    // rust: #[track_caller]
    fn jacobi(&self, n: Modulus) -> i8
        requires { IsSome (checked_jacobi_of (Self.integer_value self.now) (Modulus.integer_value n)) }
        ensures { Some result ≡ checked_jacobi_of (Self.integer_value self.now) (Modulus.integer_value n) }
    {
        match self.checked_jacobi(n) {
            Some(symbol) => symbol,
            // rust instead: None => panic!("n must be odd and above 0"),
            None => unreachable!(),
        }
    }

    /// The Jacobi symbol; `None` exactly for an even n and for n below 1.
    ///
    /// Source: Cohen, "A Course in Computational Algebraic Number Theory", algorithm 1.4.10.
    ///
    /// # Examples
    ///
    /// ```
    /// use num_modular::ModularSymbols;
    ///
    /// assert_eq!(7u8.checked_jacobi(&15), Some(-1));
    /// assert_eq!(7u8.checked_jacobi(&16), None);
    /// ```
    fn checked_jacobi(&self, n: Modulus) -> Option<i8>
        ensures { result ≡ checked_jacobi_of (Self.integer_value self.now) (Modulus.integer_value n) };

    /// The Kronecker symbol, for all numbers: of any number over any number, the least ones included.
    ///
    /// It is the product of the Jacobi symbol over the odd part of the magnitude of n, of the symbol over 2 for each
    /// factor 2 of n, and of -1 where both numbers are negative. The symbol over 2 is 0 for an even number, 1 for one
    /// that is 1 or 7 modulo 8, else -1. Over 0 it is 1 for 1 and -1, and else 0.
    ///
    /// Source: Cohen, "A Course in Computational Algebraic Number Theory", definition 1.4.8.
    ///
    /// # Examples
    ///
    /// ```
    /// use num_modular::ModularSymbols;
    ///
    /// assert_eq!(3i8.kronecker(&2), -1);
    /// assert_eq!((-1i8).kronecker(&-1), -1);
    /// assert_eq!(7i8.kronecker(&0), 0);
    /// ```
    fn kronecker(&self, n: Modulus) -> i8
        ensures { result ≡ kronecker (Self.integer_value self.now) (Modulus.integer_value n) };
}

impl<T: SymbolWord> ModularSymbols<&T> for T {
    fn checked_legendre(&self, n: &T) -> Option<i8> {
        let (a_minus, a) = self.sign_and_magnitude();
        let (n_minus, n) = n.sign_and_magnitude();
        magnitudes::checked_legendre(a_minus, a, n_minus, n)
    }

    fn checked_jacobi(&self, n: &T) -> Option<i8> {
        let (a_minus, a) = self.sign_and_magnitude();
        let (n_minus, n) = n.sign_and_magnitude();
        magnitudes::checked_jacobi(a_minus, a, n_minus, n)
    }

    fn kronecker(&self, n: &T) -> i8 {
        let (a_minus, a) = self.sign_and_magnitude();
        let (n_minus, n) = n.sign_and_magnitude();
        magnitudes::kronecker_symbol(a_minus, a, n_minus, n)
    }
}
