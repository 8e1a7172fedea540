//! Exact division by an odd divisor whose inverse modulo the base is precomputed.

ghost use Rattle.std.specs.Prelude.{◌≡◌, ℕ, ◌%◌};
ghost use Rattle.modular_word.specs.Division.{IsExactQuotient};
ghost use Rattle.modular_word.specs.Reciprocals.{IsExactDivisor};

use crate::neg_mod_inv::neginv;
use modular_prim::plain_word::PlainWord;
use modular_word::path_word::PathWord;
use modular_word::paths::{exact_1, exact_2, ones};

mod doubles;
mod words;

/// For contracts: what they use of a precomputed inverse.
pub trait PreparedInverse {
    // The inverse that is stored of a divisor.
    ghost inverse: { Self → ℕ };

    // The greatest quotient of a word by a divisor, as it is stored.
    ghost limit: { Self → ℕ };

    // The two are the inverse of a divisor modulo the base and the greatest quotient of a word by it.
    ghost fits: { Self → ℕ → Type 0 };
}

/// The inverse and the greatest quotient of an odd divisor: the inverse modulo the base, and the greatest quotient of a
/// word by it.
///
/// The two numbers fit a divisor d where d * d_inv is 1 modulo the base and q_lim is the greatest word divided by
/// d, rounded down. The type doesn't guarantee that they do; a division by d requires it.
///
/// Source: Granlund and Montgomery, "Division by invariant integers using multiplication", section 9.
///
/// # Examples
///
/// ```
/// use num_modular::{DivExact, PreModInv};
///
/// let seven = PreModInv::<u64>::from(7);
/// assert_eq!(91u64.div_exact(7, &seven), Some(13));
/// assert_eq!(92u64.div_exact(7, &seven), None);
/// ```
#[derive(Debug, Clone, Copy)]
// rust: #[must_use]
// rust instead: pub struct PreModInv<T> {
pub struct PreModInv<T: PathWord> {
    // rust instead: pub(crate) d_inv: T,
    d_inv: T,
    // rust instead: pub(crate) q_lim: T,
    q_lim: T,
}

impl<T: PathWord> PreparedInverse for PreModInv<T> {
    ghost inverse = { λ pre. T.number pre.d_inv };

    ghost limit = { λ pre. T.number pre.q_lim };

    ghost fits = { λ pre d. IsExactDivisor T.base d (T.number pre.d_inv) (T.number pre.q_lim) };
}

impl<T: PathWord> PreModInv<T> {
    /// Stores the two numbers, unchecked: as they are given.
    ///
    /// # Examples
    ///
    /// ```
    /// use num_modular::{DivExact, PreModInv};
    ///
    /// // 7 * 183 = 5 * 256 + 1, and 255 = 36 * 7 + 3
    /// const SEVEN: PreModInv<u8> = PreModInv::<u8>::new(183, 36);
    /// assert_eq!(91u8.div_exact(7, &SEVEN), Some(13));
    /// ```
    // rust instead: pub(crate) const fn of(d_inv: T, q_lim: T) -> Self
    pub const fn new(d_inv: T, q_lim: T) -> Self
        ensures inverse { ⟦<PreModInv<T> as PreparedInverse>⟧.inverse result ≡ T.number d_inv }
        ensures limit { ⟦<PreModInv<T> as PreparedInverse>⟧.limit result ≡ T.number q_lim }
    {
        PreModInv { d_inv, q_lim }
    }
}

impl<T: PlainWord> PreModInv<T> {
    /// The two numbers of d: they fit the divisor.
    ///
    /// # Conditions
    ///
    /// - the divisor is odd
    ///
    /// # Examples
    ///
    /// ```
    /// use num_modular::{DivExact, PreModInv};
    ///
    /// let seven = PreModInv::<u8>::from(7);
    /// assert_eq!(91u8.div_exact(7, &seven), Some(13));
    /// assert_eq!(92u8.div_exact(7, &seven), None);
    /// ```
    // rust: #[track_caller]
    pub fn from(d: T) -> Self
        requires { T.number d % 2 ≡ 1 }
        ensures { ⟦<PreModInv<T> as PreparedInverse>⟧.fits result (T.number d) }
    {
        prove!(d.is_odd());
        // rust: assert!(d.is_odd(), "the divisor must be odd");
        let d_inv = T::zero().wrapping_sub(neginv(d));
        let q_lim = ones::<T>(T::bits()).quotient(d);
        // rust instead: PreModInv::of(d_inv, q_lim)
        PreModInv::new(d_inv, q_lim)
    }
}

// The quotient of a word by d; `None` exactly where d doesn't divide it. Condition: the stored inverse is that of
// the divisor.
// rust: #[cfg_attr(debug_assertions, track_caller)]
fn word_quotient<T: PathWord>(n: T, d: T, pre: &PreModInv<T>) -> Option<T>
    requires { ⟦<PreModInv<T> as PreparedInverse>⟧.fits pre.now (T.number d) }
    ensures { IsExactQuotient T.number (T.number n) (T.number d) result }
{
    // rust: debug_assert!(crate::additions::is_greatest_quotient(d, pre.q_lim),
    // rust:     "the stored inverse must be that of the divisor");
    prove!(d.wrapping_mul(pre.d_inv) == T::one());
    // rust: debug_assert!(d.wrapping_mul(pre.d_inv) == T::one(), "the stored inverse must be that of the divisor");
    exact_1(d, pre.d_inv, pre.q_lim, n)
}

// The quotient of a double word by d; `None` exactly where d doesn't divide it. Condition: the stored inverse is
// that of the divisor.
// rust: #[cfg_attr(debug_assertions, track_caller)]
fn double_quotient<T: PathWord>(n: T::Double, d: T, pre: &PreModInv<T>) -> Option<T::Double>
    requires { ⟦<PreModInv<T> as PreparedInverse>⟧.fits pre.now (T.number d) }
    ensures { IsExactQuotient T.double_number (T.double_number n) (T.number d) result }
{
    // rust: debug_assert!(crate::additions::is_greatest_quotient(d, pre.q_lim),
    // rust:     "the stored inverse must be that of the divisor");
    prove!(d.wrapping_mul(pre.d_inv) == T::one());
    // rust: debug_assert!(d.wrapping_mul(pre.d_inv) == T::one(), "the stored inverse must be that of the divisor");
    exact_2(d, pre.d_inv, pre.q_lim, n)
}
