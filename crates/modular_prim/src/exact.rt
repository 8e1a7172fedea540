//! Exact division.

ghost use Rattle.std.specs.Prelude.{◌≡◌, ◌≢◌, ℕ, ◌*◌, ◌≤◌, IsTrue, IsFalse};
ghost use Rattle.modular_word.specs.Division.{IsExactQuotient};

use crate::numbered::Numbered;
use crate::plain_word::PlainWord;
// rattle: line
use modular_word::ring_word::RingWord;

/// Exact division, given what was precomputed of the divisor: a multiplier (`PreMulInv1by1`), an inverse (`PreModInv`),
/// or `()`.
///
/// With `()` nothing is precomputed, and the quotient is that of the machine's division, for words of 8 to 128 bits
/// but not usize, as in the Rust crate; the divisor must be at least 1.
///
/// # Examples
///
/// ```
/// use num_modular::{DivExact, PreModInv};
///
/// let seven = PreModInv::<u64>::from(7);
/// assert_eq!(91u64.div_exact(7, &seven), Some(13));
/// assert_eq!(91u64.div_exact(7, &()), Some(13));
/// ```
pub trait DivExact<Rhs: Numbered, Precompute>: Numbered + Sized {
    /// The type of the quotients.
    type Output: Numbered;

    // What is stored is that of the divisor.
    ghost fits: { Rhs → Precompute → Type 0 };

    /// The quotient by d; `None` exactly where d doesn't divide.
    ///
    /// # Conditions
    ///
    /// - (debug) d is at least 1, and `pre` was made of it or is `()`
    ///
    /// # Examples
    ///
    /// ```
    /// use num_modular::{DivExact, PreMulInv1by1};
    ///
    /// let sixty = PreMulInv1by1::<u32>::new(60);
    /// assert_eq!(3600u32.div_exact(60, &sixty), Some(60));
    /// assert_eq!(3601u32.div_exact(60, &sixty), None);
    /// ```
    // rust: #[cfg_attr(debug_assertions, track_caller)]
    fn div_exact(self, d: Rhs, pre: &Precompute) -> Option<Self::Output>
        requires { fits d pre.now }
        ensures { IsExactQuotient Self.Output.whole_number (Self.whole_number self) (Rhs.whole_number d) result };
}

/// Exact division in place: given what was precomputed of the divisor, or `()`.
///
/// # Examples
///
/// ```
/// use num_modular::DivExactAssign;
///
/// let mut n = 91u64;
/// assert!(n.div_exact_assign(7, &()));
/// assert_eq!(n, 13);
/// ```
// rust instead: pub trait DivExactAssign<Rhs, Precompute>: Sized + DivExact<Rhs, Precompute, Output = Self> {
pub trait DivExactAssign<Rhs: Numbered, Precompute>: DivExact<Rhs, Precompute, Output = Self> {
    /// Whether d divides the number, which then becomes the quotient: if so, it returns true.
    ///
    /// Where d doesn't divide the number, it returns false and leaves it unchanged.
    ///
    /// # Conditions
    ///
    /// - (debug) d is at least 1, and `pre` was made of it or is `()`
    ///
    /// # Examples
    ///
    /// ```
    /// use num_modular::{DivExactAssign, PreModInv};
    ///
    /// let seven = PreModInv::<u64>::from(7);
    /// let mut n = 92u64;
    /// assert!(!n.div_exact_assign(7, &seven));
    /// assert_eq!(n, 92);
    /// ```
    // rust: #[must_use]
    // rust: #[cfg_attr(debug_assertions, track_caller)]
    fn div_exact_assign(&mut self, d: Rhs, pre: &Precompute) -> bool
        requires { Self.fits d pre.now }
        ensures exact { IsTrue result → Self.whole_number self.new * Rhs.whole_number d ≡ Self.whole_number self.old }
        ensures unchanged { IsFalse result → self.new ≡ self.old }
        ensures none { IsFalse result → (k : ℕ) → k * Rhs.whole_number d ≢ Self.whole_number self.old };
}

/// The body of [`div_exact_assign`] for words, by [`div_exact`].
///
/// # Preconditions
///
/// - what is stored fits d
// rust: #[must_use]
// rust: #[cfg_attr(debug_assertions, track_caller)]
pub fn assign_exact<N: DivExact<Rhs, Precompute, Output = N> + Copy, Rhs: Numbered, Precompute>(
    number: &mut N,
    d: Rhs,
    pre: &Precompute,
) -> bool
    requires { N.fits d pre.now }
    ensures exact { IsTrue result → N.whole_number number.new * Rhs.whole_number d ≡ N.whole_number number.old }
    ensures unchanged { IsFalse result → number.new ≡ number.old }
    ensures none { IsFalse result → (k : ℕ) → k * Rhs.whole_number d ≢ N.whole_number number.old }
{
    match (*number).div_exact(d, pre) {
        Some(quotient) => {
            *number = quotient;
            true
        }
        None => false,
    }
}

/// The quotient by d; `None` exactly where d doesn't divide n.
///
/// # Conditions
///
/// - the divisor is at least 1
// rust: #[cfg_attr(debug_assertions, track_caller)]
pub fn exact_quotient<T: PlainWord>(n: T, d: T) -> Option<T>
    requires { 1 ≤ T.number d }
    ensures { IsExactQuotient T.number (T.number n) (T.number d) result }
{
    // rust: assert!(!d.is_zero_word(), "the divisor must be at least 1");
    if n.remainder(d).is_zero_word() {
        Some(n.quotient(d))
    } else {
        None
    }
}

/// The quotient of two words by d; `None` exactly where d doesn't divide n.
///
/// # Conditions
///
/// - the divisor is at least 1
// rust: #[cfg_attr(debug_assertions, track_caller)]
fn exact_quotient_128(n: u128, d: u128) -> Option<u128>
    requires { 1 ≤ d }
    ensures { IsExactQuotient (λ x. x) n d result }
{
    // rust: assert!(d != 0, "the divisor must be at least 1");
    let quotient = n / d;
    if quotient * d == n {
        Some(quotient)
    } else {
        None
    }
}

impl DivExact<u8, ()> for u8 {
    type Output = u8;

    ghost fits = { λ d _. 1 ≤ d };

    // rust: #[cfg_attr(debug_assertions, track_caller)]
    fn div_exact(self, d: u8, _pre: &()) -> Option<u8> {
        exact_quotient(self, d)
    }
}

impl DivExact<u16, ()> for u16 {
    type Output = u16;

    ghost fits = { λ d _. 1 ≤ d };

    // rust: #[cfg_attr(debug_assertions, track_caller)]
    fn div_exact(self, d: u16, _pre: &()) -> Option<u16> {
        exact_quotient(self, d)
    }
}

impl DivExact<u32, ()> for u32 {
    type Output = u32;

    ghost fits = { λ d _. 1 ≤ d };

    // rust: #[cfg_attr(debug_assertions, track_caller)]
    fn div_exact(self, d: u32, _pre: &()) -> Option<u32> {
        exact_quotient(self, d)
    }
}

impl DivExact<u64, ()> for u64 {
    type Output = u64;

    ghost fits = { λ d _. 1 ≤ d };

    // rust: #[cfg_attr(debug_assertions, track_caller)]
    fn div_exact(self, d: u64, _pre: &()) -> Option<u64> {
        exact_quotient(self, d)
    }
}

impl DivExact<u128, ()> for u128 {
    type Output = u128;

    ghost fits = { λ d _. 1 ≤ d };

    // rust: #[cfg_attr(debug_assertions, track_caller)]
    fn div_exact(self, d: u128, _pre: &()) -> Option<u128> {
        exact_quotient_128(self, d)
    }
}

impl DivExactAssign<u8, ()> for u8 {
    // rust: #[cfg_attr(debug_assertions, track_caller)]
    fn div_exact_assign(&mut self, d: u8, pre: &()) -> bool {
        assign_exact(self, d, pre)
    }
}

impl DivExactAssign<u16, ()> for u16 {
    // rust: #[cfg_attr(debug_assertions, track_caller)]
    fn div_exact_assign(&mut self, d: u16, pre: &()) -> bool {
        assign_exact(self, d, pre)
    }
}

impl DivExactAssign<u32, ()> for u32 {
    // rust: #[cfg_attr(debug_assertions, track_caller)]
    fn div_exact_assign(&mut self, d: u32, pre: &()) -> bool {
        assign_exact(self, d, pre)
    }
}

impl DivExactAssign<u64, ()> for u64 {
    // rust: #[cfg_attr(debug_assertions, track_caller)]
    fn div_exact_assign(&mut self, d: u64, pre: &()) -> bool {
        assign_exact(self, d, pre)
    }
}

impl DivExactAssign<u128, ()> for u128 {
    // rust: #[cfg_attr(debug_assertions, track_caller)]
    fn div_exact_assign(&mut self, d: u128, pre: &()) -> bool {
        assign_exact(self, d, pre)
    }
}
