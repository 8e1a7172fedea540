//! Division of a word by a word, by the divisor's multiplier and shift.

ghost use Rattle.std.specs.Prelude.{◌≡◌, ℕ, ◌+◌, ◌-◌, ◌*◌, ◌/◌, ◌^◌, ◌<◌, ◌≤◌};
ghost use Rattle.modular_word.specs.Division.{IsDivision};
ghost use Rattle.modular_word.specs.Reciprocals.{IsMultiplier};
ghost use Rattle.modular_reduced.specs.Powers.{digits};

use modular_prim::plain_word::PlainWord;
// rust: use crate::additions::Divide1by1;
use modular_word::path_word::PathWord;
use modular_word::paths::{div_1by1, ones};
// rattle: line
use modular_word::ring_word::RingWord;

/// For contracts: the divisors that a divider fits.
pub trait FitsDivisor {
    // What is stored divides by this divisor.
    ghost fits: { Self → ℕ → Type 0 };
}

/// The multiplier and the shift of a divisor.
///
/// The divisor itself isn't stored; the caller passes it to each call.
///
/// Source: Granlund and Montgomery, "Division by invariant integers using multiplication", section 4.
///
/// # Examples
///
/// ```
/// use num_modular::PreMulInv1by1;
///
/// const SIXTY: PreMulInv1by1<u32> = PreMulInv1by1::<u32>::new(60);
/// assert_eq!(SIXTY.div_rem(3725, 60), (62, 5));
/// ```
// rust: #[derive(Hash)]
#[derive(Debug, Clone, Copy, PartialEq, Eq)]
// rust: #[must_use]
// rust instead: pub struct PreMulInv1by1<T> {
pub struct PreMulInv1by1<T: PathWord> {
    // rust instead: pub(crate) multiplier: T,
    multiplier: T,
    // rust instead: pub(crate) shift: u32,
    shift: u32,
}

// The number of binary digits of a word.
fn binary_digits<T: PathWord>(x: T) -> u32
    requires { 0 < T.number x }
    ensures value { result ≡ digits (T.number x) }
    ensures at_most { result ≤ T.width }
{
    T::bits() - x.leading_zeros()
}

impl<T: PathWord> FitsDivisor for PreMulInv1by1<T> {
    ghost fits = { λ s d. IsMultiplier T.width T.base d (T.number s.multiplier) s.shift };
}

// rust instead: impl<T: PathWord> Divide1by1<T> for PreMulInv1by1<T> {
impl<T: PathWord> PreMulInv1by1<T> {
    /// Quotient and remainder of a word.
    ///
    /// Source: Granlund and Montgomery, "Division by invariant integers using multiplication", figure 4.1.
    ///
    /// # Conditions
    ///
    /// - (debug) the divider is that of the divisor d
    ///
    /// # Examples
    ///
    /// ```
    /// use num_modular::PreMulInv1by1;
    ///
    /// let seven = PreMulInv1by1::<u8>::new(7);
    /// assert_eq!(seven.div_rem(100, 7), (14, 2));
    /// ```
    // rust: #[cfg_attr(debug_assertions, track_caller)]
    // rust instead: fn div_rem(&self, a: T, d: T) -> (T, T)
    pub fn div_rem(&self, a: T, d: T) -> (T, T)
        requires { ⟦<PreMulInv1by1<T> as FitsDivisor>⟧.fits self.now (T.number d) }
        ensures { IsDivision (T.number a) (T.number d) (T.number result.0) (T.number result.1) }
    {
        // rust: debug_assert!(crate::additions::is_multiplier(self.multiplier, self.shift, d),
        // rust:     "the divider must be that of the divisor d");
        div_1by1(d, self.multiplier, self.shift, a)
    }
}

impl<T: PlainWord> PreMulInv1by1<T> {
    /// The multiplier and the shift of d.
    ///
    /// With n the least number such that d is at most 2^n, and B the base, the multiplier is B·(2^n - d)/d, rounded
    /// down, plus 1, and the shift is n - 1.
    ///
    /// In the Cargo crate this is `of`, for any word type; `new` is the same for a known one.
    ///
    /// Source: Granlund and Montgomery, "Division by invariant integers using multiplication", section 4.
    ///
    /// # Conditions
    ///
    /// - the divisor is above 1
    ///
    /// # Examples
    ///
    /// ```
    /// use num_modular::{Divide1by1, PlainWord, PreMulInv1by1};
    ///
    /// fn remainder_each<T: PlainWord>(numbers: &mut [T], d: T) {
    ///     let divider = PreMulInv1by1::of(d);
    ///     numbers.iter_mut().for_each(|n| *n = divider.div_rem(*n, d).1);
    /// }
    /// let mut numbers = [7u32, 100, 1000];
    /// remainder_each(&mut numbers, 7);
    /// assert_eq!(numbers, [0, 2, 6]);
    /// ```
    // rust: #[track_caller]
    // rust instead: pub fn of(d: T) -> Self
    pub fn new(d: T) -> Self
        requires { 1 < T.number d }
        ensures { ⟦<PreMulInv1by1<T> as FitsDivisor>⟧.fits result (T.number d) }
    {
        prove!(!d.half().is_zero_word());
        // rust: assert!(!d.half().is_zero_word(), "the divisor must be above 1");
        let less = d.minus(T::one());
        let n = binary_digits(less);
        let gap = ones::<T>(n).minus(less);
        let quotient = T::low_quotient(T::merge(T::zero(), gap), d);
        PreMulInv1by1 {
            multiplier: quotient.plus(T::one()),
            shift: n - 1,
        }
    }
}
