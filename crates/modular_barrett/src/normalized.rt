//! Division of a word and of a double word by a divisor whose top bit is set, by the divisor's reciprocal.

ghost use Rattle.std.specs.Prelude.{◌≡◌, ℕ, ◌*◌, ◌<◌, ◌≤◌, ⊤};
ghost use Rattle.modular_word.specs.Division.{IsDivision};
ghost use Rattle.modular_word.specs.Reciprocals.{IsReciprocal};

// rust: use crate::additions::Divide2by1;
use modular_prim::plain_word::PlainWord;
// rust instead: use crate::modular_prim::reciprocal::invert_word;
use modular_prim::reciprocal;
use modular_word::path_word::PathWord;
use modular_word::paths::div_2by1;
// rattle: line
use modular_word::ring_word::RingWord;
// rattle: line
use std::alloc::AllocError;

// rust: crate::additions::with_constants! {
// Quotient and remainder of a word by a divisor whose top bit is set.
fn divide_word<T: PathWord>(d: T, a: T) -> (T, T)
    requires { T.base ≤ 2 * T.number d }
    ensures { IsDivision (T.number a) (T.number d) (T.number result.0) (T.number result.1) }
{
    if a.is_below(d) {
        (T::zero(), a)
    } else {
        (T::one(), a.minus(d))
    }
}
// rust: }

/// For contracts: the divisor of a divider.
pub trait StoredDivisor {
    // The divisor that is stored.
    ghost divisor: { Self → ℕ };
}

/// A divisor whose top bit is set, with its reciprocal: the divisor d and the word v where, with B the base, (v + B)·d
/// is B² - k for a k from 1 to d.
///
/// Source: Möller and Granlund, "Improved division by invariant integers".
///
/// # Examples
///
/// ```
/// use num_modular::Normalized2by1Divisor;
///
/// let divisor = Normalized2by1Divisor::<u8>::new(200);
/// assert_eq!(divisor.div_rem_2by1(1234), (6, 34)); // 6 * 200 + 34
/// ```
// rust: #[derive(Hash)]
#[derive(Debug, PartialEq, Eq)]
// rust: #[must_use]
// rust instead: pub struct Normalized2by1Divisor<T> {
pub struct Normalized2by1Divisor<T: PathWord> {
    // rust instead: pub(crate) divisor: T,
    divisor: T,
    // rust instead: pub(crate) reciprocal: T,
    reciprocal: T,
    pub ghost reciprocal_is: { IsReciprocal T.base (T.number divisor) (T.number reciprocal) },
}

impl<T: PathWord> Clone for Normalized2by1Divisor<T> {
    ghost is_clone = { λ x y. y ≡ x };

    ghost is_infallible = { λ _. ⊤ };

    // rust instead: fn clone(&self) -> Self {
    fn clone(&self) -> Result<Self, AllocError> {
        // rust instead: *self
        Ok(*self)
    }
}

impl<T: PathWord> Copy for Normalized2by1Divisor<T> {}

impl<T: PathWord> StoredDivisor for Normalized2by1Divisor<T> {
    ghost divisor = { λ s. T.number s.divisor };
}

impl<T: PathWord> Normalized2by1Divisor<T> {
    /// The divisor.
    ///
    /// # Examples
    ///
    /// ```
    /// use num_modular::Normalized2by1Divisor;
    ///
    /// assert_eq!(Normalized2by1Divisor::<u8>::new(200).divisor(), 200);
    /// ```
    pub const fn divisor(&self) -> T
        ensures { T.number result ≡ ⟦<Normalized2by1Divisor<T> as StoredDivisor>⟧.divisor self.now }
    {
        self.divisor
    }

    // rust: }
    // rust:
    // rust: impl<T: PathWord> Divide2by1<T> for Normalized2by1Divisor<T> {
    /// Quotient and remainder of a word.
    ///
    /// The quotient is 0 or 1, because the divisor's top bit is set.
    ///
    /// # Examples
    ///
    /// ```
    /// use num_modular::Normalized2by1Divisor;
    ///
    /// let divisor = Normalized2by1Divisor::<u8>::new(200);
    /// assert_eq!(divisor.div_rem_1by1(234), (1, 34));
    /// assert_eq!(divisor.div_rem_1by1(34), (0, 34));
    /// ```
    // rust instead: fn div_rem_1by1(&self, a: T) -> (T, T)
    pub fn div_rem_1by1(&self, a: T) -> (T, T)
        ensures { let d = ⟦<Normalized2by1Divisor<T> as StoredDivisor>⟧.divisor self.now in
            IsDivision (T.number a) d (T.number result.0) (T.number result.1) }
    {
        divide_word(self.divisor, a)
    }

    /// Quotient and remainder of a double word.
    ///
    /// # Conditions
    ///
    /// - (debug) the dividend's high word is below the divisor
    ///
    /// # Examples
    ///
    /// ```
    /// use num_modular::Normalized2by1Divisor;
    ///
    /// let divisor = Normalized2by1Divisor::<u32>::new(4_000_000_000);
    /// assert_eq!(divisor.div_rem_2by1(12_000_000_005), (3, 5));
    /// ```
    // rust: #[cfg_attr(debug_assertions, track_caller)]
    // rust instead: fn div_rem_2by1(&self, a: T::Double) -> (T, T)
    pub fn div_rem_2by1(&self, a: T::Double) -> (T, T)
        requires { T.double_number a < ⟦<Normalized2by1Divisor<T> as StoredDivisor>⟧.divisor self.now * T.base }
        ensures { let d = ⟦<Normalized2by1Divisor<T> as StoredDivisor>⟧.divisor self.now in
            IsDivision (T.double_number a) d (T.number result.0) (T.number result.1) }
    {
        prove!(T::split(a).1.is_below(self.divisor));
        // rust: debug_assert!(T::split(a).1.is_below(self.divisor),
        // rust:     "the dividend's high word must be below the divisor");
        div_2by1(self.divisor, self.reciprocal, a)
    }
}

impl<T: PlainWord> Normalized2by1Divisor<T> {
    // rattle: item
    /// The reciprocal of d.
    ///
    /// # Conditions
    ///
    /// - (debug) the divisor's top bit is set
    ///
    /// # Examples
    ///
    /// ```
    /// use num_modular::Normalized2by1Divisor;
    ///
    /// // (71 + 256) * 200 = 65400, which is 65536 less 136
    /// assert_eq!(Normalized2by1Divisor::<u8>::invert_word(200), 71);
    /// ```
    pub fn invert_word(d: T) -> T
        requires { T.base ≤ 2 * T.number d }
        ensures { IsReciprocal T.base (T.number d) (T.number result) }
    {
        reciprocal::invert_word(d)
    }

    /// A divisor with its reciprocal.
    ///
    /// In the Cargo crate this is `of`, for any word type; `new` is the same for a known one.
    ///
    /// # Conditions
    ///
    /// - the divisor's top bit is set
    ///
    /// # Examples
    ///
    /// ```
    /// use num_modular::{Divide2by1, Normalized2by1Divisor, PlainWord};
    ///
    /// fn last_digits<T: PlainWord>(divisor: T, n: T) -> T {
    ///     Normalized2by1Divisor::of(divisor).div_rem_1by1(n).1
    /// }
    /// assert_eq!(last_digits(200u8, 234), 34);
    /// ```
    // rust: #[track_caller]
    // rust instead: pub fn of(d: T) -> Self
    pub fn new(d: T) -> Self
        requires { T.base ≤ 2 * T.number d }
        ensures { ⟦<Normalized2by1Divisor<T> as StoredDivisor>⟧.divisor result ≡ T.number d }
    {
        prove!(T::zero().wrapping_sub(T::one()).half().is_below(d));
        // rust: assert!(T::zero().wrapping_sub(T::one()).half().is_below(d), "the divisor's top bit must be set");
        Normalized2by1Divisor {
            divisor: d,
            // rust instead: reciprocal: invert_word(d),
            reciprocal: Self::invert_word(d),
        }
    }
}
