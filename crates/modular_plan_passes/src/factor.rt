//! Factors with a precomputed quotient, and the entries of a table of them: factors, or structs of the caller that
//! represent them.

ghost use Rattle.std.specs.Prelude.{◌≡◌, ℕ, ◌↔◌, IsTrue, ⊤};

use modular_word::path_word::PathWord;
// rattle: line
use modular_word::ring_word::RingWord;
// rattle: line
use std::alloc::AllocError;

/// A factor modulo m: a number w below m, and its quotient w·B/m, rounded down, with B the base.
///
/// `PlannedModulus::factor` makes one for its modulus. Another modulus needs a factor of its own. The type doesn't
/// guarantee that the two numbers and a modulus belong together; calls that multiply by the factor require it.
///
/// Source: Harvey, "Faster arithmetic for number-theoretic transforms", section 3, after Shoup.
///
/// # Examples
///
/// ```
/// use num_modular::plans::PlannedModulus;
///
/// let factor = PlannedModulus::<u8>::new(17).factor(3);
/// assert_eq!((factor.value(), factor.quotient()), (3, 45)); // 3 * 256 = 45 * 17 + 3
/// ```
// rust: #[derive(Hash)]
#[derive(Debug, PartialEq, Eq)]
// rust: #[must_use]
// rust instead: pub struct Factor<T> {
pub struct Factor<T: PathWord> {
    /// The number w, below the modulus m that the factor was made for.
    // rust instead: pub(crate) value: T,
    pub value: T,
    /// The quotient w·B/m, rounded down.
    // rust instead: pub(crate) quotient: T,
    pub quotient: T,
}

impl<T: PathWord> Clone for Factor<T> {
    ghost is_clone = { λ x y. y ≡ x };

    ghost is_infallible = { λ _. ⊤ };

    // rust instead: fn clone(&self) -> Self {
    fn clone(&self) -> Result<Self, AllocError> {
        // rust instead: *self
        Ok(*self)
    }
}

impl<T: PathWord> Copy for Factor<T> {}

impl<T: PathWord> Factor<T> {
    /// Whether the factor is 1.
    ///
    /// # Examples
    ///
    /// ```
    /// use num_modular::plans::PlannedModulus;
    ///
    /// let modulus = PlannedModulus::<u64>::new(97);
    /// assert!(modulus.factor(1).is_one());
    /// assert!(!modulus.factor(2).is_one());
    /// ```
    pub fn is_one(&self) -> bool
        ensures { IsTrue result ↔ (T.number self.now.value ≡ 1) }
    {
        self.value == T::one()
    }
}

/// An entry of a table of factors: [`Factor`] itself, or another struct of two words, such as one with the layout of
/// another language.
///
/// # Examples
///
/// ```
/// use num_modular::plans::{Factor, Plan, PlanEntry, PlannedModulus};
///
/// #[derive(Clone, Copy)]
/// struct Entry(Factor<u64>);
///
/// impl PlanEntry<u64> for Entry {
///     fn factor(&self) -> Factor<u64> {
///         self.0
///     }
///     fn entry(factor: Factor<u64>) -> Self {
///         Entry(factor)
///     }
/// }
///
/// let mut table = [Entry(Factor::ZERO); 2];
/// assert!(Plan::new(&PlannedModulus::<u64>::new(17), 4, &mut table).is_some());
/// ```
pub trait PlanEntry<T: PathWord>: Copy {
    // The factor of the entry.
    ghost value: { Self → ℕ };

    // Its quotient.
    ghost quotient: { Self → ℕ };

    /// The entry as a factor.
    ///
    /// # Examples
    ///
    /// ```
    /// use num_modular::plans::{PlanEntry, PlannedModulus};
    ///
    /// let factor = PlannedModulus::<u64>::new(17).factor(3);
    /// assert_eq!(PlanEntry::factor(&factor), factor);
    /// ```
    fn factor(&self) -> Factor<T>
        ensures value { T.number result.value ≡ value self.now }
        ensures quotient { T.number result.quotient ≡ quotient self.now };

    /// The entry of a factor.
    ///
    /// # Examples
    ///
    /// ```
    /// use num_modular::plans::{Factor, PlanEntry, PlannedModulus};
    ///
    /// let factor = PlannedModulus::<u64>::new(17).factor(3);
    /// assert_eq!(Factor::<u64>::entry(factor), factor);
    /// ```
    // rust: #[must_use]
    fn entry(factor: Factor<T>) -> Self
        ensures value { value result ≡ T.number factor.value }
        ensures quotient { quotient result ≡ T.number factor.quotient };
}

impl<T: PathWord> PlanEntry<T> for Factor<T> {
    ghost value = { λ f. T.number f.value };

    ghost quotient = { λ f. T.number f.quotient };

    fn factor(&self) -> Factor<T> {
        *self
    }

    fn entry(factor: Factor<T>) -> Factor<T>
        ensures value { T.number result.value ≡ T.number factor.value }
        ensures quotient { T.number result.quotient ≡ T.number factor.quotient }
    {
        factor
    }
}
