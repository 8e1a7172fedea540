//! The reducer of odd moduli that are known at run time, by Montgomery's representation.

ghost use Rattle.std.specs.Prelude.{◌≡◌, ◌%◌, MatchOption};

use crate::odd_ring::{OddModulus, OddRing, StoredModulus};
use modular_prim::reducer_word::ReducerWord;
// rattle: line
use modular_reduced::reducer::Reducer;
// rattle: line
use modular_word::ring_word::RingWord;

/// The reducer of an odd m: Montgomery's representation, with the base 2 to the width of the words.
///
/// The form of v is v times the base, modulo m. `new` accepts odd moduli alone.
///
/// Use it where m is known to be odd: its forms and results are those of `Montgomery`, which accepts every m and tests in
/// each operation whether m is even. For a modulus that the compiler knows, `FixedMontgomery64` and the other fixed
/// reducers are faster.
///
/// Source: Handbook of Applied Cryptography, section 14.3.2.
///
/// # Examples
///
/// ```
/// use num_modular::{OddMontgomery, Reducer};
///
/// const RING: OddMontgomery<u64> = OddMontgomery::<u64>::new(101);
/// let seven = RING.transform(7);
/// assert_eq!(RING.residue(RING.pow(seven, &100)), 1);
/// ```
pub type OddMontgomery<T> = OddRing<T, StoredModulus<T>>;

impl<T: ReducerWord> OddRing<T, StoredModulus<T>> {
    /// The reducer of an odd m.
    ///
    /// In the Cargo crate this is `of`, for any word type; `new` is the same for a known one.
    ///
    /// # Conditions
    ///
    /// - the modulus is odd
    ///
    /// # Examples
    ///
    /// ```
    /// use num_modular::{OddMontgomery, Reducer};
    ///
    /// let ring = OddMontgomery::of(97u8);
    /// assert_eq!(ring.residue(ring.sqr(ring.transform(10))), 3); // 100 - 97
    /// ```
    // rust: #[track_caller]
    // rust instead: pub fn of(m: T) -> Self
    pub fn new(m: T) -> Self
        requires { T.number m % 2 ≡ 1 }
        ensures { ⟦<OddMontgomery<T> as Reducer<T>>⟧.modulus result ≡ T.number m }
    {
        OddRing::over(StoredModulus::keep(m))
    }

    /// The reducer of m; `None` exactly where m is even.
    ///
    /// # Examples
    ///
    /// ```
    /// use num_modular::{OddMontgomery, Reducer};
    ///
    /// assert_eq!(OddMontgomery::checked_new(97u8).map(|ring| ring.modulus()), Some(97));
    /// assert!(OddMontgomery::checked_new(96u8).is_none());
    /// ```
    pub fn checked_new(m: T) -> Option<Self>
        ensures { MatchOption result (T.number m % 2 ≡ 1 → ⊥)
            (λ r. ⟦<OddMontgomery<T> as Reducer<T>>⟧.modulus r ≡ T.number m) }
    {
        if !m.is_odd() {
            return None;
        }
        // rust instead: Some(OddMontgomery::of(m))
        Some(OddMontgomery::new(m))
    }
}
