//! The reducer of a modulus near a power of two, written once: the form of a value is the value itself.

ghost use Rattle.std.specs.Prelude.{◌≡◌, ℕ, ◌*◌, ◌%◌, ◌<◌};
ghost use Rattle.modular_reduced.specs.Forms.{IsCanonical};
ghost use Rattle.modular_reduced.specs.Plain.{plain_form, plain_value};

use crate::folds::FoldedWord;
use modular_prim::below::{add_below, dbl_below, neg_below, sub_below};
use modular_prim::reducer_word::ReducerWord;
use modular_reduced::reducer::Reducer;
// rattle: line
use modular_word::path_word::PathWord;
// rattle: line
use modular_word::ring_word::RingWord;
use std::marker::PhantomData;

/// A modulus near a power of two: the parameters of the type give its value, and how words and products are reduced by
/// it.
///
/// A value of the type exists only for parameters in range.
///
/// # Examples
///
/// ```
/// use num_modular::families::{FoldModulus, FoldRing};
/// use num_modular::{FixedMersenne64, FixedTrinomialSolinas64, Reducer};
///
/// fn inverse_of_two<M: FoldModulus<u64>>(ring: &FoldRing<u64, M>) -> Option<u64> {
///     ring.inv(2)
/// }
/// assert_eq!(inverse_of_two(&FixedMersenne64::<61, 1>::RING), Some(1 << 60));
/// assert_eq!(inverse_of_two(&FixedTrinomialSolinas64::<5, 4, -3>::RING), Some(7)); // modulo 13
/// ```
pub trait FoldModulus<T: FoldedWord>: Copy {
    // The moduli that the type admits.
    ghost admits: { ℕ → Type 0 };

    ghost modulus: { Self → ℕ };

    /// The modulus of the parameters.
    ///
    /// # Conditions
    ///
    /// - the modulus is that of the parameters, and these are in range
    ///
    /// # Examples
    ///
    /// ```
    /// use num_modular::families::{FoldModulus, Mersenne32};
    ///
    /// assert_eq!(Mersenne32::<31, 1>::keep(2147483647).modulus(), 2147483647);
    /// ```
    // rust: #[must_use]
    // rust: #[track_caller]
    fn keep(m: T) -> Self
        requires { admits (T.number m) }
        ensures { modulus result ≡ T.number m };

    /// The modulus.
    ///
    /// # Examples
    ///
    /// ```
    /// use num_modular::families::{FoldModulus, Mersenne32};
    ///
    /// assert_eq!(Mersenne32::<8, 5>::keep(251).modulus(), 251); // 2^8 - 5
    /// ```
    fn modulus(&self) -> T
        ensures { T.number result ≡ modulus self.now };

    /// The residue of a word.
    ///
    /// # Examples
    ///
    /// ```
    /// use num_modular::families::{FoldModulus, Mersenne32};
    ///
    /// assert_eq!(Mersenne32::<8, 5>::keep(251).reduced(1000), 247); // 1000 - 3 * 251
    /// ```
    fn reduced(&self, n: T) -> T
        ensures { T.number result ≡ T.number n % modulus self.now };

    /// The residue of a product.
    ///
    /// # Preconditions
    ///
    /// - both factors are below the modulus
    ///
    /// # Examples
    ///
    /// ```
    /// use num_modular::families::{FoldModulus, Mersenne32};
    ///
    /// assert_eq!(Mersenne32::<8, 5>::keep(251).product(16, 16), 5); // 256 - 251
    /// ```
    fn product(&self, a: T, b: T) -> T
        requires left { T.number a < modulus self.now }
        requires right { T.number b < modulus self.now }
        ensures { T.number result ≡ (T.number a * T.number b) % modulus self.now };

    ghost admitted: { (m : Self) → admits (modulus m) };

    ghost canonical: { (m : Self) → IsCanonical plain_form plain_value T.width (modulus m) };
}

/// The reducer of a [`FoldModulus`]: one near a power of two, over words T, with the value itself as the form of a
/// value.
///
/// It stores nothing, and `new` accepts only the modulus of the parameters.
///
/// # Examples
///
/// ```
/// use num_modular::families::{FoldModulus, FoldRing};
/// use num_modular::{FixedMersenne32, FixedTrinomialSolinas32, Reducer};
///
/// fn cube<M: FoldModulus<u32>>(ring: &FoldRing<u32, M>, n: u32) -> u32 {
///     ring.residue(ring.pow(ring.transform(n), &3))
/// }
/// assert_eq!(cube(&FixedMersenne32::<8, 5>::RING, 10), 247); // 1000 modulo 251
/// assert_eq!(cube(&FixedTrinomialSolinas32::<5, 4, -3>::RING, 10), 12); // 1000 modulo 13
/// ```
// rust instead: #[derive(Clone, Copy)]
#[derive(Debug, Clone, Copy)]
// rust: #[must_use]
// rust instead: pub struct FoldRing<T, M> {
pub struct FoldRing<T: FoldedWord, M: FoldModulus<T>> {
    // rust instead: pub(crate) word: PhantomData<T>,
    word: PhantomData<T>,
    // rust instead: pub(crate) kept: M,
    kept: M,
}

impl<T: FoldedWord + ReducerWord, M: FoldModulus<T>> Reducer<T> for FoldRing<T, M> {
    ghost admits = { M.admits };

    ghost form = { plain_form };

    ghost value = { plain_value };

    ghost modulus = { λ r. M.modulus r.kept };

    ghost admitted = { λ r. M.admitted r.kept };

    ghost canonical = { λ r. M.canonical r.kept };

    // rust: #[track_caller]
    fn new(m: &T) -> Self {
        FoldRing {
            word: PhantomData,
            kept: M::keep(*m),
        }
    }

    fn transform(&self, n: T) -> T {
        self.kept.reduced(n)
    }

    fn check(&self, f: &T) -> bool {
        f.is_below(self.kept.modulus())
    }

    fn modulus(&self) -> T {
        self.kept.modulus()
    }

    fn residue(&self, f: T) -> T {
        f
    }

    fn is_zero(&self, f: &T) -> bool {
        f.is_zero_word()
    }

    fn add(&self, a: &T, b: &T) -> T {
        add_below(*a, *b, self.kept.modulus())
    }

    fn dbl(&self, f: T) -> T {
        dbl_below(f, self.kept.modulus())
    }

    fn sub(&self, a: &T, b: &T) -> T {
        sub_below(*a, *b, self.kept.modulus())
    }

    fn neg(&self, f: T) -> T {
        neg_below(f, self.kept.modulus())
    }

    fn mul(&self, a: &T, b: &T) -> T {
        self.kept.product(*a, *b)
    }

    fn inv(&self, f: T) -> Option<T> {
        T::inverse_by_euclid(f, self.kept.modulus())
    }

    fn sqr(&self, f: T) -> T {
        self.kept.product(f, f)
    }
    // rust: crate::additions::reducer_members!(T);
}
