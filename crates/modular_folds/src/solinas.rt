//! The reducers of the moduli 2^P1 - 2^P2 + K.

ghost use Rattle.std.specs.Prelude.{◌≡◌, ℕ, ℤ, ◌+◌, ◌*◌, ◌/◌, ◌%◌, ◌^◌, ◌<◌, ◌≤◌, ◌↔◌, IsTrue, pos, ◌+ℤ◌, ◌-ℤ◌, ⊤};
ghost use Rattle.std.proofs.Common.{lit≤, refl};
ghost use Rattle.modular_reduced.specs.Plain.{plain_form, plain_value};
ghost use Rattle.modular_folds.specs.Folds.{folds, IsFewFolds};
ghost use Rattle.modular_folds.specs.Solinas.{IsTrinomialRange, IsTrinomial};
ghost use Rattle.modular_folds.specs.Solinas.{IsLowTrinomial, trinomial, trinomial_factor};
ghost use Rattle.modular_folds.specs.SolinasLaws.{trinomial_canonical};

use crate::folds::{FoldedWord, reduce_by_folds, reduce_double_word};
use crate::products::{reduce_product, reduce_word};
use crate::rings::{FoldModulus, FoldRing};
use modular_prim::plain_word::PlainWord;
// rattle: line
use modular_word::path_word::PathWord;
// rattle: line
use modular_word::ring_word::RingWord;
// rattle: line
use std::alloc::AllocError;
use std::marker::PhantomData;

/// A trinomial 2^p1 - 2^p2 + k, as a type.
///
/// # Examples
///
/// ```
/// use num_modular::families::{Trinomial, Trinomial32};
///
/// fn value<F: Trinomial>() -> i128 {
///     (1 << F::p1()) - (1 << F::p2()) + i128::from(F::k())
/// }
/// assert_eq!(value::<Trinomial32<16, 8, 1>>(), 65281); // 65536 - 256 + 1
/// ```
// rust instead: pub trait Trinomial: Sized {
pub trait Trinomial {
    // The numbers of a type, because an invariant can't mention a signed constant parameter.
    ghost p1: { ℕ };

    ghost p2: { ℕ };

    ghost k: { ℤ };

    // rust: #[doc(hidden)]
    // rust: const IN_RANGE: () = ();
    // rust:
    /// The greater exponent.
    ///
    /// # Examples
    ///
    /// ```
    /// use num_modular::families::{Trinomial, Trinomial32};
    ///
    /// assert_eq!(Trinomial32::<16, 8, 1>::p1(), 16);
    /// ```
    fn p1() -> u8
        ensures { result ≡ p1 };

    /// The lower exponent.
    ///
    /// # Examples
    ///
    /// ```
    /// use num_modular::families::{Trinomial, Trinomial32};
    ///
    /// assert_eq!(Trinomial32::<16, 8, 1>::p2(), 8);
    /// ```
    fn p2() -> u8
        ensures { result ≡ p2 };

    /// The last term.
    ///
    /// # Examples
    ///
    /// ```
    /// use num_modular::families::{Trinomial, Trinomial32};
    ///
    /// assert_eq!(Trinomial32::<5, 4, -3>::k(), -3);
    /// ```
    fn k() -> i64
        ensures { result ≡ k };
}

/// The trinomial 2^P1 - 2^P2 + K: for words of 32 bits.
///
/// # Examples
///
/// ```
/// use num_modular::families::{Trinomial32, TrinomialSolinas};
///
/// assert_eq!(TrinomialSolinas::<u32, Trinomial32<16, 8, 1>>::MODULUS, 65281); // 65536 - 256 + 1
/// ```
#[derive(Debug, Clone, Copy)]
// rust: #[must_use]
pub struct Trinomial32<const P1: u8, const P2: u8, const K: i32> {}

impl<const P1: u8, const P2: u8, const K: i32> Trinomial for Trinomial32<P1, P2, K> {
    ghost p1 = { P1 };

    ghost p2 = { P2 };

    ghost k = { K };

    // rust: const IN_RANGE: () = {
    // rust:     let _tested = crate::FixedTrinomialSolinas32::<P1, P2, K>::MODULUS;
    // rust: };
    // rust:
    fn p1() -> u8 {
        P1
    }

    fn p2() -> u8 {
        P2
    }

    fn k() -> i64 {
        K as i64
    }
}

/// The trinomial 2^P1 - 2^P2 + K: for words of 64 bits.
///
/// # Examples
///
/// ```
/// use num_modular::families::{Trinomial64, TrinomialSolinas};
///
/// assert_eq!(TrinomialSolinas::<u64, Trinomial64<64, 32, 1>>::MODULUS, 0xffff_ffff_0000_0001);
/// ```
#[derive(Debug, Clone, Copy)]
// rust: #[must_use]
pub struct Trinomial64<const P1: u8, const P2: u8, const K: i64> {}

impl<const P1: u8, const P2: u8, const K: i64> Trinomial for Trinomial64<P1, P2, K> {
    ghost p1 = { P1 };

    ghost p2 = { P2 };

    ghost k = { K };

    // rust: const IN_RANGE: () = {
    // rust:     let _tested = crate::FixedTrinomialSolinas64::<P1, P2, K>::MODULUS;
    // rust: };
    // rust:
    fn p1() -> u8 {
        P1
    }

    fn p2() -> u8 {
        P2
    }

    fn k() -> i64 {
        K
    }
}

// The factor of a fold at the bit p1: 2^p2 - k.
fn factor_of(p1: u8, p2: u8, k: i64) -> u64
    requires { IsTrinomialRange 64 p1 p2 k }
    ensures { result + trinomial p1 p2 k ≡ 2 ^ p1 }
{
    // rust: let _ = p1;
    ((1u64 << p2) as i128 - k as i128) as u64
}

fn modulus_of(p1: u8, p2: u8, k: i64) -> u64
    requires { IsTrinomialRange 64 p1 p2 k }
    ensures { result ≡ trinomial p1 p2 k }
{
    ((1u128 << p1) - factor_of(p1, p2, k) as u128) as u64
}

// Whether the modulus is less than half of 2^p1. Such a modulus could need very many folds, and many subtractions
// after them.
fn is_low(p1: u8, p2: u8, k: i64) -> bool
    requires { IsTrinomialRange 64 p1 p2 k }
    ensures { IsTrue result ↔ IsLowTrinomial p1 p2 k }
{
    p1 == p2 + 1 && k < 0
}

/// A word that has trinomial reducers: u32 or u64.
// rust instead: pub trait TrinomialWord: Sized + FoldedWord + PlainWord {
pub trait TrinomialWord: FoldedWord + PlainWord {
    /// The word of a given number.
    ///
    /// # Preconditions
    ///
    /// - the number fits the word
    // rust: #[must_use]
    fn word_of(n: u64) -> Self
        requires { n < Self.base }
        ensures { Self.number result ≡ n };

    // A word has at most 64 bits.
    ghost narrow: { Self.width ≤ 64 };
}

impl TrinomialWord for u32 {
    fn word_of(n: u64) -> u32 {
        n as u32
    }

    ghost narrow = { lit≤ tt };
}

impl TrinomialWord for u64 {
    fn word_of(n: u64) -> u64 {
        n
    }

    ghost narrow = { lit≤ tt };
}

/// The modulus of a trinomial: that of F, 2^p1 - 2^p2 + k, over words T.
///
/// # Examples
///
/// ```
/// use num_modular::families::{FoldModulus, Trinomial32, TrinomialModulus};
///
/// let kept = TrinomialModulus::<u32, Trinomial32<16, 8, 1>>::keep(65281);
/// assert_eq!(kept.reduced(65536), 255); // 2^8 - 1
/// ```
// rust instead: #[must_use]
#[derive(Debug)]
// rust instead: pub struct TrinomialModulus<T, F> {
pub struct TrinomialModulus<T: TrinomialWord, F: Trinomial> {
    // rust instead: pub(crate) word: PhantomData<T>,
    word: PhantomData<T>,
    // rust instead: pub(crate) parameters: PhantomData<F>,
    parameters: PhantomData<F>,
    ghost range: { IsTrinomialRange T.width F.p1 F.p2 F.k },
}

/// The reducer of a trinomial: that of the modulus m = 2^p1 - 2^p2 + k of F, over words T, with the value itself as the
/// form of a value.
///
/// It stores nothing.
///
/// The parameters are in range where p1 is at most the width of T, p2 is from 1 to p1 - 1, and k is odd with a
/// magnitude below 2^p2. Words and products are reduced by folds, except where p1 = p2 + 1 and k is negative: m is
/// then less than half of 2^p1, and the remainder is a division's. `inv` divides by Euclid's algorithm.
///
/// Source: Solinas, "Generalized Mersenne numbers" (1999).
///
/// # Examples
///
/// ```
/// use num_modular::families::{Trinomial64, TrinomialSolinas};
///
/// type Goldilocks = TrinomialSolinas<u64, Trinomial64<64, 32, 1>>;
/// assert_eq!(Goldilocks::MODULUS, 0xffff_ffff_0000_0001);
/// ```
pub type TrinomialSolinas<T, F> = FoldRing<T, TrinomialModulus<T, F>>;

/// The reducer of 2^P1 - 2^P2 + K: the modulus has at most 32 bits.
///
/// # Examples
///
/// ```
/// use num_modular::{FixedTrinomialSolinas32, Reducer};
///
/// // 2^16 - 2^8 + 1 = 65281, and 300 * 300 = 65281 + 24719
/// const RING: FixedTrinomialSolinas32<16, 8, 1> = FixedTrinomialSolinas32::<16, 8, 1>::RING;
/// assert_eq!(RING.sqr(300), 24719);
/// ```
pub type FixedTrinomialSolinas32<const P1: u8, const P2: u8, const K: i32> = TrinomialSolinas<
    u32,
    Trinomial32<P1, P2, K>,
>;

/// The reducer of 2^P1 - 2^P2 + K: the modulus has at most 64 bits.
///
/// # Examples
///
/// ```
/// use num_modular::{FixedTrinomialSolinas64, Reducer};
///
/// type Goldilocks = FixedTrinomialSolinas64<64, 32, 1>;
/// assert_eq!(Goldilocks::RING.mul(&(1 << 32), &(1 << 32)), (1 << 32) - 1);
/// ```
pub type FixedTrinomialSolinas64<const P1: u8, const P2: u8, const K: i64> = TrinomialSolinas<
    u64,
    Trinomial64<P1, P2, K>,
>;

impl<T: TrinomialWord, F: Trinomial> Clone for TrinomialModulus<T, F> {
    ghost is_clone = { λ x y. y ≡ x };

    ghost is_infallible = { λ _. ⊤ };

    // rust instead: fn clone(&self) -> Self {
    fn clone(&self) -> Result<Self, AllocError> {
        // rust instead: *self
        Ok(*self)
    }
}

impl<T: TrinomialWord, F: Trinomial> Copy for TrinomialModulus<T, F> {}

impl<T: TrinomialWord, F: Trinomial> FoldRing<T, TrinomialModulus<T, F>> {
    // The factor of a fold at the bit p1.
    fn factor() -> T
        requires { IsTrinomialRange T.width F.p1 F.p2 F.k }
        ensures { T.number result + trinomial F.p1 F.p2 F.k ≡ 2 ^ F.p1 }
    {
        T::word_of(factor_of(F::p1(), F::p2(), F::k()))
    }

    /// The modulus.
    ///
    /// # Conditions
    ///
    /// - P1 is at most the width of a word, and P2 is from 1 to P1 - 1
    /// - K is odd, and its magnitude is below 2^P2
    ///
    /// # Examples
    ///
    /// ```
    /// use num_modular::{FixedTrinomialSolinas32, FixedTrinomialSolinas64};
    ///
    /// assert_eq!(FixedTrinomialSolinas32::<5, 4, -3>::fixed_modulus(), 13); // 32 - 16 - 3
    /// assert_eq!(FixedTrinomialSolinas64::<64, 32, 1>::fixed_modulus(), 0xffff_ffff_0000_0001);
    /// ```
    // rust: #[track_caller]
    pub fn fixed_modulus() -> T
        requires { IsTrinomialRange T.width F.p1 F.p2 F.k }
        ensures value { T.number result ≡ trinomial F.p1 F.p2 F.k }
        ensures whole { pos (T.number result) ≡ (pos (2 ^ F.p1) -ℤ pos (2 ^ F.p2)) +ℤ F.k }
    {
        prove!(F::p1() as u32 <= T::bits() && 0 < F::p2() && F::p2() < F::p1());
        // rust: assert!(F::p1() as u32 <= T::bits() && 0 < F::p2() && F::p2() < F::p1(),
        // rust:     "P1 must be at most the width of a word, and P2 must be from 1 to P1 - 1");
        prove!(F::k().unsigned_abs() % 2 == 1 && F::k().unsigned_abs() < 1 << F::p2());
        // rust: assert!(F::k().unsigned_abs() % 2 == 1 && F::k().unsigned_abs() < 1 << F::p2(),
        // rust:     "K must be odd, and its magnitude must be below 2^P2");
        T::word_of(modulus_of(F::p1(), F::p2(), F::k()))
    }

    /// The residue of a word.
    ///
    /// # Preconditions
    ///
    /// - the parameters are in range
    ///
    /// # Examples
    ///
    /// ```
    /// use num_modular::FixedTrinomialSolinas32;
    ///
    /// assert_eq!(FixedTrinomialSolinas32::<16, 8, 1>::reduce_single(1 << 16), 255); // 2^8 - 1
    /// ```
    // rust: #[track_caller]
    // rust instead: pub(crate) fn reduced_word(v: T) -> T
    pub fn reduce_single(v: T) -> T
        requires { IsTrinomialRange T.width F.p1 F.p2 F.k }
        ensures { T.number result ≡ T.number v % trinomial F.p1 F.p2 F.k }
    {
        Self::reduce_counted(T::merge(v, T::zero())).0
    }

    /// The residue of a double word.
    ///
    /// # Conditions
    ///
    /// - the parameters are in range
    ///
    /// # Examples
    ///
    /// ```
    /// use num_modular::FixedTrinomialSolinas64;
    ///
    /// type Goldilocks = FixedTrinomialSolinas64<64, 32, 1>;
    /// assert_eq!(Goldilocks::reduce_double(1 << 64), (1 << 32) - 1);
    /// ```
    // rust: #[track_caller]
    pub fn reduce_double(v: T::Double) -> T
        requires { IsTrinomialRange T.width F.p1 F.p2 F.k }
        ensures { T.number result ≡ T.double_number v % trinomial F.p1 F.p2 F.k }
    {
        Self::reduce_counted(v).0
    }

    /// The residue of a double word, as `reduce_double` returns it, by folds that nothing counts: in straight-line code
    /// for a product of two residues, and at bits above p1 first for a modulus that isn't near 2^p1.
    ///
    /// That takes less time.
    ///
    /// # Conditions
    ///
    /// - the parameters are in range
    ///
    /// # Examples
    ///
    /// ```
    /// use num_modular::FixedTrinomialSolinas64;
    ///
    /// type Goldilocks = FixedTrinomialSolinas64<64, 32, 1>;
    /// assert_eq!(Goldilocks::reduce_uncounted(1 << 64), (1 << 32) - 1);
    /// ```
    // rust: #[track_caller]
    pub fn reduce_uncounted(v: T::Double) -> T
        requires { IsTrinomialRange T.width F.p1 F.p2 F.k }
        ensures { T.number result ≡ T.double_number v % trinomial F.p1 F.p2 F.k }
    {
        if is_low(F::p1(), F::p2(), F::k()) {
            Self::remainder(v)
        } else {
            reduce_double_word(v, F::p1() as u32, Self::factor(), Self::fixed_modulus())
        }
    }

    // The residue of a double word, by a division.
    fn remainder(v: T::Double) -> T
        requires { IsTrinomialRange T.width F.p1 F.p2 F.k }
        ensures { T.number result ≡ T.double_number v % trinomial F.p1 F.p2 F.k }
    {
        T::narrow_remainder(v, Self::fixed_modulus())
    }

    /// The residue of a double word and the number of folds: how many make it less than 2^p1, 0 where the remainder is
    /// a division's.
    ///
    /// # Conditions
    ///
    /// - the parameters are in range
    ///
    /// # Examples
    ///
    /// ```
    /// use num_modular::FixedTrinomialSolinas64;
    ///
    /// type Goldilocks = FixedTrinomialSolinas64<64, 32, 1>;
    /// assert_eq!(Goldilocks::reduce_counted(1 << 64), ((1 << 32) - 1, 1));
    /// ```
    // rust: #[track_caller]
    pub fn reduce_counted(v: T::Double) -> (T, u32)
        requires { IsTrinomialRange T.width F.p1 F.p2 F.k }
        ensures value { T.number result.0 ≡ T.double_number v % trinomial F.p1 F.p2 F.k }
        ensures none { IsLowTrinomial F.p1 F.p2 F.k → result.1 ≡ 0 }
        ensures count { ¬ IsLowTrinomial F.p1 F.p2 F.k
            → result.1 ≡ folds F.p1 (trinomial_factor F.p1 F.p2 F.k) (T.double_number v) }
        ensures few { IsFewFolds F.p1 (trinomial_factor F.p1 F.p2 F.k) (T.double_number v) result.1 }
    {
        if is_low(F::p1(), F::p2(), F::k()) {
            (Self::remainder(v), 0)
        } else {
            reduce_by_folds(v, F::p1() as u32, Self::factor(), Self::fixed_modulus())
        }
    }
}

impl<T: TrinomialWord, F: Trinomial> FoldModulus<T> for TrinomialModulus<T, F> {
    ghost admits = { IsTrinomial T.width F.p1 F.p2 F.k };

    ghost modulus = { λ m. trinomial F.p1 F.p2 F.k };

    // Condition: the modulus is that of the parameters.
    // rust: #[track_caller]
    fn keep(m: T) -> Self {
        prove!(m == TrinomialSolinas::<T, F>::fixed_modulus());
        // rust: let () = F::IN_RANGE;
        // rust: let modulus = TrinomialSolinas::<T, F>::fixed_modulus();
        // rust: assert!(m == modulus, "the modulus must be that of the parameters: {} and {}",
        // rust:     crate::additions::number(m), crate::additions::number(modulus));
        TrinomialModulus {
            word: PhantomData,
            parameters: PhantomData,
        }
    }

    fn modulus(&self) -> T {
        TrinomialSolinas::<T, F>::fixed_modulus()
    }

    fn reduced(&self, n: T) -> T {
        if is_low(F::p1(), F::p2(), F::k()) {
            // rust instead: TrinomialSolinas::<T, F>::reduced_word(n)
            TrinomialSolinas::<T, F>::reduce_single(n)
        } else {
            reduce_word(
                n,
                F::p1() as u32,
                TrinomialSolinas::<T, F>::factor(),
                self.modulus(),
            )
        }
    }

    fn product(&self, a: T, b: T) -> T {
        if is_low(F::p1(), F::p2(), F::k()) {
            TrinomialSolinas::<T, F>::remainder(a.product(b))
        } else {
            reduce_product(
                a,
                b,
                F::p1() as u32,
                TrinomialSolinas::<T, F>::factor(),
                self.modulus(),
            )
        }
    }

    ghost admitted = { λ m. record { range = m.range; same = refl } };

    ghost canonical = { λ m. trinomial_canonical m.range };
}
