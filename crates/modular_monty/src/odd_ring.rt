//! Odd moduli by Montgomery's representation: the reducer that every reducer of this crate is an alias of or
//! contains, over any type that holds an odd modulus and reduces by it.

ghost use Rattle.std.specs.Prelude.{◌≡◌, ℕ, ◌+◌, ◌*◌, ◌%◌, ◌<◌, ◌↔◌, ⊤, IsTrue, MatchOption};
ghost use Rattle.modular_word.specs.Reduction.{IsNegatedInverse, IsReduction};
ghost use Rattle.modular_reduced.specs.Factors.{IsFactor};
ghost use Rattle.modular_monty.specs.Montgomery.{montgomery_form, montgomery_value, IsOddRing};
ghost use Rattle.modular_monty.specs.MontgomeryLaws.{montgomery_canonical};

use crate::list_products::reduced_products;
use crate::neg_mod_inv::neginv;
use modular_prim::below::{add_below, branchless_sub_below, dbl_below, neg_below, sub_below};
use modular_prim::reducer_word::ReducerWord;
use modular_reduced::lanes::{add_each, sub_each};
use modular_reduced::list_products::block;
use modular_reduced::reducer::Reducer;
use modular_word::path_word::PathWord;
use modular_word::paths::{clearing, redc};
// rattle: line
use modular_word::ring_word::RingWord;
// rattle: line
use std::alloc::AllocError;
use std::marker::PhantomData;

/// An odd modulus with what is precomputed of it: its negated inverse modulo the base, and the square of the base
/// modulo m.
///
/// A type that knows its modulus needn't store it, and a modulus of a special form may be multiplied faster.
///
/// # Examples
///
/// ```
/// use num_modular::families::{OddModulus, OddRing};
/// use num_modular::{FixedMontgomery64, FixedProth64, Reducer};
///
/// fn inverse_of_two<M: OddModulus<u64>>(ring: &OddRing<u64, M>) -> Option<u64> {
///     ring.inv(ring.transform(2)).map(|f| ring.residue(f))
/// }
/// assert_eq!(inverse_of_two(&FixedMontgomery64::<101>::RING), Some(51));
/// assert_eq!(inverse_of_two(&FixedProth64::<5, 3>::RING), Some(49)); // modulo 97
/// ```
pub trait OddModulus<T: PathWord>: Copy {
    // The moduli that the type admits.
    ghost admits: { ℕ → Type 0 };

    ghost modulus: { Self → ℕ };

    ghost negated_inverse: { Self → ℕ };

    ghost square: { Self → ℕ };

    /// What is stored of m.
    ///
    /// # Conditions
    ///
    /// - the type admits the modulus
    ///
    /// # Examples
    ///
    /// ```
    /// use num_modular::families::{OddModulus, OddRing};
    /// use num_modular::FixedProth32;
    ///
    /// fn keep<M: OddModulus<u32>>(_: OddRing<u32, M>, m: u32) -> M {
    ///     M::keep(m)
    /// }
    /// assert_eq!(keep(FixedProth32::<5, 3>::RING, 97).modulus(), 97);
    /// ```
    // rust: #[must_use]
    // rust: #[track_caller]
    fn keep(m: T) -> Self
        requires { admits (T.number m) }
        ensures { modulus result ≡ T.number m };

    /// The modulus.
    ///
    /// # Examples
    ///
    /// ```
    /// use num_modular::families::{OddModulus, OddRing};
    /// use num_modular::FixedProth32;
    ///
    /// fn modulus_of<M: OddModulus<u32>>(_: OddRing<u32, M>, m: u32) -> u32 {
    ///     M::keep(m).modulus()
    /// }
    /// assert_eq!(modulus_of(FixedProth32::<5, 3>::RING, 97), 97);
    /// ```
    fn modulus(&self) -> T
        ensures { T.number result ≡ modulus self.now };

    /// The square of the base, modulo m.
    ///
    /// # Examples
    ///
    /// ```
    /// use num_modular::families::{OddModulus, OddRing};
    /// use num_modular::FixedProth32;
    ///
    /// fn square_of<M: OddModulus<u32>>(_: OddRing<u32, M>, m: u32) -> u32 {
    ///     M::keep(m).square_of_base()
    /// }
    /// assert_eq!(square_of(FixedProth32::<5, 3>::RING, 97) as u128, (1 << 64) % 97);
    /// ```
    fn square_of_base(&self) -> T
        ensures { T.number result ≡ square self.now };

    /// The residue of a + b.
    ///
    /// # Preconditions
    ///
    /// - a and b are below m
    ///
    /// # Examples
    ///
    /// ```
    /// use num_modular::families::{OddModulus, OddRing};
    /// use num_modular::FixedProth32;
    ///
    /// fn sum<M: OddModulus<u32>>(_: OddRing<u32, M>, m: u32, a: u32, b: u32) -> u32 {
    ///     M::keep(m).sum(a, b)
    /// }
    /// assert_eq!(sum(FixedProth32::<5, 3>::RING, 97, 60, 50), 13); // 110 - 97
    /// ```
    fn sum(&self, a: T, b: T) -> T
        requires left { T.number a < modulus self.now }
        requires right { T.number b < modulus self.now }
        ensures { T.number result ≡ (T.number a + T.number b) % modulus self.now }
    {
        add_below(a, b, self.modulus())
    }

    /// Montgomery's reduction (REDC) of t: a residue, below m.
    ///
    /// # Preconditions
    ///
    /// - t is below the modulus times the base
    ///
    /// # Examples
    ///
    /// ```
    /// use num_modular::families::{OddModulus, OddRing};
    /// use num_modular::FixedProth32;
    ///
    /// fn redc<M: OddModulus<u32>>(_: OddRing<u32, M>, m: u32, t: u64) -> u32 {
    ///     M::keep(m).redc(t)
    /// }
    /// assert_eq!(redc(FixedProth32::<5, 3>::RING, 97, 10 << 32), 10);
    /// ```
    fn redc(&self, t: T::Double) -> T
        requires { T.double_number t < T.base * modulus self.now }
        ensures { IsReduction T.base (modulus self.now) (T.double_number t) (T.number result) };

    /// Montgomery's reduction of t without its last subtraction: what `redc` returns.
    ///
    /// # Preconditions
    ///
    /// - t is below the modulus
    ///
    /// # Examples
    ///
    /// ```
    /// use num_modular::families::{OddModulus, OddRing};
    /// use num_modular::FixedProth32;
    ///
    /// fn redc<M: OddModulus<u32>>(_: OddRing<u32, M>, m: u32, t: u64) -> u32 {
    ///     M::keep(m).redc_below(t)
    /// }
    /// assert_eq!(redc(FixedProth32::<5, 3>::RING, 97, 35), 1); // 2^32 = 35 modulo 97
    /// ```
    fn redc_below(&self, t: T::Double) -> T
        requires { T.double_number t < modulus self.now }
        ensures { IsReduction T.base (modulus self.now) (T.double_number t) (T.number result) };

    ghost admitted: { (m : Self) → admits (modulus m) };

    ghost is_odd_ring: { (m : Self) → IsOddRing T.width T.base (modulus m) (negated_inverse m) (square m) };
}

// What is precomputed of an odd modulus m.
pub(crate) fn computed_once<T: ReducerWord>(m: T) -> (T, T)
    requires { T.number m % 2 ≡ 1 }
    ensures { IsOddRing T.width T.base (T.number m) (T.number result.0) (T.number result.1) }
{
    (neginv(m), T::square_of_base(m))
}

// Montgomery's reduction of t, given the word x of `clearing` and the product x·m: their sum divided by the base, which
// is below m. Condition: t is below m.
pub(crate) fn reduce_below_by<T: PathWord>(m: T, t: T::Double, x: T, multiple: T::Double) -> T
    requires below { T.double_number t < T.number m }
    requires multiple { T.double_number multiple ≡ T.number x * T.number m }
    requires low { (T.double_number t + T.number x * T.number m) % T.base ≡ 0 }
    requires x_fits { T.number x < T.base }
    ensures reduction { IsReduction T.base (T.number m) (T.double_number t) (T.number result) }
    ensures whole { T.number result * T.base ≡ T.double_number t + T.number x * T.number m }
{
    // Reading m gives the proof that it fits a word.
    let _ = m.is_below(x);
    let (_, high) = T::split(T::double_plus(t, multiple));
    high
}

// `redc` of a double word t below m, as a factor modulo m with its quotient: the word x of `clearing`, since the factor
// times the base is x·m + t. Condition: t is below m.
//
// Source: for such factors Harvey, "Faster arithmetic for number-theoretic transforms", section 3, after Shoup.
pub(crate) fn reduced_factor<T: PathWord>(m: T, negated_inverse: T, t: T::Double) -> (T, T)
    requires inverse { IsNegatedInverse T.base (T.number m) (T.number negated_inverse) }
    requires below { T.double_number t < T.number m }
    ensures reduction { IsReduction T.base (T.number m) (T.double_number t) (T.number result.0) }
    ensures factor { IsFactor T.base (T.number m) (T.number result.0) (T.number result.1) }
{
    let x = clearing(m, negated_inverse, t);
    (reduce_below_by(m, t, x, x.product(m)), x)
}

// `redc` of a double word below m.
pub(crate) fn redc_below<T: PathWord>(m: T, negated_inverse: T, t: T::Double) -> T
    requires inverse { IsNegatedInverse T.base (T.number m) (T.number negated_inverse) }
    requires below { T.double_number t < T.number m }
    ensures { IsReduction T.base (T.number m) (T.double_number t) (T.number result) }
{
    reduced_factor(m, negated_inverse, t).0
}

// Whether the base is 1 modulo m, given the negated inverse of m: then their product is the base less 1.
pub(crate) fn is_unit_base<T: PathWord>(m: T, negated_inverse: T) -> bool
    ensures { IsTrue result → T.base % T.number m ≡ 1 % T.number m }
{
    let (low, high) = T::split(m.product(negated_inverse));
    high.is_zero_word() && low.wrapping_add(T::one()).is_zero_word()
}

// The reduction of t, below m, is given; where the base is 1 modulo m, it is t itself. For fixed moduli, of which
// compilers know whether it is, so that they leave the other out. Condition: t is below m.
pub(crate) fn unless_unit_base<T: PathWord>(
    m: T,
    negated_inverse: T,
    t: T::Double,
    reduction: T,
) -> T
    requires below { T.double_number t < T.number m }
    requires reduction { IsReduction T.base (T.number m) (T.double_number t) (T.number reduction) }
    ensures { IsReduction T.base (T.number m) (T.double_number t) (T.number result) }
{
    // Reading m gives the proof that it fits a word.
    let _ = m.is_below(reduction);
    if is_unit_base(m, negated_inverse) {
        T::split(t).0
    } else {
        reduction
    }
}

// Whether a word is 1.
fn is_one<T: PathWord>(x: T) -> bool
    ensures { IsTrue result ↔ (T.number x ≡ 1) }
{
    x == T::one()
}

// Whether n is the negated inverse of m modulo the base.
fn is_negated_inverse<T: PathWord>(m: T, n: T) -> bool
    ensures { IsTrue result ↔ IsNegatedInverse T.base (T.number m) (T.number n) }
{
    m.wrapping_mul(n).wrapping_add(T::one()).is_zero_word()
}

// Whether a word is the square of the base modulo m: it is exactly where reducing it twice gives 1.
fn is_square_of_base<T: PathWord>(m: T, negated_inverse: T, square: T) -> bool
    requires odd { T.number m % 2 ≡ 1 }
    requires inverse { IsNegatedInverse T.base (T.number m) (T.number negated_inverse) }
    ensures { IsTrue result ↔ (T.number square ≡ (T.base * T.base) % T.number m) }
{
    if !square.is_below(m) {
        return false;
    }
    let base = redc(m, negated_inverse, T::merge(square, T::zero()));
    let unit = redc(m, negated_inverse, T::merge(base, T::zero()));
    is_one(unit) || is_one(m)
}

/// Montgomery's reducer of an [`OddModulus`]: the form of v is v times the base modulo m, the base being 2 to the width
/// of the words T.
///
/// `new` accepts the moduli that M does.
///
/// A product of forms takes one product of words and one reduction, which divides by the base alone.
///
/// Source: Handbook of Applied Cryptography, section 14.3.2.
///
/// # Examples
///
/// ```
/// use num_modular::families::{OddModulus, OddRing};
/// use num_modular::{FixedMontgomery32, FixedProth32, Reducer};
///
/// fn cube<M: OddModulus<u32>>(ring: &OddRing<u32, M>, n: u32) -> u32 {
///     ring.residue(ring.pow(ring.transform(n), &3))
/// }
/// assert_eq!(cube(&FixedMontgomery32::<101>::RING, 10), 91); // 1000 modulo 101
/// assert_eq!(cube(&FixedProth32::<5, 3>::RING, 10), 30); // modulo 3 * 2^5 + 1 = 97
/// ```
// rust instead: #[derive(Clone, Copy)]
#[derive(Debug, Clone, Copy)]
// rust: #[must_use]
// rust instead: pub struct OddRing<T, M> {
pub struct OddRing<T: PathWord, M: OddModulus<T>> {
    // rust instead: pub(crate) kept: M,
    pub kept: M,
    // rust instead: pub(crate) word: PhantomData<T>,
    word: PhantomData<T>,
}

impl<T: PathWord, M: OddModulus<T>> OddRing<T, M> {
    /// The reducer of a stored modulus.
    // rust instead: pub(crate) fn over(kept: M) -> Self
    pub fn over(kept: M) -> Self
        ensures { result.kept ≡ kept }
    {
        OddRing {
            kept,
            word: PhantomData,
        }
    }
}

impl<T: ReducerWord, M: OddModulus<T>> Reducer<T> for OddRing<T, M> {
    ghost admits = { M.admits };

    ghost form = { montgomery_form T.width };

    ghost value = { montgomery_value T.width };

    ghost modulus = { λ r. M.modulus r.kept };

    ghost admitted = { λ r. M.admitted r.kept };

    ghost canonical = { λ r. montgomery_canonical (M.is_odd_ring r.kept) };

    // rust: #[track_caller]
    fn new(m: &T) -> Self {
        OddRing::over(M::keep(*m))
    }

    fn transform(&self, n: T) -> T {
        self.kept.redc(n.product(self.kept.square_of_base()))
    }

    fn check(&self, f: &T) -> bool {
        f.is_below(self.kept.modulus())
    }

    fn modulus(&self) -> T {
        self.kept.modulus()
    }

    fn residue(&self, f: T) -> T {
        self.kept.redc_below(T::merge(f, T::zero()))
    }

    fn is_zero(&self, f: &T) -> bool {
        f.is_zero_word()
    }

    fn add(&self, a: &T, b: &T) -> T {
        self.kept.sum(*a, *b)
    }

    fn dbl(&self, f: T) -> T {
        dbl_below(f, self.kept.modulus())
    }

    fn sub(&self, a: &T, b: &T) -> T {
        sub_below(*a, *b, self.kept.modulus())
    }

    fn neg(&self, f: T) -> T {
        neg_below(f, self.kept.modulus())
    }

    // rust: #[track_caller]
    fn add_entries(&self, xs: &mut [T], ys: &[T]) {
        // rust: crate::additions::expect_entries(self, xs, ys);
        add_each(xs, ys, self.kept.modulus());
    }

    // rust: #[track_caller]
    fn sub_entries(&self, xs: &mut [T], ys: &[T]) {
        // rust: crate::additions::expect_entries(self, xs, ys);
        sub_each(xs, ys, self.kept.modulus());
    }

    fn mul(&self, a: &T, b: &T) -> T {
        self.kept.redc(a.product(*b))
    }

    fn mul_difference(&self, a: &T, b: &T, factor: &T) -> T {
        let difference = branchless_sub_below(*a, *b, self.kept.modulus());
        self.kept.redc(difference.product(*factor))
    }

    // Products are added as whole numbers and reduced once a block.
    // rust: #[track_caller]
    fn add_products(&self, sum: T, xs: &[T], ys: &[T]) -> T {
        // rust: assert!(ys.len() == xs.len(), "the lists must have the same length: {} and {}", xs.len(), ys.len());
        // rust: debug_assert!(self.check(&sum) && xs.iter().chain(ys).all(|x| self.check(x)),
        // rust:     "`sum` and all entries must be checked forms");
        let mut total = sum;
        let mut from = 0;
        'each_block: while from < xs.len() {
            let to = from + block::<T>().min(xs.len() - from);
            let reduced = reduced_products(self, xs, ys, from, to);
            total = add_below(total, reduced, self.kept.modulus());
            from = to;
        }
        total
    }

    // The form of the inverse of the value.
    fn inv(&self, f: T) -> Option<T> {
        match T::inverse(self.residue(f), self.kept.modulus()) {
            Some(x) => Some(self.transform(x)),
            None => None,
        }
    }

    fn sqr(&self, f: T) -> T {
        self.mul(&f, &f)
    }
    // rust: crate::additions::reducer_members!(T);
}

/// An odd modulus that is known at run time, with what is precomputed of it.
// rust instead: #[must_use]
#[derive(Debug)]
// rust instead: pub struct StoredModulus<T> {
pub struct StoredModulus<T: PathWord> {
    /// The modulus m.
    // rust instead: pub(crate) modulus: T,
    pub modulus: T,
    /// The number n below the base with m * n congruent to -1 modulo the base.
    // rust instead: pub(crate) negated_inverse: T,
    pub negated_inverse: T,
    /// The square of the base modulo m.
    // rust instead: pub(crate) square: T,
    pub square: T,
    ghost ring: { IsOddRing T.width T.base (T.number modulus) (T.number negated_inverse) (T.number square) },
}

impl<T: PathWord> Clone for StoredModulus<T> {
    ghost is_clone = { λ x y. y ≡ x };

    ghost is_infallible = { λ _. ⊤ };

    // rust instead: fn clone(&self) -> Self {
    fn clone(&self) -> Result<Self, AllocError> {
        // rust instead: *self
        Ok(*self)
    }
}

impl<T: PathWord> Copy for StoredModulus<T> {}

impl<T: PathWord> StoredModulus<T> {
    /// What is stored of m, given the two numbers that were precomputed of it earlier; `None` exactly where m is even
    /// or one of the numbers is wrong.
    ///
    /// It makes no division.
    pub fn restored(m: T, negated_inverse: T, square: T) -> Option<StoredModulus<T>>
        ensures { MatchOption result
            (IsOddRing T.width T.base (T.number m) (T.number negated_inverse) (T.number square) → ⊥)
            (λ s. (s.modulus ≡ m) × (s.negated_inverse ≡ negated_inverse) × (s.square ≡ square)) }
    {
        if m.is_odd()
            && is_negated_inverse(m, negated_inverse)
            && is_square_of_base(m, negated_inverse, square)
        {
            Some(StoredModulus {
                modulus: m,
                negated_inverse,
                square,
            })
        } else {
            None
        }
    }
}

impl<T: ReducerWord> OddModulus<T> for StoredModulus<T> {
    ghost admits = { λ m. m % 2 ≡ 1 };

    ghost modulus = { λ m. T.number m.modulus };

    ghost negated_inverse = { λ m. T.number m.negated_inverse };

    ghost square = { λ m. T.number m.square };

    // rust: #[track_caller]
    fn keep(m: T) -> Self {
        prove!(m.is_odd());
        // rust: assert!(m.is_odd(), "the modulus must be odd");
        let (negated_inverse, square) = computed_once(m);
        StoredModulus {
            modulus: m,
            negated_inverse,
            square,
        }
    }

    fn modulus(&self) -> T {
        self.modulus
    }

    fn square_of_base(&self) -> T {
        self.square
    }

    fn redc(&self, t: T::Double) -> T {
        redc(self.modulus, self.negated_inverse, t)
    }

    fn redc_below(&self, t: T::Double) -> T {
        redc_below(self.modulus, self.negated_inverse, t)
    }

    ghost admitted = { λ m. m.ring.odd };

    ghost is_odd_ring = { λ m. m.ring };
}
