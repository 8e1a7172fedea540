//! The reducer by Montgomery's representation, for every modulus.

ghost use Rattle.std.specs.Prelude.{◌≡◌, ℕ, ◌+◌, ◌*◌, ◌/◌, ◌%◌, ◌^◌, ◌<◌, ◌≤◌, ⊤, MatchOption};
ghost use Rattle.modular_reduced.specs.Forms.{IsForm};
ghost use Rattle.modular_monty.specs.Montgomery.{montgomery_form, montgomery_value};
ghost use Rattle.modular_monty.specs.TwoParts.{two_part_form, two_part_value, even_part, odd_part};
ghost use Rattle.modular_monty.specs.TwoParts.{IsComputedOnce, IsTwoPartRing};
ghost use Rattle.modular_monty.specs.TwoPartLaws.{modulus_positive, two_part_canonical};

use crate::odd_montgomery::OddMontgomery;
use crate::odd_ring::{OddRing, StoredModulus, reduced_factor};
use modular_prim::below::{add_below, dbl_below_stored};
use modular_prim::reducer_word::ReducerWord;
use modular_reduced::lanes::{add_each, sub_each};
use modular_reduced::list_products::{multiply_by_factor, product_by_factor};
use modular_reduced::reducer::Reducer;
// rattle: line
use modular_word::path_word::PathWord;
// rattle: line
use modular_word::ring_word::RingWord;
// rattle: line
use std::alloc::AllocError;

/// The reducer of any m, by Montgomery's representation: m is at least 1.
///
/// With m = 2^s·k for odd k, and the base 2 to the width of the words, the form of v has two parts. Its lowest s bits
/// are v modulo 2^s, and the bits above them are v times the base, modulo k. So for odd m the form is v times the base,
/// modulo m.
///
/// A product of forms takes one product of words and one reduction, which divides by the base alone, and for even m
/// one more wrapping product.
///
/// Source: Handbook of Applied Cryptography, section 14.3.2; for even m Koç, "Montgomery reduction with even modulus".
///
/// # Examples
///
/// ```
/// use num_modular::{Montgomery, Reducer};
///
/// const RING: Montgomery<u64> = Montgomery::<u64>::new(10);
/// let seven = RING.transform(7);
/// assert_eq!(RING.residue(RING.pow(seven, &100)), 1);
/// ```
// rust instead: #[must_use]
#[derive(Debug)]
// rust instead: pub struct Montgomery<T> {
pub struct Montgomery<T: ReducerWord> {
    // The ring modulo k.
    // rust instead: pub(crate) odd: OddMontgomery<T>,
    odd: OddMontgomery<T>,
    // The exponent s.
    // rust instead: pub(crate) twos: u32,
    twos: u32,
    ghost ring: { IsTwoPartRing T.width T.base (T.number odd.kept.modulus * 2 ^ twos) twos (T.number odd.kept.modulus)
        (T.number odd.kept.negated_inverse) (T.number odd.kept.square) },
}

impl<T: ReducerWord> Clone for Montgomery<T> {
    ghost is_clone = { λ x y. y ≡ x };

    ghost is_infallible = { λ _. ⊤ };

    // rust instead: fn clone(&self) -> Self {
    fn clone(&self) -> Result<Self, AllocError> {
        // rust instead: *self
        Ok(*self)
    }
}

impl<T: ReducerWord> Copy for Montgomery<T> {}

impl<T: ReducerWord> Montgomery<T> {
    /// The reducer of m.
    ///
    /// In the Cargo crate this is `of`, for any word type; `new` is the same for a known one.
    ///
    /// # Conditions
    ///
    /// - the modulus is at least 1
    ///
    /// # Examples
    ///
    /// ```
    /// use num_modular::{Montgomery, Reducer};
    ///
    /// let ring = Montgomery::of(97u8);
    /// assert_eq!(ring.residue(ring.sqr(ring.transform(10))), 3); // 100 - 97
    /// ```
    // rust: #[track_caller]
    // rust instead: pub fn of(m: T) -> Self
    pub fn new(m: T) -> Self
        requires { 1 ≤ T.number m }
        ensures { ⟦<Montgomery<T> as Reducer<T>>⟧.modulus result ≡ T.number m }
    {
        prove!(!m.is_zero_word());
        // rust: assert!(!m.is_zero_word(), "the modulus must be at least 1");
        let twos = m.trailing_zeros();
        Montgomery {
            // rust instead: odd: OddMontgomery::of(m.shift_right(twos)),
            odd: OddMontgomery::new(m.shift_right(twos)),
            twos,
        }
    }

    /// What is precomputed of m: the negated inverse of its odd part modulo the base, and the square of the base
    /// modulo that part.
    ///
    /// # Examples
    ///
    /// ```
    /// use num_modular::Montgomery;
    ///
    /// // 95 * 97 is -1 modulo 256, and 256^2 = 675 * 97 + 61
    /// assert_eq!(Montgomery::<u8>::new(97).computed_once(), (95, 61));
    /// ```
    pub fn computed_once(&self) -> (T, T)
        ensures { let m = ⟦<Montgomery<T> as Reducer<T>>⟧.modulus self.now in
            IsComputedOnce T.width T.base m (T.number result.0) (T.number result.1) }
    {
        (self.odd.kept.negated_inverse, self.odd.kept.square)
    }

    /// The reducer of m by what `computed_once` returned: the two numbers for m; `None` exactly where m is 0 or a
    /// number is wrong.
    ///
    /// It makes no division.
    ///
    /// # Examples
    ///
    /// ```
    /// use num_modular::{Montgomery, Reducer};
    ///
    /// let ring = Montgomery::<u8>::restored(97, 95, 61).unwrap();
    /// assert_eq!(ring.modulus(), 97);
    /// assert!(Montgomery::<u8>::restored(97, 95, 62).is_none());
    /// ```
    pub fn restored(m: T, negated_inverse: T, square: T) -> Option<Self>
        ensures { let fits = IsComputedOnce T.width T.base (T.number m) (T.number negated_inverse) (T.number square) in
            MatchOption result (fits → ⊥) (λ r. (⟦<Montgomery<T> as Reducer<T>>⟧.modulus r ≡ T.number m) × fits) }
    {
        if m.is_zero_word() {
            return None;
        }
        let twos = m.trailing_zeros();
        let kept = StoredModulus::<T>::restored(m.shift_right(twos), negated_inverse, square)?;
        Some(Montgomery {
            odd: OddRing::over(kept),
            twos,
        })
    }

    // The part of a form above the lowest s bits.
    fn high(&self, f: T) -> T
        requires { IsForm (two_part_form T.width) (two_part_value T.width)
            (T.number self.now.odd.kept.modulus * 2 ^ self.now.twos) (T.number f) }
        ensures value { T.number result ≡ T.number f / 2 ^ self.now.twos }
        ensures form { IsForm (montgomery_form T.width) (montgomery_value T.width)
            (T.number self.now.odd.kept.modulus) (T.number result) }
    {
        f.shift_right(self.twos)
    }

    // The form with `high` above the lowest s bits, and the lowest s bits of `low` in them.
    fn form_of_parts(&self, high: T, low: T) -> T
        requires { T.number high < T.number self.now.odd.kept.modulus }
        ensures { T.number result ≡ T.number high * 2 ^ self.now.twos + T.number low % 2 ^ self.now.twos }
    {
        high.shift_left(self.twos).plus(low.low_bits(self.twos))
    }
}

// Each method tests s first, so that odd moduli are as fast as without the second part.
impl<T: ReducerWord> Reducer<T> for Montgomery<T> {
    ghost admits = { λ m. 1 ≤ m };

    ghost form = { two_part_form T.width };

    ghost value = { two_part_value T.width };

    ghost modulus = { λ r. T.number r.odd.kept.modulus * 2 ^ r.twos };

    ghost admitted = { λ r. modulus_positive r.ring };

    ghost canonical = { λ r. two_part_canonical r.ring };

    // rust: #[track_caller]
    fn new(m: &T) -> Self {
        // rust instead: Montgomery::of(*m)
        Montgomery::new(*m)
    }

    fn transform(&self, n: T) -> T {
        let high = self.odd.transform(n);
        if self.twos == 0 {
            return high;
        }
        self.form_of_parts(high, n)
    }

    fn check(&self, f: &T) -> bool {
        f.is_below(self.modulus())
    }

    fn modulus(&self) -> T {
        self.odd.modulus().shift_left(self.twos)
    }

    // The value modulo the odd part k, plus the multiple of k that makes the lowest s bits right.
    fn residue(&self, f: T) -> T {
        if self.twos == 0 {
            return self.odd.residue(f);
        }
        let value = self.odd.residue(self.high(f));
        let behind = value.wrapping_sub(f);
        let steps = behind
            .wrapping_mul(self.odd.kept.negated_inverse)
            .low_bits(self.twos);
        value.plus(self.odd.kept.modulus.times(steps))
    }

    fn is_zero(&self, f: &T) -> bool {
        f.is_zero_word()
    }

    fn add(&self, a: &T, b: &T) -> T {
        if self.twos == 0 {
            return add_below(*a, *b, self.odd.kept.modulus);
        }
        let high = self.odd.add(&self.high(*a), &self.high(*b));
        self.form_of_parts(high, a.wrapping_add(*b))
    }

    fn dbl(&self, f: T) -> T {
        if self.twos == 0 {
            return dbl_below_stored(f, self.odd.kept.modulus);
        }
        self.add(&f, &f)
    }

    fn sub(&self, a: &T, b: &T) -> T {
        if self.twos == 0 {
            return self.odd.sub(a, b);
        }
        let high = self.odd.sub(&self.high(*a), &self.high(*b));
        self.form_of_parts(high, a.wrapping_sub(*b))
    }

    fn neg(&self, f: T) -> T {
        if self.twos == 0 {
            return self.odd.neg(f);
        }
        self.sub(&T::zero(), &f)
    }

    // rust: #[track_caller]
    fn add_entries(&self, xs: &mut [T], ys: &[T]) {
        // rust: crate::additions::expect_entries(self, xs, ys);
        if self.twos == 0 {
            add_each(xs, ys, self.odd.kept.modulus);
            return;
        }
        'entries: for i in 0..xs.len() {
            xs[i] = self.add(&xs[i], &ys[i]);
        }
    }

    // rust: #[track_caller]
    fn sub_entries(&self, xs: &mut [T], ys: &[T]) {
        // rust: crate::additions::expect_entries(self, xs, ys);
        if self.twos == 0 {
            sub_each(xs, ys, self.odd.kept.modulus);
            return;
        }
        'entries: for i in 0..xs.len() {
            xs[i] = self.sub(&xs[i], &ys[i]);
        }
    }

    fn mul(&self, a: &T, b: &T) -> T {
        if self.twos == 0 {
            return self.odd.mul(a, b);
        }
        let high = self.odd.mul(&self.high(*a), &self.high(*b));
        self.form_of_parts(high, a.wrapping_mul(*b))
    }

    fn mul_difference(&self, a: &T, b: &T, factor: &T) -> T {
        if self.twos == 0 {
            return self.odd.mul_difference(a, b, factor);
        }
        let difference = self.sub(a, b);
        self.mul(&difference, factor)
    }

    // rust: #[track_caller]
    fn add_products(&self, sum: T, xs: &[T], ys: &[T]) -> T {
        // rust: assert!(ys.len() == xs.len(), "the lists must have the same length: {} and {}", xs.len(), ys.len());
        // rust: debug_assert!(self.check(&sum) && xs.iter().chain(ys).all(|x| self.check(x)),
        // rust:     "`sum` and all entries must be checked forms");
        if self.twos == 0 {
            return self.odd.add_products(sum, xs, ys);
        }
        let mut total = sum;
        'products: for i in 0..xs.len() {
            total = self.add(&total, &self.mul(&xs[i], &ys[i]));
        }
        total
    }

    // Each product takes the quotient of the factor's value by k, which the reduction to that value computes anyway.
    fn scale_entries(&self, xs: &mut [T], factor: &T) {
        let k = self.odd.kept.modulus;
        let high = T::merge(self.high(*factor), T::zero());
        let (value, quotient) = reduced_factor(k, self.odd.kept.negated_inverse, high);
        if self.twos == 0 {
            multiply_by_factor(xs, value, quotient, k);
            return;
        }
        'entries: for i in 0..xs.len() {
            let x = xs[i];
            let product = product_by_factor(self.high(x), value, quotient, k);
            xs[i] = self.form_of_parts(product, x.wrapping_mul(*factor));
        }
    }

    // The form of the inverse of the value.
    fn inv(&self, f: T) -> Option<T> {
        match T::inverse(self.residue(f), self.modulus()) {
            Some(x) => Some(self.transform(x)),
            None => None,
        }
    }

    fn sqr(&self, f: T) -> T {
        self.mul(&f, &f)
    }
    // rust: crate::additions::reducer_members!(T);
}

/// Montgomery's forms: the two parts of a modulus are an odd number and a power of two.
///
/// For an odd modulus the form of a value is the value times the base, modulo m.
pub fn form_laws<T: RingWord>()
    ensures whole { (m : ℕ) → 1 ≤ m → m < 2 ^ T.width → odd_part T.width m * even_part T.width m ≡ m }
    ensures odd { (m : ℕ) → 1 ≤ m → m < 2 ^ T.width → odd_part T.width m % 2 ≡ 1 }
    ensures form { (m v : ℕ) → m % 2 ≡ 1 → two_part_form T.width m v ≡ (v * 2 ^ T.width) % m }
{}
