//! The plain reducer: the form of a value is the value.

ghost use Rattle.std.specs.Prelude.{◌≡◌, ℕ, ◌^◌, ◌<◌, ◌≤◌};
ghost use Rattle.modular_reduced.specs.Plain.{plain_form, plain_value, plain_canonical};

use crate::lanes::{add_each, sub_each};
use crate::reducer::Reducer;
use modular_prim::below::{add_below, dbl_below_stored, neg_below, sub_below};
use modular_prim::inverse::fast_inverse;
use modular_prim::plain_word::PlainWord;
// rattle: line
use std::alloc::AllocError;

/// The plain reducer of any m: m is at least 1, and the form of a value is the value.
///
/// Sums, differences, doubles and negatives take no division. A product is the remainder of a double word by a
/// word. An inverse is computed by subtraction for an odd modulus, by Euclid's algorithm for an even one.
///
/// Source: Handbook of Applied Cryptography, section 14.3.1.
///
/// It divides: not for secrets.
///
/// # Examples
///
/// ```
/// use num_modular::{Reducer, Vanilla};
///
/// let ring = Vanilla::<u32>::new(&100);
/// assert_eq!(ring.mul(&12, &34), 8); // 408 modulo 100
/// assert_eq!(ring.inv(3), Some(67)); // 3 * 67 = 201
/// ```
#[derive(Debug)]
// rust: #[must_use]
// rust instead: pub struct Vanilla<T> {
pub struct Vanilla<T: PlainWord> {
    modulus: T,
    ghost positive: { 1 ≤ T.number modulus },
    ghost fits: { T.number modulus < 2 ^ T.width },
}

impl<T: PlainWord> Clone for Vanilla<T> {
    ghost is_clone = { λ x y. y ≡ x };

    ghost is_infallible = { λ _. Unit {0} };

    // rust instead: fn clone(&self) -> Self {
    fn clone(&self) -> Result<Self, AllocError> {
        // rust instead: *self
        Ok(*self)
    }
}

impl<T: PlainWord> Copy for Vanilla<T> {}

impl<T: PlainWord> Reducer<T> for Vanilla<T> {
    ghost admits = { λ m. 1 ≤ m };

    ghost form = { plain_form };

    ghost value = { plain_value };

    ghost modulus = { λ r. T.number r.modulus };

    ghost admitted = { λ r. r.positive };

    ghost canonical = { λ r. plain_canonical T.width (T.number r.modulus) r.positive r.fits };

    // Condition: the modulus is at least 1.
    // rust: #[track_caller]
    fn new(m: &T) -> Self {
        let modulus = *m;
        // Reading the word gives the proof that it fits its width.
        let _ = modulus.is_odd();
        prove!(!modulus.is_zero_word());
        // rust: assert!(!modulus.is_zero_word(), "the modulus must be at least 1");
        Vanilla { modulus }
    }

    fn transform(&self, n: T) -> T {
        n.remainder(self.modulus)
    }

    fn check(&self, f: &T) -> bool {
        f.is_below(self.modulus)
    }

    fn modulus(&self) -> T {
        self.modulus
    }

    fn residue(&self, f: T) -> T {
        f
    }

    fn is_zero(&self, f: &T) -> bool {
        f.is_zero_word()
    }

    fn add(&self, a: &T, b: &T) -> T {
        add_below(*a, *b, self.modulus)
    }

    #[tactic(auto, using(crate::proofs::FormLemmas::answered_by_form, crate::specs::Plain::plain_canonical))]
    fn dbl(&self, f: T) -> T {
        dbl_below_stored(f, self.modulus)
    }

    #[tactic(auto, using(crate::proofs::FormLemmas::answered_by_form, crate::specs::Plain::plain_canonical))]
    fn sub(&self, a: &T, b: &T) -> T {
        sub_below(*a, *b, self.modulus)
    }

    fn neg(&self, f: T) -> T {
        neg_below(f, self.modulus)
    }

    #[tactic(auto, using(crate::proofs::FormLemmas::answered_by_form, crate::specs::Plain::plain_canonical))]
    fn mul(&self, a: &T, b: &T) -> T {
        T::narrow_remainder(a.product(*b), self.modulus)
    }

    // rust: #[track_caller]
    fn add_entries(&self, xs: &mut [T], ys: &[T]) {
        // rust: crate::additions::expect_entries(self, xs, ys);
        add_each(xs, ys, self.modulus);
    }

    // rust: #[track_caller]
    fn sub_entries(&self, xs: &mut [T], ys: &[T]) {
        // rust: crate::additions::expect_entries(self, xs, ys);
        sub_each(xs, ys, self.modulus);
    }

    fn inv(&self, f: T) -> Option<T> {
        fast_inverse(f, self.modulus)
    }

    fn sqr(&self, f: T) -> T {
        T::narrow_remainder(f.product(f), self.modulus)
    }
    // rust: crate::additions::reducer_members!(T);
}
