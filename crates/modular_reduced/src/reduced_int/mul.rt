//! Products of integers: `*` and `*=`, with an integer or a word on the right.

ghost use Rattle.modular_reduced.specs.Integers.{IsProduct, modulus_of, residue_of};
ghost use Rattle.std.specs.Prelude.{◌≡◌};

use super::ReducedInt;
use super::operations::{product, product_assign, product_assign_with, product_with};
// rust: use super::operations::{with_moved, with_word};
use crate::reducer::Reducer;
// rattle: line
use modular_word::ring_word::RingWord;
use std::ops::{Mul, MulAssign};

// rust instead: impl<T: PartialEq, R: Reducer<T>> Mul<ReducedInt<T, R>> for ReducedInt<T, R> {
impl<T: RingWord, R: Reducer<T> + Copy> Mul<ReducedInt<T, R>> for ReducedInt<T, R> {
    type Output = ReducedInt<T, R>;

    ghost can_mul = { λ x y. modulus_of x ≡ modulus_of y };

    ghost mul_gives = { λ x y z. IsProduct x (residue_of y) z };

    // rust: #[cfg_attr(debug_assertions, track_caller)]
    fn mul(self, rhs: ReducedInt<T, R>) -> ReducedInt<T, R> {
        product(self, &rhs)
    }
}

// rust instead: impl<T: PartialEq, R: Reducer<T>> Mul<&ReducedInt<T, R>> for ReducedInt<T, R> {
impl<T: RingWord, R: Reducer<T> + Copy> Mul<&ReducedInt<T, R>> for ReducedInt<T, R> {
    type Output = ReducedInt<T, R>;

    ghost can_mul = { λ x y. modulus_of x ≡ modulus_of y.now };

    ghost mul_gives = { λ x y z. IsProduct x (residue_of y.now) z };

    // rust: #[cfg_attr(debug_assertions, track_caller)]
    fn mul(self, rhs: &ReducedInt<T, R>) -> ReducedInt<T, R> {
        product(self, rhs)
    }
}

// rust instead: impl<T, R: Reducer<T>> Mul<T> for ReducedInt<T, R> {
impl<T: RingWord, R: Reducer<T> + Copy> Mul<T> for ReducedInt<T, R> {
    type Output = ReducedInt<T, R>;

    ghost mul_gives = { λ x n z. IsProduct x (T.number n) z };

    // rust: #[cfg_attr(debug_assertions, track_caller)]
    fn mul(self, rhs: T) -> ReducedInt<T, R> {
        product_with(self, rhs)
    }
}

// rust instead: impl<T: Clone, R: Reducer<T>> Mul<&T> for ReducedInt<T, R> {
impl<T: RingWord, R: Reducer<T> + Copy> Mul<&T> for ReducedInt<T, R> {
    type Output = ReducedInt<T, R>;

    ghost mul_gives = { λ x n z. IsProduct x (T.number n.now) z };

    // rust: #[cfg_attr(debug_assertions, track_caller)]
    fn mul(self, rhs: &T) -> ReducedInt<T, R> {
        // rust instead: product_with(self, rhs.clone())
        product_with(self, *rhs)
    }
}

// rust instead: impl<T: PartialEq, R: Reducer<T>> Mul<ReducedInt<T, R>> for &ReducedInt<T, R> {
impl<T: RingWord, R: Reducer<T> + Copy> Mul<ReducedInt<T, R>> for &ReducedInt<T, R> {
    type Output = ReducedInt<T, R>;

    ghost can_mul = { λ x y. modulus_of x.now ≡ modulus_of y };

    ghost mul_gives = { λ x y z. IsProduct x.now (residue_of y) z };

    // rust: #[cfg_attr(debug_assertions, track_caller)]
    fn mul(self, rhs: ReducedInt<T, R>) -> ReducedInt<T, R> {
        // rust instead: with_moved(self, rhs, R::mul)
        product(*self, &rhs)
    }
}

// rust instead: impl<T: PartialEq + Clone, R: Reducer<T> + Clone> Mul<&ReducedInt<T, R>> for &ReducedInt<T, R> {
impl<T: RingWord, R: Reducer<T> + Copy> Mul<&ReducedInt<T, R>> for &ReducedInt<T, R> {
    type Output = ReducedInt<T, R>;

    ghost can_mul = { λ x y. modulus_of x.now ≡ modulus_of y.now };

    ghost mul_gives = { λ x y z. IsProduct x.now (residue_of y.now) z };

    // rust: #[cfg_attr(debug_assertions, track_caller)]
    fn mul(self, rhs: &ReducedInt<T, R>) -> ReducedInt<T, R> {
        // rust instead: product(self.clone(), rhs)
        product(*self, rhs)
    }
}

// rust instead: impl<T, R: Reducer<T> + Clone> Mul<T> for &ReducedInt<T, R> {
impl<T: RingWord, R: Reducer<T> + Copy> Mul<T> for &ReducedInt<T, R> {
    type Output = ReducedInt<T, R>;

    ghost mul_gives = { λ x n z. IsProduct x.now (T.number n) z };

    // rust: #[cfg_attr(debug_assertions, track_caller)]
    fn mul(self, rhs: T) -> ReducedInt<T, R> {
        // rust instead: with_word(self, rhs, R::mul)
        product_with(*self, rhs)
    }
}

// rust instead: impl<T: Clone, R: Reducer<T> + Clone> Mul<&T> for &ReducedInt<T, R> {
impl<T: RingWord, R: Reducer<T> + Copy> Mul<&T> for &ReducedInt<T, R> {
    type Output = ReducedInt<T, R>;

    ghost mul_gives = { λ x n z. IsProduct x.now (T.number n.now) z };

    // rust: #[cfg_attr(debug_assertions, track_caller)]
    fn mul(self, rhs: &T) -> ReducedInt<T, R> {
        // rust instead: with_word(self, rhs.clone(), R::mul)
        product_with(*self, *rhs)
    }
}

// rust instead: impl<T: PartialEq, R: Reducer<T>> MulAssign<ReducedInt<T, R>> for ReducedInt<T, R> {
impl<T: RingWord, R: Reducer<T> + Copy> MulAssign<ReducedInt<T, R>> for ReducedInt<T, R> {
    ghost can_mul_assign = { λ x y. modulus_of x ≡ modulus_of y };

    ghost mul_assign_gives = { λ x y z. IsProduct x (residue_of y) z };

    // rust: #[cfg_attr(debug_assertions, track_caller)]
    fn mul_assign(&mut self, rhs: ReducedInt<T, R>) {
        product_assign(self, &rhs);
    }
}

// rust instead: impl<T: PartialEq, R: Reducer<T>> MulAssign<&ReducedInt<T, R>> for ReducedInt<T, R> {
impl<T: RingWord, R: Reducer<T> + Copy> MulAssign<&ReducedInt<T, R>> for ReducedInt<T, R> {
    ghost can_mul_assign = { λ x y. modulus_of x ≡ modulus_of y.now };

    ghost mul_assign_gives = { λ x y z. IsProduct x (residue_of y.now) z };

    // rust: #[cfg_attr(debug_assertions, track_caller)]
    fn mul_assign(&mut self, rhs: &ReducedInt<T, R>) {
        product_assign(self, rhs);
    }
}

// rust instead: impl<T, R: Reducer<T>> MulAssign<T> for ReducedInt<T, R> {
impl<T: RingWord, R: Reducer<T> + Copy> MulAssign<T> for ReducedInt<T, R> {
    ghost mul_assign_gives = { λ x n z. IsProduct x (T.number n) z };

    // rust: #[cfg_attr(debug_assertions, track_caller)]
    fn mul_assign(&mut self, rhs: T) {
        product_assign_with(self, rhs);
    }
}

// rust instead: impl<T: Clone, R: Reducer<T>> MulAssign<&T> for ReducedInt<T, R> {
impl<T: RingWord, R: Reducer<T> + Copy> MulAssign<&T> for ReducedInt<T, R> {
    ghost mul_assign_gives = { λ x n z. IsProduct x (T.number n.now) z };

    // rust: #[cfg_attr(debug_assertions, track_caller)]
    fn mul_assign(&mut self, rhs: &T) {
        // rust instead: product_assign_with(self, rhs.clone());
        product_assign_with(self, *rhs);
    }
}
