//! Sums of integers: `+` and `+=`, with an integer or a word on the right.

ghost use Rattle.modular_reduced.specs.Integers.{IsSum, modulus_of, residue_of};
ghost use Rattle.std.specs.Prelude.{◌≡◌};

use super::ReducedInt;
use super::operations::{sum, sum_assign, sum_assign_with, sum_with};
// rust: use super::operations::{with_moved, with_word};
use crate::reducer::Reducer;
// rattle: line
use modular_word::ring_word::RingWord;
use std::ops::{Add, AddAssign};

// rust instead: impl<T: PartialEq, R: Reducer<T>> Add<ReducedInt<T, R>> for ReducedInt<T, R> {
impl<T: RingWord, R: Reducer<T> + Copy> Add<ReducedInt<T, R>> for ReducedInt<T, R> {
    type Output = ReducedInt<T, R>;

    ghost can_add = { λ x y. modulus_of x ≡ modulus_of y };

    ghost add_gives = { λ x y z. IsSum x (residue_of y) z };

    // rust: #[cfg_attr(debug_assertions, track_caller)]
    fn add(self, rhs: ReducedInt<T, R>) -> ReducedInt<T, R> {
        sum(self, &rhs)
    }
}

// rust instead: impl<T: PartialEq, R: Reducer<T>> Add<&ReducedInt<T, R>> for ReducedInt<T, R> {
impl<T: RingWord, R: Reducer<T> + Copy> Add<&ReducedInt<T, R>> for ReducedInt<T, R> {
    type Output = ReducedInt<T, R>;

    ghost can_add = { λ x y. modulus_of x ≡ modulus_of y.now };

    ghost add_gives = { λ x y z. IsSum x (residue_of y.now) z };

    // rust: #[cfg_attr(debug_assertions, track_caller)]
    fn add(self, rhs: &ReducedInt<T, R>) -> ReducedInt<T, R> {
        sum(self, rhs)
    }
}

// rust instead: impl<T, R: Reducer<T>> Add<T> for ReducedInt<T, R> {
impl<T: RingWord, R: Reducer<T> + Copy> Add<T> for ReducedInt<T, R> {
    type Output = ReducedInt<T, R>;

    ghost add_gives = { λ x n z. IsSum x (T.number n) z };

    // rust: #[cfg_attr(debug_assertions, track_caller)]
    fn add(self, rhs: T) -> ReducedInt<T, R> {
        sum_with(self, rhs)
    }
}

// rust instead: impl<T: Clone, R: Reducer<T>> Add<&T> for ReducedInt<T, R> {
impl<T: RingWord, R: Reducer<T> + Copy> Add<&T> for ReducedInt<T, R> {
    type Output = ReducedInt<T, R>;

    ghost add_gives = { λ x n z. IsSum x (T.number n.now) z };

    // rust: #[cfg_attr(debug_assertions, track_caller)]
    fn add(self, rhs: &T) -> ReducedInt<T, R> {
        // rust instead: sum_with(self, rhs.clone())
        sum_with(self, *rhs)
    }
}

// rust instead: impl<T: PartialEq, R: Reducer<T>> Add<ReducedInt<T, R>> for &ReducedInt<T, R> {
impl<T: RingWord, R: Reducer<T> + Copy> Add<ReducedInt<T, R>> for &ReducedInt<T, R> {
    type Output = ReducedInt<T, R>;

    ghost can_add = { λ x y. modulus_of x.now ≡ modulus_of y };

    ghost add_gives = { λ x y z. IsSum x.now (residue_of y) z };

    // rust: #[cfg_attr(debug_assertions, track_caller)]
    fn add(self, rhs: ReducedInt<T, R>) -> ReducedInt<T, R> {
        // rust instead: with_moved(self, rhs, R::add)
        sum(*self, &rhs)
    }
}

// rust instead: impl<T: PartialEq + Clone, R: Reducer<T> + Clone> Add<&ReducedInt<T, R>> for &ReducedInt<T, R> {
impl<T: RingWord, R: Reducer<T> + Copy> Add<&ReducedInt<T, R>> for &ReducedInt<T, R> {
    type Output = ReducedInt<T, R>;

    ghost can_add = { λ x y. modulus_of x.now ≡ modulus_of y.now };

    ghost add_gives = { λ x y z. IsSum x.now (residue_of y.now) z };

    // rust: #[cfg_attr(debug_assertions, track_caller)]
    fn add(self, rhs: &ReducedInt<T, R>) -> ReducedInt<T, R> {
        // rust instead: sum(self.clone(), rhs)
        sum(*self, rhs)
    }
}

// rust instead: impl<T, R: Reducer<T> + Clone> Add<T> for &ReducedInt<T, R> {
impl<T: RingWord, R: Reducer<T> + Copy> Add<T> for &ReducedInt<T, R> {
    type Output = ReducedInt<T, R>;

    ghost add_gives = { λ x n z. IsSum x.now (T.number n) z };

    // rust: #[cfg_attr(debug_assertions, track_caller)]
    fn add(self, rhs: T) -> ReducedInt<T, R> {
        // rust instead: with_word(self, rhs, R::add)
        sum_with(*self, rhs)
    }
}

// rust instead: impl<T: Clone, R: Reducer<T> + Clone> Add<&T> for &ReducedInt<T, R> {
impl<T: RingWord, R: Reducer<T> + Copy> Add<&T> for &ReducedInt<T, R> {
    type Output = ReducedInt<T, R>;

    ghost add_gives = { λ x n z. IsSum x.now (T.number n.now) z };

    // rust: #[cfg_attr(debug_assertions, track_caller)]
    fn add(self, rhs: &T) -> ReducedInt<T, R> {
        // rust instead: with_word(self, rhs.clone(), R::add)
        sum_with(*self, *rhs)
    }
}

// rust instead: impl<T: PartialEq, R: Reducer<T>> AddAssign<ReducedInt<T, R>> for ReducedInt<T, R> {
impl<T: RingWord, R: Reducer<T> + Copy> AddAssign<ReducedInt<T, R>> for ReducedInt<T, R> {
    ghost can_add_assign = { λ x y. modulus_of x ≡ modulus_of y };

    ghost add_assign_gives = { λ x y z. IsSum x (residue_of y) z };

    // rust: #[cfg_attr(debug_assertions, track_caller)]
    fn add_assign(&mut self, rhs: ReducedInt<T, R>) {
        sum_assign(self, &rhs);
    }
}

// rust instead: impl<T: PartialEq, R: Reducer<T>> AddAssign<&ReducedInt<T, R>> for ReducedInt<T, R> {
impl<T: RingWord, R: Reducer<T> + Copy> AddAssign<&ReducedInt<T, R>> for ReducedInt<T, R> {
    ghost can_add_assign = { λ x y. modulus_of x ≡ modulus_of y.now };

    ghost add_assign_gives = { λ x y z. IsSum x (residue_of y.now) z };

    // rust: #[cfg_attr(debug_assertions, track_caller)]
    fn add_assign(&mut self, rhs: &ReducedInt<T, R>) {
        sum_assign(self, rhs);
    }
}

// rust instead: impl<T, R: Reducer<T>> AddAssign<T> for ReducedInt<T, R> {
impl<T: RingWord, R: Reducer<T> + Copy> AddAssign<T> for ReducedInt<T, R> {
    ghost add_assign_gives = { λ x n z. IsSum x (T.number n) z };

    // rust: #[cfg_attr(debug_assertions, track_caller)]
    fn add_assign(&mut self, rhs: T) {
        sum_assign_with(self, rhs);
    }
}

// rust instead: impl<T: Clone, R: Reducer<T>> AddAssign<&T> for ReducedInt<T, R> {
impl<T: RingWord, R: Reducer<T> + Copy> AddAssign<&T> for ReducedInt<T, R> {
    ghost add_assign_gives = { λ x n z. IsSum x (T.number n.now) z };

    // rust: #[cfg_attr(debug_assertions, track_caller)]
    fn add_assign(&mut self, rhs: &T) {
        // rust instead: sum_assign_with(self, rhs.clone());
        sum_assign_with(self, *rhs);
    }
}
