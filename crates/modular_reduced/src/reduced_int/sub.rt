//! Differences of integers: `-` and `-=`, with an integer or a word on the right.

ghost use Rattle.modular_reduced.specs.Integers.{IsDifference, modulus_of, residue_of};
ghost use Rattle.std.specs.Prelude.{◌≡◌};

use super::ReducedInt;
use super::operations::{difference, difference_assign, difference_assign_with, difference_with};
// rust: use super::operations::{with_moved, with_word};
use crate::reducer::Reducer;
// rattle: line
use modular_word::ring_word::RingWord;
use std::ops::{Sub, SubAssign};

// rust instead: impl<T: PartialEq, R: Reducer<T>> Sub<ReducedInt<T, R>> for ReducedInt<T, R> {
impl<T: RingWord, R: Reducer<T> + Copy> Sub<ReducedInt<T, R>> for ReducedInt<T, R> {
    type Output = ReducedInt<T, R>;

    ghost can_sub = { λ x y. modulus_of x ≡ modulus_of y };

    ghost sub_gives = { λ x y z. IsDifference x (residue_of y) z };

    // rust: #[cfg_attr(debug_assertions, track_caller)]
    fn sub(self, rhs: ReducedInt<T, R>) -> ReducedInt<T, R> {
        difference(self, &rhs)
    }
}

// rust instead: impl<T: PartialEq, R: Reducer<T>> Sub<&ReducedInt<T, R>> for ReducedInt<T, R> {
impl<T: RingWord, R: Reducer<T> + Copy> Sub<&ReducedInt<T, R>> for ReducedInt<T, R> {
    type Output = ReducedInt<T, R>;

    ghost can_sub = { λ x y. modulus_of x ≡ modulus_of y.now };

    ghost sub_gives = { λ x y z. IsDifference x (residue_of y.now) z };

    // rust: #[cfg_attr(debug_assertions, track_caller)]
    fn sub(self, rhs: &ReducedInt<T, R>) -> ReducedInt<T, R> {
        difference(self, rhs)
    }
}

// rust instead: impl<T, R: Reducer<T>> Sub<T> for ReducedInt<T, R> {
impl<T: RingWord, R: Reducer<T> + Copy> Sub<T> for ReducedInt<T, R> {
    type Output = ReducedInt<T, R>;

    ghost sub_gives = { λ x n z. IsDifference x (T.number n) z };

    // rust: #[cfg_attr(debug_assertions, track_caller)]
    fn sub(self, rhs: T) -> ReducedInt<T, R> {
        difference_with(self, rhs)
    }
}

// rust instead: impl<T: Clone, R: Reducer<T>> Sub<&T> for ReducedInt<T, R> {
impl<T: RingWord, R: Reducer<T> + Copy> Sub<&T> for ReducedInt<T, R> {
    type Output = ReducedInt<T, R>;

    ghost sub_gives = { λ x n z. IsDifference x (T.number n.now) z };

    // rust: #[cfg_attr(debug_assertions, track_caller)]
    fn sub(self, rhs: &T) -> ReducedInt<T, R> {
        // rust instead: difference_with(self, rhs.clone())
        difference_with(self, *rhs)
    }
}

// rust instead: impl<T: PartialEq, R: Reducer<T>> Sub<ReducedInt<T, R>> for &ReducedInt<T, R> {
impl<T: RingWord, R: Reducer<T> + Copy> Sub<ReducedInt<T, R>> for &ReducedInt<T, R> {
    type Output = ReducedInt<T, R>;

    ghost can_sub = { λ x y. modulus_of x.now ≡ modulus_of y };

    ghost sub_gives = { λ x y z. IsDifference x.now (residue_of y) z };

    // rust: #[cfg_attr(debug_assertions, track_caller)]
    fn sub(self, rhs: ReducedInt<T, R>) -> ReducedInt<T, R> {
        // rust instead: with_moved(self, rhs, R::sub)
        difference(*self, &rhs)
    }
}

// rust instead: impl<T: PartialEq + Clone, R: Reducer<T> + Clone> Sub<&ReducedInt<T, R>> for &ReducedInt<T, R> {
impl<T: RingWord, R: Reducer<T> + Copy> Sub<&ReducedInt<T, R>> for &ReducedInt<T, R> {
    type Output = ReducedInt<T, R>;

    ghost can_sub = { λ x y. modulus_of x.now ≡ modulus_of y.now };

    ghost sub_gives = { λ x y z. IsDifference x.now (residue_of y.now) z };

    // rust: #[cfg_attr(debug_assertions, track_caller)]
    fn sub(self, rhs: &ReducedInt<T, R>) -> ReducedInt<T, R> {
        // rust instead: difference(self.clone(), rhs)
        difference(*self, rhs)
    }
}

// rust instead: impl<T, R: Reducer<T> + Clone> Sub<T> for &ReducedInt<T, R> {
impl<T: RingWord, R: Reducer<T> + Copy> Sub<T> for &ReducedInt<T, R> {
    type Output = ReducedInt<T, R>;

    ghost sub_gives = { λ x n z. IsDifference x.now (T.number n) z };

    // rust: #[cfg_attr(debug_assertions, track_caller)]
    fn sub(self, rhs: T) -> ReducedInt<T, R> {
        // rust instead: with_word(self, rhs, R::sub)
        difference_with(*self, rhs)
    }
}

// rust instead: impl<T: Clone, R: Reducer<T> + Clone> Sub<&T> for &ReducedInt<T, R> {
impl<T: RingWord, R: Reducer<T> + Copy> Sub<&T> for &ReducedInt<T, R> {
    type Output = ReducedInt<T, R>;

    ghost sub_gives = { λ x n z. IsDifference x.now (T.number n.now) z };

    // rust: #[cfg_attr(debug_assertions, track_caller)]
    fn sub(self, rhs: &T) -> ReducedInt<T, R> {
        // rust instead: with_word(self, rhs.clone(), R::sub)
        difference_with(*self, *rhs)
    }
}

// rust instead: impl<T: PartialEq, R: Reducer<T>> SubAssign<ReducedInt<T, R>> for ReducedInt<T, R> {
impl<T: RingWord, R: Reducer<T> + Copy> SubAssign<ReducedInt<T, R>> for ReducedInt<T, R> {
    ghost can_sub_assign = { λ x y. modulus_of x ≡ modulus_of y };

    ghost sub_assign_gives = { λ x y z. IsDifference x (residue_of y) z };

    // rust: #[cfg_attr(debug_assertions, track_caller)]
    fn sub_assign(&mut self, rhs: ReducedInt<T, R>) {
        difference_assign(self, &rhs);
    }
}

// rust instead: impl<T: PartialEq, R: Reducer<T>> SubAssign<&ReducedInt<T, R>> for ReducedInt<T, R> {
impl<T: RingWord, R: Reducer<T> + Copy> SubAssign<&ReducedInt<T, R>> for ReducedInt<T, R> {
    ghost can_sub_assign = { λ x y. modulus_of x ≡ modulus_of y.now };

    ghost sub_assign_gives = { λ x y z. IsDifference x (residue_of y.now) z };

    // rust: #[cfg_attr(debug_assertions, track_caller)]
    fn sub_assign(&mut self, rhs: &ReducedInt<T, R>) {
        difference_assign(self, rhs);
    }
}

// rust instead: impl<T, R: Reducer<T>> SubAssign<T> for ReducedInt<T, R> {
impl<T: RingWord, R: Reducer<T> + Copy> SubAssign<T> for ReducedInt<T, R> {
    ghost sub_assign_gives = { λ x n z. IsDifference x (T.number n) z };

    // rust: #[cfg_attr(debug_assertions, track_caller)]
    fn sub_assign(&mut self, rhs: T) {
        difference_assign_with(self, rhs);
    }
}

// rust instead: impl<T: Clone, R: Reducer<T>> SubAssign<&T> for ReducedInt<T, R> {
impl<T: RingWord, R: Reducer<T> + Copy> SubAssign<&T> for ReducedInt<T, R> {
    ghost sub_assign_gives = { λ x n z. IsDifference x (T.number n.now) z };

    // rust: #[cfg_attr(debug_assertions, track_caller)]
    fn sub_assign(&mut self, rhs: &T) {
        // rust instead: difference_assign_with(self, rhs.clone());
        difference_assign_with(self, *rhs);
    }
}
