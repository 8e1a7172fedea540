//! Negatives and quotients of integers: unary `-`, and `/`.

ghost use Rattle.modular_reduced.specs.Integers.{CanDivide, IsNegative, IsQuotient};

use super::ReducedInt;
use super::operations::{negative, quotient};
// rust: use super::operations::inverse_form;
use crate::reducer::Reducer;
// rattle: line
use modular_word::ring_word::RingWord;
use std::ops::{Div, Neg};

// rust instead: impl<T, R: Reducer<T>> Neg for ReducedInt<T, R> {
impl<T: RingWord, R: Reducer<T> + Copy> Neg for ReducedInt<T, R> {
    type Output = ReducedInt<T, R>;

    ghost neg_gives = { λ x z. IsNegative x z };

    fn neg(self) -> ReducedInt<T, R> {
        negative(self)
    }
}

// rust instead: impl<T: Clone, R: Reducer<T> + Clone> Neg for &ReducedInt<T, R> {
impl<T: RingWord, R: Reducer<T> + Copy> Neg for &ReducedInt<T, R> {
    type Output = ReducedInt<T, R>;

    ghost neg_gives = { λ x z. IsNegative x.now z };

    fn neg(self) -> ReducedInt<T, R> {
        // rust instead: negative(self.clone())
        negative(*self)
    }
}

// rust instead: impl<T: PartialEq, R: Reducer<T>> Div<ReducedInt<T, R>> for ReducedInt<T, R> {
impl<T: RingWord, R: Reducer<T> + Copy> Div<ReducedInt<T, R>> for ReducedInt<T, R> {
    type Output = ReducedInt<T, R>;

    ghost can_div = { λ x y. CanDivide x y };

    ghost div_gives = { λ x y z. IsQuotient x y z };

    // rust: #[cfg_attr(debug_assertions, track_caller)]
    fn div(self, rhs: ReducedInt<T, R>) -> ReducedInt<T, R> {
        quotient(self, rhs)
    }
}

// rust instead: impl<T: PartialEq + Clone, R: Reducer<T>> Div<&ReducedInt<T, R>> for ReducedInt<T, R> {
impl<T: RingWord, R: Reducer<T> + Copy> Div<&ReducedInt<T, R>> for ReducedInt<T, R> {
    type Output = ReducedInt<T, R>;

    ghost can_div = { λ x y. CanDivide x y.now };

    ghost div_gives = { λ x y z. IsQuotient x y.now z };

    // rust: #[cfg_attr(debug_assertions, track_caller)]
    fn div(self, rhs: &ReducedInt<T, R>) -> ReducedInt<T, R> {
        // rust: let inverse = inverse_form(&self.reducer, &rhs.reducer, rhs.form.clone());
        // rust instead: ReducedInt { form: self.reducer.mul(&self.form, &inverse), reducer: self.reducer }
        quotient(self, *rhs)
    }
}

// rust instead: impl<T: PartialEq, R: Reducer<T>> Div<ReducedInt<T, R>> for &ReducedInt<T, R> {
impl<T: RingWord, R: Reducer<T> + Copy> Div<ReducedInt<T, R>> for &ReducedInt<T, R> {
    type Output = ReducedInt<T, R>;

    ghost can_div = { λ x y. CanDivide x.now y };

    ghost div_gives = { λ x y z. IsQuotient x.now y z };

    // rust: #[cfg_attr(debug_assertions, track_caller)]
    fn div(self, rhs: ReducedInt<T, R>) -> ReducedInt<T, R> {
        // rust: let inverse = inverse_form(&self.reducer, &rhs.reducer, rhs.form);
        // rust instead: ReducedInt { form: rhs.reducer.mul(&self.form, &inverse), reducer: rhs.reducer }
        quotient(*self, rhs)
    }
}

// rust instead: impl<T: PartialEq + Clone, R: Reducer<T> + Clone> Div<&ReducedInt<T, R>> for &ReducedInt<T, R> {
impl<T: RingWord, R: Reducer<T> + Copy> Div<&ReducedInt<T, R>> for &ReducedInt<T, R> {
    type Output = ReducedInt<T, R>;

    ghost can_div = { λ x y. CanDivide x.now y.now };

    ghost div_gives = { λ x y z. IsQuotient x.now y.now z };

    // rust: #[cfg_attr(debug_assertions, track_caller)]
    fn div(self, rhs: &ReducedInt<T, R>) -> ReducedInt<T, R> {
        // rust instead: quotient(self.clone(), rhs.clone())
        quotient(*self, *rhs)
    }
}
