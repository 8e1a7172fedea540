// rattle: line
// rattle: line
// rattle: line
//! The operations of integers, to which the operators of all kinds of operands delegate.

ghost use Rattle.modular_reduced.specs.Integers.{CanDivide, IsDifference, IsNegative, IsProduct};
ghost use Rattle.modular_reduced.specs.Integers.{IsQuotient, IsSum, modulus_of, residue_of};
ghost use Rattle.std.specs.Prelude.{◌≡◌, ◌%◌};

use super::ReducedInt;
use crate::reducer::Reducer;
// rattle: line
use modular_word::ring_word::RingWord;

/// The sum.
///
/// # Conditions
///
/// - (debug) the moduli are equal
// rust: #[cfg_attr(debug_assertions, track_caller)]
// rust instead: pub fn sum<T: PartialEq, R: Reducer<T>>(
pub fn sum<T: RingWord, R: Reducer<T> + Copy>(
    x: ReducedInt<T, R>,
    y: &ReducedInt<T, R>,
) -> ReducedInt<T, R>
    requires { modulus_of x ≡ modulus_of y.now }
    ensures { IsSum x (residue_of y.now) result }
{
    prove!(x.reducer.modulus() == y.reducer.modulus());
    // rust: debug_assert!(x.reducer.modulus() == y.reducer.modulus(), "the moduli must be equal: {} and {}",
    // rust:     crate::additions::ShownModulus(x.reducer.shown_modulus()),
    // rust:     crate::additions::ShownModulus(y.reducer.shown_modulus()));
    ReducedInt {
        form: x.reducer.add(&x.form, &y.form),
        reducer: x.reducer,
    }
}

/// The sum of an integer and a word.
#[tactic(auto, using(crate::proofs::IntegerLemmas::sum_with_residue_congruent))]
// rust instead: pub fn sum_with<T, R: Reducer<T>>(x: ReducedInt<T, R>, n: T) -> ReducedInt<T, R>
pub fn sum_with<T: RingWord, R: Reducer<T> + Copy>(x: ReducedInt<T, R>, n: T) -> ReducedInt<T, R>
    ensures { IsSum x (T.number n) result }
{
    let form = x.reducer.transform(n);
    ReducedInt {
        form: x.reducer.add(&x.form, &form),
        reducer: x.reducer,
    }
}

/// The integer becomes the sum.
///
/// # Conditions
///
/// - (debug) the moduli are equal
// rust: #[cfg_attr(debug_assertions, track_caller)]
// rust instead: pub fn sum_assign<T: PartialEq, R: Reducer<T>>(x: &mut ReducedInt<T, R>, y: &ReducedInt<T, R>)
pub fn sum_assign<T: RingWord, R: Reducer<T> + Copy>(x: &mut ReducedInt<T, R>, y: &ReducedInt<T, R>)
    requires { modulus_of x.old ≡ modulus_of y.now }
    ensures { IsSum x.old (residue_of y.now) x.new }
{
    prove!(x.reducer.modulus() == y.reducer.modulus());
    // rust: debug_assert!(x.reducer.modulus() == y.reducer.modulus(), "the moduli must be equal: {} and {}",
    // rust:     crate::additions::ShownModulus(x.reducer.shown_modulus()),
    // rust:     crate::additions::ShownModulus(y.reducer.shown_modulus()));
    // rattle: line
    *x = ReducedInt {
        // rust instead: x.form = x.reducer.add(&x.form, &y.form);
        form: x.reducer.add(&x.form, &y.form),
        // rattle: line
        reducer: x.reducer,
        // rattle: line
    };
}

/// The integer becomes the sum of it and a word.
#[tactic(auto, using(crate::proofs::IntegerLemmas::sum_with_residue_congruent))]
// rust instead: pub fn sum_assign_with<T, R: Reducer<T>>(x: &mut ReducedInt<T, R>, n: T)
pub fn sum_assign_with<T: RingWord, R: Reducer<T> + Copy>(x: &mut ReducedInt<T, R>, n: T)
    ensures { IsSum x.old (T.number n) x.new }
{
    let form = x.reducer.transform(n);
    // rust: x.form = x.reducer.add(&x.form, &form);
    // rattle: item
    *x = ReducedInt {
        form: x.reducer.add(&x.form, &form),
        reducer: x.reducer,
    };
}

/// The difference.
///
/// # Conditions
///
/// - (debug) the moduli are equal
// rust: #[cfg_attr(debug_assertions, track_caller)]
// rust instead: pub fn difference<T: PartialEq, R: Reducer<T>>(
pub fn difference<T: RingWord, R: Reducer<T> + Copy>(
    x: ReducedInt<T, R>,
    y: &ReducedInt<T, R>,
) -> ReducedInt<T, R>
    requires { modulus_of x ≡ modulus_of y.now }
    ensures { IsDifference x (residue_of y.now) result }
{
    prove!(x.reducer.modulus() == y.reducer.modulus());
    // rust: debug_assert!(x.reducer.modulus() == y.reducer.modulus(), "the moduli must be equal: {} and {}",
    // rust:     crate::additions::ShownModulus(x.reducer.shown_modulus()),
    // rust:     crate::additions::ShownModulus(y.reducer.shown_modulus()));
    ReducedInt {
        form: x.reducer.sub(&x.form, &y.form),
        reducer: x.reducer,
    }
}

/// The difference of an integer and a word.
#[tactic(auto, using(crate::proofs::IntegerLemmas::difference_reduced))]
// rust instead: pub fn difference_with<T, R: Reducer<T>>(
pub fn difference_with<T: RingWord, R: Reducer<T> + Copy>(
    x: ReducedInt<T, R>,
    n: T,
) -> ReducedInt<T, R>
    ensures { IsDifference x (T.number n) result }
{
    let form = x.reducer.transform(n);
    ReducedInt {
        form: x.reducer.sub(&x.form, &form),
        reducer: x.reducer,
    }
}

/// The integer becomes the difference.
///
/// # Conditions
///
/// - (debug) the moduli are equal
// rust: #[cfg_attr(debug_assertions, track_caller)]
// rust instead: pub fn difference_assign<T: PartialEq, R: Reducer<T>>(
pub fn difference_assign<T: RingWord, R: Reducer<T> + Copy>(
    x: &mut ReducedInt<T, R>,
    y: &ReducedInt<T, R>,
)
    requires { modulus_of x.old ≡ modulus_of y.now }
    ensures { IsDifference x.old (residue_of y.now) x.new }
{
    prove!(x.reducer.modulus() == y.reducer.modulus());
    // rust: debug_assert!(x.reducer.modulus() == y.reducer.modulus(), "the moduli must be equal: {} and {}",
    // rust:     crate::additions::ShownModulus(x.reducer.shown_modulus()),
    // rust:     crate::additions::ShownModulus(y.reducer.shown_modulus()));
    // rust: x.form = x.reducer.sub(&x.form, &y.form);
    // rattle: item
    *x = ReducedInt {
        form: x.reducer.sub(&x.form, &y.form),
        reducer: x.reducer,
    };
}

/// The integer becomes the difference of it and a word.
#[tactic(auto, using(crate::proofs::IntegerLemmas::difference_reduced))]
// rust instead: pub fn difference_assign_with<T, R: Reducer<T>>(x: &mut ReducedInt<T, R>, n: T)
pub fn difference_assign_with<T: RingWord, R: Reducer<T> + Copy>(x: &mut ReducedInt<T, R>, n: T)
    ensures { IsDifference x.old (T.number n) x.new }
{
    let form = x.reducer.transform(n);
    // rust: x.form = x.reducer.sub(&x.form, &form);
    // rattle: item
    *x = ReducedInt {
        form: x.reducer.sub(&x.form, &form),
        reducer: x.reducer,
    };
}

/// The product.
///
/// # Conditions
///
/// - (debug) the moduli are equal
// rust: #[cfg_attr(debug_assertions, track_caller)]
// rust instead: pub fn product<T: PartialEq, R: Reducer<T>>(
pub fn product<T: RingWord, R: Reducer<T> + Copy>(
    x: ReducedInt<T, R>,
    y: &ReducedInt<T, R>,
) -> ReducedInt<T, R>
    requires { modulus_of x ≡ modulus_of y.now }
    ensures { IsProduct x (residue_of y.now) result }
{
    prove!(x.reducer.modulus() == y.reducer.modulus());
    // rust: debug_assert!(x.reducer.modulus() == y.reducer.modulus(), "the moduli must be equal: {} and {}",
    // rust:     crate::additions::ShownModulus(x.reducer.shown_modulus()),
    // rust:     crate::additions::ShownModulus(y.reducer.shown_modulus()));
    ReducedInt {
        form: x.reducer.mul(&x.form, &y.form),
        reducer: x.reducer,
    }
}

/// The product of an integer and a word.
#[tactic(auto, using(crate::proofs::IntegerLemmas::product_with_residue_congruent))]
// rust instead: pub fn product_with<T, R: Reducer<T>>(
pub fn product_with<T: RingWord, R: Reducer<T> + Copy>(
    x: ReducedInt<T, R>,
    n: T,
) -> ReducedInt<T, R>
    ensures { IsProduct x (T.number n) result }
{
    let form = x.reducer.transform(n);
    ReducedInt {
        form: x.reducer.mul(&x.form, &form),
        reducer: x.reducer,
    }
}

/// The integer becomes the product.
///
/// # Conditions
///
/// - (debug) the moduli are equal
// rust: #[cfg_attr(debug_assertions, track_caller)]
// rust instead: pub fn product_assign<T: PartialEq, R: Reducer<T>>(
pub fn product_assign<T: RingWord, R: Reducer<T> + Copy>(
    x: &mut ReducedInt<T, R>,
    y: &ReducedInt<T, R>,
)
    requires { modulus_of x.old ≡ modulus_of y.now }
    ensures { IsProduct x.old (residue_of y.now) x.new }
{
    prove!(x.reducer.modulus() == y.reducer.modulus());
    // rust: debug_assert!(x.reducer.modulus() == y.reducer.modulus(), "the moduli must be equal: {} and {}",
    // rust:     crate::additions::ShownModulus(x.reducer.shown_modulus()),
    // rust:     crate::additions::ShownModulus(y.reducer.shown_modulus()));
    // rust: x.form = x.reducer.mul(&x.form, &y.form);
    // rattle: item
    *x = ReducedInt {
        form: x.reducer.mul(&x.form, &y.form),
        reducer: x.reducer,
    };
}

/// The integer becomes the product of it and a word.
#[tactic(auto, using(crate::proofs::IntegerLemmas::product_with_residue_congruent))]
// rust instead: pub fn product_assign_with<T, R: Reducer<T>>(x: &mut ReducedInt<T, R>, n: T)
pub fn product_assign_with<T: RingWord, R: Reducer<T> + Copy>(x: &mut ReducedInt<T, R>, n: T)
    ensures { IsProduct x.old (T.number n) x.new }
{
    let form = x.reducer.transform(n);
    // rust: x.form = x.reducer.mul(&x.form, &form);
    // rattle: item
    *x = ReducedInt {
        form: x.reducer.mul(&x.form, &form),
        reducer: x.reducer,
    };
}

/// The quotient: the integer whose product with y is x.
///
/// # Conditions
///
/// - the divisor has an inverse modulo m
/// - (debug) the moduli are equal
// rust: #[cfg_attr(debug_assertions, track_caller)]
// rust instead: pub fn quotient<T: PartialEq, R: Reducer<T>>(
pub fn quotient<T: RingWord, R: Reducer<T> + Copy>(
    x: ReducedInt<T, R>,
    y: ReducedInt<T, R>,
) -> ReducedInt<T, R>
    requires { CanDivide x y }
    ensures { IsQuotient x y result }
{
    // rust: debug_assert!(y.reducer.modulus() == x.reducer.modulus(), "the moduli must be equal: {} and {}",
    // rust:     crate::additions::ShownModulus(x.reducer.shown_modulus()),
    // rust:     crate::additions::ShownModulus(y.reducer.shown_modulus()));
    let Some(inverse) = y.reducer.inv(y.form) else {
        // rust instead: panic!("the divisor must have an inverse modulo m")
        unreachable!()
    };
    ReducedInt {
        form: x.reducer.mul(&x.form, &inverse),
        reducer: x.reducer,
    }
}

// rust: /// The operation of a borrowed integer and one that is moved, whose reducer the result has: so nothing is cloned.
// rust: ///
// rust: /// # Panics
// rust: ///
// rust: /// A debug build panics unless the moduli are equal.
// rust: #[cfg_attr(debug_assertions, track_caller)]
// rust: #[inline]
// rust: pub fn with_moved<T: PartialEq, R: Reducer<T>>(
// rust:     x: &ReducedInt<T, R>,
// rust:     y: ReducedInt<T, R>,
// rust:     operation: impl Fn(&R, &T, &T) -> T,
// rust: ) -> ReducedInt<T, R> {
// rust:     debug_assert!(x.reducer.modulus() == y.reducer.modulus(), "the moduli must be equal: {} and {}",
// rust:         crate::additions::ShownModulus(x.reducer.shown_modulus()),
// rust:         crate::additions::ShownModulus(y.reducer.shown_modulus()));
// rust:     ReducedInt { form: operation(&y.reducer, &x.form, &y.form), reducer: y.reducer }
// rust: }
// rust:
// rust: /// The operation of a borrowed integer and a word: only the reducer is cloned.
// rust: #[inline]
// rust: pub fn with_word<T, R: Reducer<T> + Clone>(
// rust:     x: &ReducedInt<T, R>,
// rust:     n: T,
// rust:     operation: impl Fn(&R, &T, &T) -> T,
// rust: ) -> ReducedInt<T, R> {
// rust:     let form = x.reducer.transform(n);
// rust:     ReducedInt { form: operation(&x.reducer, &x.form, &form), reducer: x.reducer.clone() }
// rust: }
// rust:
// rust: /// The form of the inverse of a divisor, which it takes: so no reducer is cloned.
// rust: ///
// rust: /// # Panics
// rust: ///
// rust: /// Panics unless the divisor has an inverse modulo m. A debug build also panics unless the moduli are equal.
// rust: #[cfg_attr(debug_assertions, track_caller)]
// rust: #[inline]
// rust: pub fn inverse_form<T: PartialEq, R: Reducer<T>>(x: &R, y: &R, divisor: T) -> T {
// rust:     debug_assert!(x.modulus() == y.modulus(), "the moduli must be equal: {} and {}",
// rust:         crate::additions::ShownModulus(x.shown_modulus()), crate::additions::ShownModulus(y.shown_modulus()));
// rust:     match y.inv(divisor) {
// rust:         Some(inverse) => inverse,
// rust:         None => panic!("the divisor must have an inverse modulo m"),
// rust:     }
// rust: }

/// The negative.
// rust instead: pub fn negative<T, R: Reducer<T>>(x: ReducedInt<T, R>) -> ReducedInt<T, R>
pub fn negative<T: RingWord, R: Reducer<T> + Copy>(x: ReducedInt<T, R>) -> ReducedInt<T, R>
    ensures { IsNegative x result }
{
    ReducedInt {
        form: x.reducer.neg(x.form),
        reducer: x.reducer,
    }
}
