//! Integers modulo m over any reducer.

ghost use Rattle.modular_reduced.specs.Checked.{IsChecked};
ghost use Rattle.std.specs.Prelude.{◌≡◌, ⊤};

// rattle: line
use crate::reducer::Reducer;
use crate::vanilla::Vanilla;
// rattle: line
use modular_word::ring_word::RingWord;
// rattle: line
use std::alloc::AllocError;

mod add;
mod equal;
mod methods;
mod modular_integer;
mod mul;
mod neg_div;
mod operations;
mod sub;

/// An integer modulo m, with its reducer: a form, and the reducer.
///
/// | Operators | Return modulo m | Condition |
/// |---|---|---|
/// | `x + y`, `x - y`, `x * y`, and `+=`, `-=`, `*=` | the sum, difference, product | the moduli are equal |
/// | the same with a word n on the right | the same with n mod m | none |
/// | `x / y` | the only q with q·y congruent to x | the moduli are equal, and y has an inverse |
/// | `-x` | the negative | none |
/// | `x == y` | whether the moduli and the residues are equal | none |
///
/// Each operand may also be a reference.
///
/// # Examples
///
/// ```
/// use num_modular::{ModularInteger, MontgomeryInt};
///
/// let x = MontgomeryInt::<u64>::new(10, &97);
/// let y = x.convert(20);
/// assert_eq!((x * y + 1).residue(), 7);
/// assert_eq!((x / y * y).residue(), 10);
/// ```
// rust instead: #[derive(Clone, Copy)]
#[derive(Debug)]
// rust: #[must_use]
// rust instead: pub struct ReducedInt<T, R> {
pub struct ReducedInt<T: RingWord, R: Reducer<T>> {
    // rust instead: pub(crate) form: T,
    form: T,
    // rust instead: pub(crate) reducer: R,
    reducer: R,
    // Contracts use the modulus (`modulus_of`), the residue (`residue_of`), and the form (`form_of`).
    ghost checked: { IsChecked R.Reducer T.number reducer form },
}

/// An integer over [`Vanilla`]: modulo m, where the form of a residue is the residue.
///
/// # Examples
///
/// ```
/// use num_modular::{ModularInteger, VanillaInt};
///
/// let x = VanillaInt::<u8>::new(10, &21);
/// assert_eq!((x * x).residue(), 16); // 100 modulo 21
/// ```
pub type VanillaInt<T> = ReducedInt<T, Vanilla<T>>;

// rattle: line
impl<T: RingWord, R: Reducer<T> + Copy> Copy for ReducedInt<T, R> {}

// rattle: item
impl<T: RingWord, R: Reducer<T> + Copy> Clone for ReducedInt<T, R> {
    ghost is_clone = { λ x y. x ≡ y };

    ghost is_infallible = { λ _. ⊤ };

    fn clone(&self) -> Result<Self, AllocError> {
        Ok(*self)
    }
}
