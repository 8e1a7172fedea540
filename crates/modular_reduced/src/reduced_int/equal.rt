//! Equality of integers: equal moduli and equal forms, or of integers of one ring equal forms alone.

ghost use Rattle.modular_reduced.specs.Integers.{form_of, modulus_of, residue_of};
ghost use Rattle.std.proofs.Common.{rules};
ghost use Rattle.std.specs.Cmp.Rules.{comparing};
ghost use Rattle.std.specs.Prelude.{◌≡◌, ◌↔◌, IsTrue, nat_eq, ◌&&◌};

use super::ReducedInt;
use crate::reducer::Reducer;
// rattle: line
use modular_word::ring_word::RingWord;

// rust instead: impl<T: PartialEq, R: Reducer<T>> PartialEq for ReducedInt<T, R> {
impl<T: RingWord, R: Reducer<T> + Copy> PartialEq for ReducedInt<T, R> {
    // Both the forms and the moduli are equal. The forms come first: a modulus may take a few steps to compute.
    ghost eq = { λ x y. nat_eq (form_of x) (form_of y) && nat_eq (modulus_of x) (modulus_of y) };

    ghost laws = { Prim.search (comparing, rules) };

    fn eq(&self, other: &Self) -> bool {
        self.form == other.form && self.reducer.modulus() == other.reducer.modulus()
    }
}

// rust instead: impl<T: PartialEq, R: Reducer<T>> ReducedInt<T, R> {
impl<T: RingWord, R: Reducer<T> + Copy> ReducedInt<T, R> {
    /// Whether the residues are equal: `==` without its comparison of the moduli.
    ///
    /// # Conditions
    ///
    /// - (debug) the moduli are equal
    ///
    /// # Examples
    ///
    /// ```
    /// use num_modular::{ModularInteger, MontgomeryInt};
    ///
    /// let x = MontgomeryInt::<u64>::new(10, &97);
    /// assert!(x.eq_in_same_ring(&x.convert(107)));
    /// assert!(!x.eq_in_same_ring(&x.convert(11)));
    /// ```
    // rust: #[cfg_attr(debug_assertions, track_caller)]
    pub fn eq_in_same_ring(&self, other: &Self) -> bool
        requires { modulus_of self.now ≡ modulus_of other.now }
        ensures { IsTrue result ↔ (residue_of self.now ≡ residue_of other.now) }
    {
        prove!(self.reducer.modulus() == other.reducer.modulus());
        // rust: debug_assert!(self.reducer.modulus() == other.reducer.modulus(), "the moduli must be equal: {} and {}",
        // rust:     crate::additions::ShownModulus(self.reducer.shown_modulus()),
        // rust:     crate::additions::ShownModulus(other.reducer.shown_modulus()));
        self.form == other.form
    }
}
