//! The methods of `ReducedInt`: its constructor, its form, inverses and powers.

ghost use Rattle.modular_reduced.specs.Integers.{form_of, modulus_of, residue_of, IsReduced};
ghost use Rattle.modular_word.specs.Inverses.{IsInverse};
ghost use Rattle.std.specs.Prelude.{◌≡◌, ℕ, ◌%◌, ◌^◌, MatchOption};

use super::ReducedInt;
use crate::reducer::Reducer;
// rattle: line
use modular_word::ring_word::RingWord;

// rust instead: impl<T, R: Reducer<T>> ReducedInt<T, R> {
impl<T: RingWord, R: Reducer<T> + Copy> ReducedInt<T, R> {
    /// n modulo m.
    ///
    /// # Conditions
    ///
    /// - the reducer admits m
    ///
    /// # Examples
    ///
    /// ```
    /// use num_modular::{ModularInteger, VanillaInt};
    ///
    /// assert_eq!(VanillaInt::<u8>::new(200, &7).residue(), 4);
    /// ```
    // rust: #[track_caller]
    pub fn new(n: T, m: &T) -> Self
        requires { R.admits (T.number m.now) }
        ensures { IsReduced (T.number m.now) (T.number n % T.number m.now) result }
    {
        let reducer = R::new(m);
        let form = reducer.transform(n);
        ReducedInt { form, reducer }
    }

    /// The form of the residue.
    ///
    /// # Examples
    ///
    /// ```
    /// use num_modular::FixedMontgomeryInt32;
    ///
    /// let x = FixedMontgomeryInt32::<97>::new(1, &97);
    /// assert_eq!(*x.repr() as u64, (1 << 32) % 97); // the Montgomery form of 1
    /// ```
    pub fn repr(&self) -> &T
        ensures word { T.number result.now ≡ form_of self.now }
        ensures form { T.number result.now ≡ R.form (modulus_of self.now) (residue_of self.now) }
    {
        &self.form
    }

    /// The inverse modulo m; `None` exactly where there is none.
    ///
    /// # Examples
    ///
    /// ```
    /// use num_modular::{ModularInteger, VanillaInt};
    ///
    /// let x = VanillaInt::<u64>::new(3, &10);
    /// assert_eq!(x.inv().map(|y| y.residue()), Some(7)); // 3 * 7 = 21
    /// assert!(x.convert(4).inv().is_none());
    /// ```
    pub fn inv(self) -> Option<Self>
        ensures { let m = modulus_of self in
            MatchOption result ((x : ℕ) → IsInverse m (residue_of self) x → ⊥)
            (λ y. (modulus_of y ≡ m) × IsInverse m (residue_of self) (residue_of y)) }
    {
        let form = self.reducer.inv(self.form)?;
        Some(ReducedInt {
            form,
            reducer: self.reducer,
        })
    }

    /// The power: to the exponent `exp`, 1 mod m for the exponent 0.
    ///
    /// `pow_counted` says how many products it takes.
    ///
    /// # Examples
    ///
    /// ```
    /// use num_modular::{ModularInteger, VanillaInt};
    ///
    /// let x = VanillaInt::<u64>::new(2, &1000);
    /// assert_eq!(x.pow(&10).residue(), 24); // 1024 modulo 1000
    /// ```
    pub fn pow(self, exp: &T) -> Self
        ensures { let m = modulus_of self in IsReduced m (residue_of self ^ T.number exp.now % m) result }
    {
        ReducedInt {
            form: self.reducer.pow(self.form, exp),
            reducer: self.reducer,
        }
    }
}
