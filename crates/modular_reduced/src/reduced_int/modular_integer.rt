//! `ReducedInt` as a `ModularInteger`.

ghost use Rattle.modular_reduced.specs.Integers.{modulus_of, residue_of};
ghost use Rattle.std.proofs.Common.{rules};

use super::ReducedInt;
use crate::modular_integer::ModularInteger;
use crate::reducer::Reducer;
// rattle: line
use modular_word::ring_word::RingWord;

// rust instead: impl<T: PartialEq + Clone, R: Reducer<T> + Clone> ModularInteger for ReducedInt<T, R> {
impl<T: RingWord, R: Reducer<T> + Copy> ModularInteger for ReducedInt<T, R> {
    type Base = T;

    ghost modulus_number = { modulus_of };

    ghost residue_number = { residue_of };

    fn modulus(&self) -> T {
        self.reducer.modulus()
    }

    fn residue(&self) -> T {
        // rust instead: self.reducer.residue(self.form.clone())
        self.reducer.residue(self.form)
    }

    fn is_zero(&self) -> bool {
        self.reducer.is_zero(&self.form)
    }

    fn convert(&self, n: T) -> Self {
        ReducedInt {
            form: self.reducer.transform(n),
            // rust instead: reducer: self.reducer.clone(),
            reducer: self.reducer,
        }
    }

    fn double(self) -> Self {
        ReducedInt {
            form: self.reducer.dbl(self.form),
            reducer: self.reducer,
        }
    }

    fn square(self) -> Self {
        ReducedInt {
            form: self.reducer.sqr(self.form),
            reducer: self.reducer,
        }
    }

    ghost below = { λ a. a.checked.below };

    ghost equal = { Prim.search rules };

    ghost may_add = { λ a b same. same };

    ghost adds = { λ a b c same gives. gives };

    ghost may_subtract = { λ a b same. same };

    ghost subtracts = { λ a b c same gives. gives };

    ghost may_multiply = { λ a b same. same };

    ghost multiplies = { λ a b c same gives. gives };

    ghost may_negate = { λ a. tt };

    ghost negates = { λ a c gives. gives };
}
