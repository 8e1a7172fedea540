//! Calls of the laws of `num_modular::laws` on whole numbers, symbols and counts, from a crate that lists only the
//! root.
//!
//! A clause of each law on numbers, and of two on symbols, is cited.

ghost use Rattle.num_modular.specs.Congruence.{Congruent};
ghost use Rattle.num_modular.specs.Divisors.{Coprime};
ghost use Rattle.num_modular.specs.Inverses.{IsInverse};
ghost use Rattle.num_modular.specs.Jacobi.{jacobi};
ghost use Rattle.num_modular.specs.Primes.{IsPrime};
ghost use Rattle.num_modular.specs.Residues.{IsResidue, residue};
ghost use Rattle.num_modular.specs.Sums.{sum_to};
ghost use Rattle.std.specs.Prelude.{◌≡◌, ℕ, suc, ◌-◌, ◌*◌, ◌%◌, ◌^◌, ◌<◌, ◌≤◌, ◌↔◌, ℤ, ◌*ℤ◌};

use num_modular::PlainWord;
use num_modular::laws::{
    base_laws, congruence_laws, digit_laws, division_laws, divisor_laws, euclids_lemma, fold_laws,
    form_laws, inverse_laws, jacobi_laws, power_laws, prime_laws, remainder_laws, residue_laws,
    step_laws, stop_laws, sum_laws,
};

/// Laws of whole numbers.
pub fn laws_of_numbers<T: PlainWord>()
    ensures base { 256 ≤ T.base }
    ensures residue { (m : ℕ) (z : ℤ) → 0 < m → IsResidue m z (residue m z) }
    ensures remainder { (m a : ℕ) → a % m % m ≡ a % m }
    ensures congruence { (m a b : ℕ) → Congruent m a b → Congruent m b a }
    ensures power { (k : ℕ) → 1 ^ k ≡ 1 }
    ensures divisor { (a n : ℕ) → Coprime (a % n) n ↔ Coprime a n }
    ensures inverse { (m a x y : ℕ) → IsInverse m a x → IsInverse m a y → x ≡ y }
    ensures euclid { (a n x : ℕ) → 0 < n → Coprime a n → (a * x) % n ≡ 0 → x % n ≡ 0 }
    ensures sum { (f : ℕ → ℕ) (h : ℕ) → sum_to (λ x. f (suc h - x)) h ≡ sum_to f h }
{
    base_laws::<T>();
    residue_laws();
    remainder_laws();
    congruence_laws();
    power_laws();
    divisor_laws();
    inverse_laws();
    euclids_lemma();
    sum_laws();
}

/// Laws of symbols and primes; those of steps, forms and runs are only called.
pub fn laws_of_symbols<T: PlainWord>()
    ensures product { (a b : ℤ) (n : ℕ) → n % 2 ≡ 1 → jacobi (a *ℤ b) n ≡ jacobi a n *ℤ jacobi b n }
    ensures fermat { (a p : ℕ) → IsPrime p → (a % p ≡ 0 → ⊥) → a ^ (p - 1) % p ≡ 1 }
{
    jacobi_laws();
    prime_laws();
    division_laws();
    digit_laws();
    step_laws();
    fold_laws();
    form_laws::<T>();
    stop_laws::<T>();
}
