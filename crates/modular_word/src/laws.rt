//! Laws of whole numbers that the proofs of every crate use: residues, congruence, powers, divisors, inverses, sums
//! over a range. Each is a contract of a function with an empty body; to use a law, call the function and cite its
//! clauses.

ghost use Rattle.std.specs.Prelude.{◌≡◌, ℕ, suc, ◌+◌, ◌-◌, ◌*◌, ◌%◌, ◌^◌, ◌<◌, ◌≤◌, ◌↔◌, Some, Bool, not, ℤ, pos, ◌-ℤ◌};
ghost use Rattle.modular_word.specs.Congruence.{Congruent};
ghost use Rattle.modular_word.specs.Divisors.{Coprime, IsGreatestCommonDivisor, gcd};
ghost use Rattle.modular_word.specs.Inverses.{IsInverse, IsInversion, HasInverse, inverse_of};
ghost use Rattle.modular_word.specs.Residues.{IsResidue, residue};
ghost use Rattle.modular_word.specs.Sums.{sum_below, sum_to, count_to, polynomial_highest_first, Permutes};

use crate::path_word::PathWord;

/// The base of words: a number is below it exactly where it is below 2^w, for words of w bits.
///
/// The base is at least
/// 256. Its square is the number of double words, and the high word of a double word is below it.
#[tactic(auto, using(crate::proofs::Bases::base_at_least, crate::proofs::Bases::below_base, crate::proofs::Bases::below_power, crate::proofs::Bases::double_base))]
pub fn base_laws<T: PathWord>()
    ensures at_least { 256 ≤ T.base }
    ensures same { (n : ℕ) → n < T.base ↔ (n < 2 ^ T.width) }
    ensures double { T.base * T.base ≡ 2 ^ (T.width + T.width) }
    ensures high { (low high : ℕ) → low + T.base * high < T.base * T.base → high < T.base }
{}

/// Residues: a whole number has exactly one modulo m, which [`residue`] computes.
///
/// The residue of a - b, plus b, is congruent to a modulo m.
///
/// Source: Gauss, Disquisitiones Arithmeticae, articles 1 to 4.
pub fn residue_laws()
    ensures residue { (m : ℕ) (z : ℤ) → 0 < m → IsResidue m z (residue m z) }
    ensures unique { (m : ℕ) (z : ℤ) (v : ℕ) → 0 < m → IsResidue m z v → v ≡ residue m z }
    ensures difference { (m a b : ℕ) → 0 < m → (residue m (pos a -ℤ pos b) + b) % m ≡ a % m }
{}

/// Nested remainders: in a sum, a product or a power modulo m, a number may be replaced by its remainder.
///
/// A tactic takes most of them by `using(num_modular::specs::Remainders::remainders)`; `once` is in
/// [`inner_remainders`].
///
/// Source: Gauss, Disquisitiones Arithmeticae, articles 6 to 8.
#[tactic(auto, using(crate::proofs::Remainders::nested_remainders))]
pub fn remainder_laws()
    ensures once { (m a : ℕ) → a % m % m ≡ a % m }
    ensures sums { (m a b : ℕ) → (a % m + b % m) % m ≡ (a + b) % m }
    ensures summand { (m a b : ℕ) → (a % m + b) % m ≡ (a + b) % m }
    ensures products { (m a b : ℕ) → (a % m * (b % m)) % m ≡ (a * b) % m }
    ensures factor { (m a b : ℕ) → (a % m * b) % m ≡ (a * b) % m }
    ensures powers { (m a k : ℕ) → (a % m) ^ k % m ≡ a ^ k % m }
{}

/// Congruence modulo m: it is an equivalence, and a number is congruent to its residue.
///
/// Sums, products and powers preserve it. A term cancels, and so does a factor that has an inverse.
///
/// Source: Gauss, Disquisitiones Arithmeticae, articles 2, 6 to 8 and 22.
#[tactic(auto, using(crate::proofs::Congruence::congruences))]
pub fn congruence_laws()
    ensures residue { (m a : ℕ) → Congruent m (a % m) a }
    ensures symmetric { (m a b : ℕ) → Congruent m a b → Congruent m b a }
    ensures transitive { (m a b c : ℕ) → Congruent m a b → Congruent m b c → Congruent m a c }
    ensures sums { (m a b c d : ℕ) → Congruent m a b → Congruent m c d → Congruent m (a + c) (b + d) }
    ensures products { (m a b c d : ℕ) → Congruent m a b → Congruent m c d → Congruent m (a * c) (b * d) }
    ensures powers { (m a b k : ℕ) → Congruent m a b → Congruent m (a ^ k) (b ^ k) }
    ensures differences { (m a b c : ℕ) → Congruent m (a + c) (b + c) → Congruent m a b }
    ensures quotients { (m a b c j : ℕ) → Congruent m (c * j) 1 → Congruent m (a * c) (b * c) → Congruent m a b }
{}

/// Exponents.
#[tactic(auto, using(crate::proofs::Powers::powers))]
pub fn power_laws()
    ensures one { (k : ℕ) → 1 ^ k ≡ 1 }
    ensures first { (a : ℕ) → a ^ 1 ≡ a }
    ensures sum { (a b c : ℕ) → a ^ (b + c) ≡ a ^ b * a ^ c }
    ensures product { (a b c : ℕ) → a ^ (b * c) ≡ (a ^ b) ^ c }
{}

/// Greatest common divisors: two numbers have exactly one, [`gcd`].
///
/// They are coprime exactly where it is 1, and whether a number is coprime to n depends only on its residue modulo n.
///
/// Source: Euclid, Elements, book VII, propositions 1 and 2.
pub fn divisor_laws()
    ensures greatest { (a n : ℕ) → 0 < n → IsGreatestCommonDivisor a n (gcd a n) }
    ensures coprime { (a n : ℕ) → 0 < n → Coprime a n ↔ (gcd a n ≡ 1) }
    ensures residue { (a n : ℕ) → Coprime (a % n) n ↔ Coprime a n }
{}

/// When an inverse exists: exactly where the greatest common divisor is 1, that is, where the numbers are coprime.
///
/// There is at most one, and [`inverse_of`] is it, or `None` where there is none. It depends only on the residue.
///
/// Source: Gauss, Disquisitiones Arithmeticae, articles 29 and 31.
pub fn inverse_laws()
    ensures exists { (m a : ℕ) → 0 < m → HasInverse m a ↔ (gcd a m ≡ 1) }
    ensures coprime { (m a : ℕ) → 0 < m → HasInverse m a ↔ Coprime a m }
    ensures unique { (m a x y : ℕ) → IsInverse m a x → IsInverse m a y → x ≡ y }
    ensures named { (m a : ℕ) → IsInversion (λ x. x) m a (inverse_of m a) }
    ensures found { (m a x : ℕ) → IsInverse m a x → inverse_of m a ≡ Some x }
    ensures residue { (m a x : ℕ) → IsInverse m (a % m) x ↔ IsInverse m a x }
    ensures has_residue { (m a : ℕ) → HasInverse m (a % m) ↔ HasInverse m a }
{}

/// Euclid's lemma: where n divides a·b and is coprime to a, it divides b.
///
/// Source: Euclid, Elements, book VII, proposition 30 (there for a prime n).
#[tactic(auto, using(crate::proofs::Divisors::coprime_cancel))]
pub fn euclids_lemma()
    ensures { (a n x : ℕ) → 0 < n → Coprime a n → (a * x) % n ≡ 0 → x % n ≡ 0 }
{}

/// Sums: a double sum may be taken in either order.
///
/// A sum over a range keeps its value where its terms are permuted or reversed. Terms of equal parities have sums of
/// equal parities. How many numbers of a range pass a test, and how many fail it, add up to the length of the range. A
/// sum from 1 to h is a sum from 0 to h - 1.
///
/// Source: Graham, Knuth and Patashnik, Concrete Mathematics, chapter 2.
#[tactic(auto, using(crate::proofs::Sums::sums))]
pub fn sum_laws()
    ensures exchanged { (f : ℕ → ℕ → ℕ) (h k : ℕ)
        → sum_to (λ x. sum_to (λ y. f x y) k) h ≡ sum_to (λ y. sum_to (λ x. f x y) h) k }
    ensures permuted { (f g : ℕ → ℕ) (h : ℕ) → Permutes f h → sum_to (λ x. g (f x)) h ≡ sum_to g h }
    ensures reversed { (g : ℕ → ℕ) (h : ℕ) → sum_to (λ x. g (suc h - x)) h ≡ sum_to g h }
    ensures parity { (f g : ℕ → ℕ) (h : ℕ) → ((x : ℕ) → 0 < x → x ≤ h → f x % 2 ≡ g x % 2)
        → sum_to f h % 2 ≡ sum_to g h % 2 }
    ensures counted { (p : ℕ → Bool) (h : ℕ) → count_to p h + count_to (λ x. not (p x)) h ≡ h }
    ensures from_zero { (f : ℕ → ℕ) (h : ℕ) → sum_to f h ≡ sum_below h (λ x. f (suc x)) }
{}

/// Sums over ranges: an empty sum is 0, and extending a range by one adds one term.
///
/// So a polynomial by its coefficients, the highest first, satisfies Horner's rule: with one more coefficient it is x
/// times the former polynomial, plus that coefficient.
///
/// Source: Knuth, The Art of Computer Programming, volume 2, section 4.6.4.
#[tactic(auto, using(crate::proofs::Polynomials::ranges))]
pub fn range_laws()
    ensures none { (f : ℕ → ℕ) → sum_below 0 f ≡ 0 }
    ensures more { (f : ℕ → ℕ) (n : ℕ) → sum_below (n + 1) f ≡ sum_below n f + f n }
    ensures horner { (n : ℕ) (c : ℕ → ℕ) (x : ℕ) →
        polynomial_highest_first (n + 1) c x ≡ polynomial_highest_first n c x * x + c n }
{}

/// Linear congruences: a·y = b modulo m is solved by b·x where x is an inverse of a.
///
/// So where x is the inverse of m modulo n, there is a formula for the number below m·n that is congruent to a modulo m
/// and to b modulo n: the Chinese remainder theorem for two moduli.
///
/// Source: Gauss, Disquisitiones Arithmeticae, articles 29, 31 and 36; Knuth, The Art of Computer
/// Programming, volume 2, section 4.3.2.
#[tactic(auto, using(crate::proofs::LinearCongruences::inverse_solves_congruence, crate::proofs::LinearCongruences::both_remainders, crate::proofs::ResidueLemmas::difference_and))]
pub fn linear_congruence_laws()
    ensures solved { (m a b x : ℕ) → IsInverse m a x → (a * ((b * x) % m)) % m ≡ b % m }
    ensures pair { (m n a b x : ℕ) → 0 < m → 0 < n → IsInverse n m x →
        let both = a % m + m * ((residue n (pos b -ℤ pos (a % m)) * x) % n) in
        (both < m * n) × (both % m ≡ a % m) × (both % n ≡ b % n) }
{}
