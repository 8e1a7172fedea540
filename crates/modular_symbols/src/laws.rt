//! The laws of the Jacobi symbol and of primes, as contracts of functions with an empty body.
//!
//! Those of the symbol are proved from its definition by a count of residues.

ghost use Rattle.std.specs.Prelude.{◌≡◌, ℕ, ◌*◌, ◌-◌, ◌%◌, ◌^◌, ◌<◌, ◌↔◌, ◌⊎◌, ℤ, pos, negsuc};
ghost use Rattle.std.specs.Prelude.{◌*ℤ◌, nat_abs, ◌==◌, ◌&&◌, ◌||◌, Some, IsSome, if◌then◌else◌, List};
ghost use Rattle.std.specs.List.{AllZip};
ghost use Rattle.modular_word.specs.Divisors.{Coprime, gcd};
ghost use Rattle.modular_word.specs.Inverses.{HasInverse};
ghost use Rattle.modular_word.specs.Residues.{residue};
ghost use Rattle.modular_symbols.specs.Jacobi.{jacobi, checked_jacobi_of};
ghost use Rattle.modular_symbols.specs.Legendre.{classed_power, checked_legendre_of};
ghost use Rattle.modular_symbols.specs.PrimeFactors.{IsLegendre, product, symbol_product};
ghost use Rattle.modular_symbols.specs.Primes.{IsPrime, IsOddPrime};

/// Jacobi symbols: the symbol of a over an odd n depends only on the residue of a; the symbol of a product is the
/// product of the symbols; the symbol of 2 is 1 exactly where n is 1 or 7 modulo 8.
///
/// The two symbols of coprime odd numbers differ exactly where both are 3 modulo 4 (reciprocity). Over an odd prime the
/// symbol is 0, 1 or -1 as a^((n - 1)/2) is 0, 1 or -1 modulo n.
///
/// The symbol of a over a product of two odd numbers is the product of the symbols over both. So over a product of odd
/// primes, which may repeat, it is the product of the Legendre symbols.
///
/// The symbol is 1, -1 or 0, and 0 exactly where a and n have a common divisor above 1.
///
/// Source: Hardy and Wright, "An Introduction to the Theory of Numbers", sections 6.5 to 6.13, there
/// for primes; Ireland and Rosen, "A Classical Introduction to Modern Number Theory", section 5.2.
#[tactic(auto, using(crate::proofs::ProductSymbols::symbol_laws))]
pub fn jacobi_laws()
    ensures values { (a : ℤ) (n : ℕ) → (jacobi a n ≡ pos 1) ⊎ ((jacobi a n ≡ negsuc 0) ⊎ (jacobi a n ≡ pos 0)) }
    ensures zero { (a : ℤ) (n : ℕ) → 0 < n → (jacobi a n ≡ pos 0) ↔ (1 < gcd (nat_abs a) n) }
    ensures residue { (a : ℤ) (n : ℕ) → n % 2 ≡ 1 → jacobi a n ≡ jacobi (pos (residue n a)) n }
    ensures product { (a b : ℤ) (n : ℕ) → n % 2 ≡ 1 → jacobi (a *ℤ b) n ≡ jacobi a n *ℤ jacobi b n }
    ensures two { (n : ℕ) → n % 2 ≡ 1
        → jacobi (pos 2) n ≡ (if (n % 8 == 1) || (n % 8 == 7) then pos 1 else negsuc 0) }
    ensures reciprocity { (m n : ℕ) → m % 2 ≡ 1 → n % 2 ≡ 1 → gcd m n ≡ 1
        → jacobi (pos m) n *ℤ jacobi (pos n) m ≡ (if (m % 4 == 3) && (n % 4 == 3) then negsuc 0 else pos 1) }
    ensures prime { (a : ℤ) (n : ℕ) → n % 2 ≡ 1 → IsPrime n → classed_power a n ≡ Some (jacobi a n) }
    ensures factors { (a : ℤ) (m n : ℕ) → m % 2 ≡ 1 → n % 2 ≡ 1 → jacobi a (m * n) ≡ jacobi a m *ℤ jacobi a n }
    ensures primes { (a : ℤ) (primes : List ℕ) (symbols : List ℤ) → AllZip (IsLegendre a) primes symbols
        → jacobi a (product primes) ≡ symbol_product symbols }
{}

/// Primes and Legendre symbols: a number that a prime p doesn't divide is coprime to p, so it has an inverse, and its
/// power to the exponent p - 1 is congruent to 1 (Fermat's theorem).
///
/// Over an odd prime the Legendre and the Jacobi symbol exist and are equal. They are 1 exactly for a quadratic
/// residue: a number congruent to the square of one that p doesn't divide.
///
/// Source: Hardy and Wright, "An Introduction to the Theory of Numbers", sections 6.1 to 6.6.
#[tactic(auto, using(crate::proofs::LegendreClass::class_over_prime, crate::proofs::PrimeLaws::inverse_to, crate::proofs::PrimeLaws::fermats_little_theorem, crate::proofs::PrimeLaws::class_is_some))]
pub fn prime_laws()
    ensures coprime { (a p : ℕ) → IsPrime p → (a % p ≡ 0 → ⊥) → Coprime a p }
    ensures inverse { (a p : ℕ) → IsPrime p → (a % p ≡ 0 → ⊥) → HasInverse p a }
    ensures fermat { (a p : ℕ) → IsPrime p → (a % p ≡ 0 → ⊥) → a ^ (p - 1) % p ≡ 1 }
    ensures square { (a : ℤ) (p : ℕ) → p % 2 ≡ 1 → IsPrime p →
        (jacobi a p ≡ pos 1) ↔ ((x : ℕ) × (x % p ≡ 0 → ⊥) × ((x * x) % p ≡ residue p a)) }
    ensures is_some { (a p : ℤ) → IsOddPrime p → IsSome (checked_legendre_of a p) }
    ensures legendre { (a p : ℤ) → IsOddPrime p → checked_legendre_of a p ≡ Some (jacobi a (nat_abs p)) }
    ensures checked { (a p : ℤ) → IsOddPrime p → checked_jacobi_of a p ≡ Some (jacobi a (nat_abs p)) }
{}
