//! Hashes of texts, over `num_modular::hashes`: at how many bases two texts can have the same hash, and the hashes of
//! parts, by which several patterns are searched at once (`prefixes`).
#![tactic(auto)]

pub mod prefixes;

ghost use Rattle.std.specs.Prelude.{◌≡◌, ℕ, ◌+◌, ◌*◌, ◌%◌, ◌^◌, ◌<◌, ◌≤◌, ◌↔◌, IsTrue, List, ◌∷◌, ◌++◌, length};
ghost use Rattle.std.specs.Prelude.{slice_index};
ghost use Rattle.num_modular.specs.Integers.{residue_of};
ghost use Rattle.num_modular.specs.Mersenne.{mersenne};
ghost use Rattle.num_modular.specs.Primes.{IsPrime};
ghost use Rattle.mersenne_hash.specs.Collisions.{hash_of, AreApart, FewCollisions, FewCollisionsOfAnyLengths};
ghost use Rattle.mersenne_hash.specs.Collisions.{FewFalseHits};

use num_modular::ModularInteger;
use num_modular::hashes::{Hash, base, hash};
use num_modular::laws::{polynomial_laws, prime_laws, range_laws};
// rust: pub use prefixes::{Hits, Patterns, PrefixHashes};

/// A law, how rarely hashes collide: 2^61 - 1 is prime. So two different texts of n symbols below 2^61 - 1 have the
/// same hash at fewer than n of the bases 0 to 2^61 - 2, and any n different bases distinguish them: for a random base
/// the hashes are (n - 1)/(2^61 - 1)-almost universal. With a symbol 1 in front, as in `length_hash`, two different
/// texts of at most n symbols have the same hash at no more than n bases, also where their lengths differ. The hash of
/// two texts, one after the other, follows from theirs.
///
/// A search in N bytes for a pattern of L bytes, as by `find`, meets a part that has the pattern's hash but isn't the
/// pattern at no more than (N - L + 1)·(L - 1) of the bases.
///
/// Source: Pocklington, "The determination of the prime or composite nature of large numbers by Fermat's theorem";
/// Dietzfelbinger, Gil, Matias and Pippenger, "Polynomial hash functions are reliable"; for a search Karp and Rabin,
/// "Efficient randomized pattern-matching algorithms". The proof uses the law of polynomials
/// `num_modular::laws::polynomial_laws`.
pub fn collision_laws()
    ensures prime { IsPrime (mersenne 61 1) }
    ensures few { FewCollisions }
    ensures lengths { FewCollisionsOfAnyLengths }
    ensures search { FewFalseHits }
    ensures joined { (s t : List ℕ) (x : ℕ) →
        hash_of (s ++ t) x ≡ (hash_of s x * x ^ length t + hash_of t x) % mersenne 61 1 }
{
    prime_laws();
    polynomial_laws();
    range_laws();
}

/// The hash of a text behind a symbol 1: b^n + `hash(b, text)` for n bytes at the base b.
///
/// Texts that differ by zeros in front have different ones at all bases but few, where [`hash`] is the same for them at
/// each base.
///
/// # Examples
///
/// ```
/// use num_modular::applications::mersenne_hash::length_hash;
/// use num_modular::hashes::{base, hash};
///
/// let base = base(123_456_789);
/// assert_eq!(hash(base, b"\0a"), hash(base, b"a"));
/// assert_ne!(length_hash(base, b"\0a"), length_hash(base, b"a"));
/// ```
pub fn length_hash(base: Hash, text: &[u8]) -> Hash
    ensures { residue_of result ≡ hash_of (1 ∷ text.now) (residue_of base) }
{
    range_laws();
    let mut value = base.convert(1);
    'bytes: for byte in text {
        value = value * base + *byte as u64;
    }
    value
}

/// Whether the hashes of both are equal at each base: those of the two texts.
///
/// For texts of equal length n that is whether they are equal, if there are at least n bases and no two of all the
/// bases are congruent modulo 2^61 - 1. Where both texts are at hand `==` is faster: this is the comparison of two
/// parties that exchange hashes alone.
///
/// # Examples
///
/// ```
/// use num_modular::applications::mersenne_hash::same_hashes;
///
/// assert!(same_hashes(&[2, 3, 5], b"abc", b"abc"));
/// assert!(!same_hashes(&[2, 3, 5], b"abc", b"abd"));
/// ```
pub fn same_hashes(bases: &[u64], first: &[u8], second: &[u8]) -> bool
    ensures each { IsTrue result ↔ ((i : ℕ) → i < length bases.now →
        hash_of first.now (slice_index bases.now i % mersenne 61 1)
        ≡ hash_of second.now (slice_index bases.now i % mersenne 61 1)) }
    ensures same { length first.now ≡ length second.now → length first.now ≤ length bases.now →
        AreApart (length bases.now) (slice_index bases.now) → (IsTrue result ↔ (first.now ≡ second.now)) }
{
    collision_laws();
    'bases: for place in 0..bases.len() {
        let base = base(bases[place]);
        if hash(base, first) != hash(base, second) {
            return false;
        }
    }
    true
}
