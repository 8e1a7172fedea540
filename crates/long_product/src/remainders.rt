//! Numbers below the product of some of the three primes, from their residues, modulo any m of up to 64 bits.

ghost use Rattle.std.specs.Prelude.{◌≡◌, ℕ, ◌+◌, ◌*◌, ◌%◌, ◌^◌, ◌<◌, ◌≤◌, All, length, slice_index};
ghost use Rattle.long_product.specs.Residues.{HasResidues};

use crate::garner::Garner;
// rust instead: use crate::applications::long_product::primes::{FIRST_PRIME, SECOND_PRIME};
use crate::primes::{FIRST_PRIME, SECOND_PRIME, THIRD_PRIME};
use crate::reciprocal::{reciprocal_of, remainder};
// rust instead: use crate::PreMulInv2by1;
use num_modular::{PreMulInv2by1, Reducer};

/// The least number of the three primes whose product is above terms·x·y: no sum of so many products is greater, where
/// each has a factor that is at most x and one that is at most y.
///
/// Three primes suffice.
///
/// # Preconditions
///
/// - there is a product, and there are at most 2^32
pub fn primes_for(terms: usize, x: u64, y: u64) -> usize
    requires some { 1 ≤ terms }
    requires few { terms ≤ 2 ^ 32 }
    ensures some { 1 ≤ result }
    ensures most { result ≤ 3 }
    ensures one { result ≡ 1 → terms * (x * y) < FIRST_PRIME }
    ensures two { result ≡ 2 → terms * (x * y) < FIRST_PRIME * SECOND_PRIME }
    ensures not_one { 2 ≤ result → FIRST_PRIME ≤ terms * (x * y) }
    ensures not_two { 3 ≤ result → FIRST_PRIME * SECOND_PRIME ≤ terms * (x * y) }
{
    let product = x as u128 * y as u128;
    let terms = terms as u128;
    if product <= (FIRST_PRIME as u128 - 1) / terms {
        1
    } else if product <= (FIRST_PRIME as u128 * SECOND_PRIME as u128 - 1) / terms {
        2
    } else {
        3
    }
}

// The constants of Garner's formulas, a modulus with its reciprocal, how many primes are used, and the first of them and
// the product of the first two, modulo the modulus.
// rattle: line
#[derive(Drop)]
struct Remainders {
    garner: Garner,
    by: PreMulInv2by1<u64>,
    count: usize,
    first: u64,
    both: u64,
    ghost first_below: { first < ⟦<PreMulInv2by1<u64> as Reducer<u64>>⟧.modulus by },
    ghost both_below: { both < ⟦<PreMulInv2by1<u64> as Reducer<u64>>⟧.modulus by },
    ghost first_is: { first ≡ 1152921092289986561 % ⟦<PreMulInv2by1<u64> as Reducer<u64>>⟧.modulus by },
    ghost both_is: { both
        ≡ (1152921092289986561 * 1152920989210771457) % ⟦<PreMulInv2by1<u64> as Reducer<u64>>⟧.modulus by },
}

impl Remainders {
    // Condition: the modulus is at least 1.
    fn modulo(count: usize, m: u64) -> Self
        requires { 1 ≤ m }
        ensures count { result.count ≡ count }
        ensures modulus { ⟦<PreMulInv2by1<u64> as Reducer<u64>>⟧.modulus result.by ≡ m }
    {
        let by = reciprocal_of(m);
        let first = remainder(&by, FIRST_PRIME as u128);
        Remainders {
            garner: Garner::for_primes(),
            by,
            count,
            first,
            both: remainder(&by, first as u128 * SECOND_PRIME as u128),
        }
    }

    // The number with these residues, modulo the modulus.
    fn remainder(&self, first: u64, second: u64, third: u64) -> u64
        requires first { first < FIRST_PRIME }
        requires second { 2 ≤ self.now.count → second < SECOND_PRIME }
        requires third { 3 ≤ self.now.count → third < THIRD_PRIME }
        ensures value { (x : ℕ) → HasResidues self.now.count x first second third
            → result ≡ x % ⟦<PreMulInv2by1<u64> as Reducer<u64>>⟧.modulus self.now.by }
        ensures below { result < ⟦<PreMulInv2by1<u64> as Reducer<u64>>⟧.modulus self.now.by }
    {
        let (second, third) = self.garner.mixed_digits(self.count, first, second, third);
        let low = first as u128 + second as u128 * self.first as u128;
        remainder(&self.by, low + third as u128 * self.both as u128)
    }

    // The number with the residues at index e, and c times that n places after it, modulo the modulus.
    #[tactic(auto, using(crate::proofs::Coefficients::residue_without_second_term, crate::proofs::Coefficients::words_fit, crate::proofs::Bounds::folded_fits, crate::proofs::Coefficients::folded_residues))]
    fn folded_at(
        &self,
        c: u64,
        firsts: &[u64],
        seconds: &[u64],
        thirds: &[u64],
        n: usize,
        e: usize,
    ) -> u64
        requires seconds { length seconds.now ≡ length firsts.now }
        requires thirds { length thirds.now ≡ length firsts.now }
        requires first { All (λ x. x < FIRST_PRIME) firsts.now }
        requires second { 2 ≤ self.now.count → All (λ x. x < SECOND_PRIME) seconds.now }
        requires third { 3 ≤ self.now.count → All (λ x. x < THIRD_PRIME) thirds.now }
        requires within { e < length firsts.now }
        requires past { 0 < c → e + n < length firsts.now }
        ensures { let count = self.now.count in (x y : ℕ) → HasResidues count x (slice_index firsts.now e)
            (slice_index seconds.now e) (slice_index thirds.now e) →
            (0 < c → HasResidues count y (slice_index firsts.now (e + n)) (slice_index seconds.now (e + n))
            (slice_index thirds.now (e + n)))
            → result ≡ (x + c * y) % ⟦<PreMulInv2by1<u64> as Reducer<u64>>⟧.modulus self.now.by }
    {
        let value = self.remainder(firsts[e], seconds[e], thirds[e]);
        if c == 0 {
            return value;
        }
        let past = self.remainder(firsts[e + n], seconds[e + n], thirds[e + n]);
        remainder(&self.by, value as u128 + c as u128 * past as u128)
    }
}

/// Writes x_e + c·x_(e+n) modulo m to the n places e of `out`, where x_e is the number below the product of the
/// first `count` primes with the residues at index e.
///
/// # Preconditions
///
/// - m is at least 1, the residues are below their primes, the three lists of them have one length, and there are n
///   or more
/// - 2n or more where c isn't 0
pub fn write_folded(
    count: usize,
    m: u64,
    c: u64,
    firsts: &[u64],
    seconds: &[u64],
    thirds: &[u64],
    out: &mut [u64],
)
    requires modulus { 1 ≤ m }
    requires seconds { length seconds.now ≡ length firsts.now }
    requires thirds { length thirds.now ≡ length firsts.now }
    requires first { All (λ x. x < FIRST_PRIME) firsts.now }
    requires second { 2 ≤ count → All (λ x. x < SECOND_PRIME) seconds.now }
    requires third { 3 ≤ count → All (λ x. x < THIRD_PRIME) thirds.now }
    requires places { length out.old ≤ length firsts.now }
    requires past { 0 < c → 2 * length out.old ≤ length firsts.now }
    ensures { let n = length out.old in (e x y : ℕ) → e < n →
        HasResidues count x (slice_index firsts.now e) (slice_index seconds.now e) (slice_index thirds.now e) →
        (0 < c → HasResidues count y (slice_index firsts.now (e + n)) (slice_index seconds.now (e + n))
        (slice_index thirds.now (e + n))) → slice_index out.new e ≡ (x + c * y) % m }
{
    let n = out.len();
    let remainders = Remainders::modulo(count, m);
    'places: for e in 0..n {
        out[e] = remainders.folded_at(c, firsts, seconds, thirds, n, e);
    }
}
