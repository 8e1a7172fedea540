//! Products of polynomials with small coefficients, modulo one prime: those of the first factor are split in two parts,
//! and the second factor is transformed once for both.

ghost use Rattle.std.specs.Prelude.{◌≡◌, ℕ, ◌+◌, ◌*◌, ◌/◌, ◌%◌, ◌^◌, ◌<◌, ◌≤◌, IsTrue, All, length, slice_index};
ghost use Rattle.std.specs.Int.{IsPowerOfTwo};
ghost use Rattle.num_modular.specs.Plans.{numbers, AreRemainders};
ghost use Rattle.num_modular.specs.Transforms.{cyclic_product};
ghost use Rattle.long_product.specs.Polynomials.{FitParts};
ghost use Rattle.long_product.specs.Residues.{AreCyclicEntries};

use crate::polynomials::greatest;
use crate::primes::FIRST_PRIME;
use crate::reciprocal::{reciprocal_of, remainder, remainder_by_words};
use num_modular::plans::{Plan, PlanEntry};
// rust instead: use crate::PreMulInv2by1;
use num_modular::{PreMulInv2by1, Reducer};

// The low part of a coefficient is its remainder by this number, and the high part its quotient.
const PARTS: u64 = 32768;

/// Whether one prime suffices for the products of ys with both parts of xs, by transforms of n entries.
///
/// # Preconditions
///
/// - n is from 1 to 2^32
pub fn fit_parts(n: usize, xs: &[u64], ys: &[u64]) -> bool
    requires some { 1 ≤ n }
    requires few { n ≤ 2 ^ 32 }
    ensures { IsTrue result → FitParts n xs.now ys.now }
{
    let part = (greatest(xs) / PARTS).max(PARTS - 1);
    part as u128 * greatest(ys) as u128 <= (FIRST_PRIME as u128 - 1) / n as u128
}

// Writes 0 to each entry.
fn clear(entries: &mut [u64])
    ensures { (i : ℕ) → slice_index entries.new i ≡ 0 }
{
    'entries: for i in 0..entries.len() {
        entries[i] = 0;
    }
}

// Stores the low and the high parts of the coefficients, and 0 after them.
fn load_parts(xs: &[u64], lows: &mut [u64], highs: &mut [u64])
    requires lows { length xs.now ≤ length lows.old }
    requires highs { length xs.now ≤ length highs.old }
    ensures low { (i : ℕ) → slice_index lows.new i ≡ slice_index xs.now i % PARTS }
    ensures high { (i : ℕ) → slice_index highs.new i ≡ slice_index xs.now i / PARTS }
{
    let (low, after_low) = lows.split_at_mut(xs.len());
    let (high, after_high) = highs.split_at_mut(xs.len());
    'coefficients: for i in 0..xs.len() {
        low[i] = xs[i] % PARTS;
        high[i] = xs[i] / PARTS;
    }
    clear(after_low);
    clear(after_high);
}

// Stores the coefficients, and 0 after them.
fn load_whole(xs: &[u64], entries: &mut [u64])
    requires { length xs.now ≤ length entries.old }
    ensures { (i : ℕ) → slice_index entries.new i ≡ slice_index xs.now i }
{
    let (front, after) = entries.split_at_mut(xs.len());
    front.copy_from_slice(xs);
    clear(after);
}

// Replaces xs by its cyclic product with the list that the plan has split into the remainders ys.
fn convolve_again<F: PlanEntry<u64>>(plan: &Plan<u64, F>, xs: &mut [u64], ys: &[u64])
    requires whole { length xs.old ≡ 2 ^ plan.now.bits }
    requires equal { length ys.now ≡ length xs.old }
    requires entries { All (λ x. x < 4 * plan.now.modulus.modulus) xs.old }
    ensures below { All (λ x. x < plan.now.modulus.modulus) xs.new }
    ensures product { let n = length xs.old in (y : ℕ → ℕ) →
        AreRemainders plan.now.modulus.modulus plan.now.root plan.now.bits 0 n 1 y (numbers (λ x. x) ys.now) →
        (e : ℕ) → e < n →
        slice_index xs.new e ≡ cyclic_product plan.now.modulus.modulus n (numbers (λ x. x) xs.old) y e }
{
    plan.split(xs, 0, 1);
    plan.multiply(xs, ys);
    plan.join(xs, 0, 1);
}

/// Writes the n entries of two cyclic products modulo the first prime: of the low parts of xs with ys to `lows`, and of
/// the high parts with ys to `highs`; `spare` has unspecified contents afterwards.
///
/// # Preconditions
///
/// - the plan is one for the first prime
/// - n is a power of two from 2 to the plan's number of entries, and `lows`, `highs` and `spare` have n entries
/// - xs and ys are at most as many, and ys are below the prime
pub fn cyclic_parts<F: PlanEntry<u64>>(
    plan: &Plan<u64, F>,
    n: usize,
    xs: &[u64],
    ys: &[u64],
    lows: &mut [u64],
    highs: &mut [u64],
    spare: &mut [u64],
)
    requires modulus { plan.now.modulus.modulus ≡ FIRST_PRIME }
    requires power { IsPowerOfTwo n }
    requires some { 2 ≤ n }
    requires within { n ≤ 2 ^ plan.now.bits }
    requires lows { length lows.old ≡ n }
    requires highs { length highs.old ≡ n }
    requires spare { length spare.old ≡ n }
    requires left { length xs.now ≤ n }
    requires right { length ys.now ≤ n }
    requires below { All (λ y. y < FIRST_PRIME) ys.now }
    ensures low { AreCyclicEntries FIRST_PRIME n (λ i. slice_index xs.now i % PARTS) (slice_index ys.now) lows.new }
    ensures high { AreCyclicEntries FIRST_PRIME n (λ i. slice_index xs.now i / PARTS) (slice_index ys.now) highs.new }
{
    load_parts(xs, lows, highs);
    load_whole(ys, spare);
    let plan = plan.shorter(n);
    plan.convolve(lows, spare);
    convolve_again(&plan, highs, spare);
}

// The residue of the number with the parts at an index.
fn joined_at(by: &PreMulInv2by1<u64>, lows: &[u64], highs: &[u64], e: usize) -> u64
    requires equal { length highs.now ≡ length lows.now }
    requires within { e < length lows.now }
    ensures value { result ≡ (slice_index lows.now e + slice_index highs.now e * PARTS)
        % ⟦<PreMulInv2by1<u64> as Reducer<u64>>⟧.modulus by.now }
    ensures below { result < ⟦<PreMulInv2by1<u64> as Reducer<u64>>⟧.modulus by.now }
{
    remainder_by_words(by, lows[e] as u128 + highs[e] as u128 * PARTS as u128)
}

// The same, and c times that n places after it.
#[tactic(auto, using(crate::proofs::Bounds::folded_fits, crate::proofs::Coefficients::folded_residues, crate::proofs::Coefficients::residue_without_second_term))]
fn folded_at(
    by: &PreMulInv2by1<u64>,
    c: u64,
    lows: &[u64],
    highs: &[u64],
    n: usize,
    e: usize,
) -> u64
    requires equal { length highs.now ≡ length lows.now }
    requires within { e < length lows.now }
    requires past { 0 < c → e + n < length lows.now }
    ensures { result ≡ (slice_index lows.now e + slice_index highs.now e * PARTS
        + c * (slice_index lows.now (e + n) + slice_index highs.now (e + n) * PARTS))
        % ⟦<PreMulInv2by1<u64> as Reducer<u64>>⟧.modulus by.now }
{
    let value = joined_at(by, lows, highs, e);
    if c == 0 {
        return value;
    }
    let past = joined_at(by, lows, highs, e + n);
    remainder(by, value as u128 + c as u128 * past as u128)
}

/// Writes x_e + c·x_(e+n) modulo m to the n places e of `out`, where x_e is the number with the parts at index e.
///
/// # Preconditions
///
/// - m is at least 1, and there are equally many low and high parts, n or more
/// - 2n or more where c isn't 0
pub fn write_joined(m: u64, c: u64, lows: &[u64], highs: &[u64], out: &mut [u64])
    requires modulus { 1 ≤ m }
    requires equal { length highs.now ≡ length lows.now }
    requires places { length out.old ≤ length lows.now }
    requires past { 0 < c → 2 * length out.old ≤ length lows.now }
    ensures { let n = length out.old in (e : ℕ) → e < n →
        slice_index out.new e ≡ (slice_index lows.now e + slice_index highs.now e * PARTS
        + c * (slice_index lows.now (e + n) + slice_index highs.now (e + n) * PARTS)) % m }
{
    let n = out.len();
    let by = reciprocal_of(m);
    'places: for e in 0..n {
        out[e] = folded_at(&by, c, lows, highs, n, e);
    }
}
