//! Transforms of any length modulo any m: it has up to 64 bits, and the method is Bluestein's.

ghost use Rattle.std.specs.Prelude.{◌≡◌, ℕ, ◌+◌, ◌-◌, ◌*◌, ◌%◌, ◌^◌, ◌<◌, ◌≤◌, ◌↔◌};
ghost use Rattle.std.specs.Prelude.{IsTrue, All, MatchOption, length, slice_index};
ghost use Rattle.num_modular.specs.Inverses.{IsInverse, HasInverse};
ghost use Rattle.num_modular.specs.Roots.{root_by};
ghost use Rattle.num_modular.specs.Sums.{sum_below};
ghost use Rattle.num_modular.specs.Transforms.{transform};
ghost use Rattle.long_product.specs.AnyLength.{IsRootOfOrder, choose_two, scaled_transform};
ghost use Rattle.long_product.specs.AnyLength.{HasTransformRoom, FitsTransform, IsFirstBaseOfOrder};
ghost use Rattle.long_product.specs.Polynomials.{product_entry, HasProductRoom};

use crate::plans::Plans;
use crate::polynomials::{LEAST_TRANSFORMED, are_sums_faster, count_for, entry_at};
use crate::reciprocal::{reciprocal_of, remainder};
use crate::{entries_for, polynomials};
use num_modular::laws::{inverse_laws, inverse_product_laws};
use num_modular::plans::PlanEntry;
use num_modular::{ModularPow, ModularUnaryOps, PreMulInv2by1, Reducer};

/// From how many entries on scratch is needed: from this number on the transform is computed by a product of
/// polynomials, for fewer by the sums.
pub const LEAST_CONVOLVED: usize = 6;

/// The scratch for n entries: `(words, factors)`, the numbers of words, and of factors of each of the three tables.
///
/// Both are 0 where n is below [`LEAST_CONVOLVED`]; else the words are 6·n more than `polynomials::room(n, 2n - 1)`
/// returns, and the factors are as many.
///
/// # Conditions
///
/// - 3·n is at most 2^32
///
/// # Examples
///
/// ```
/// use num_modular::applications::long_product::{any_length, polynomials};
///
/// let (words, factors) = polynomials::room(1000, 1999);
/// assert_eq!(any_length::room(1000), (6 * 1000 + words, factors));
/// assert_eq!(any_length::room(5), (0, 0));
/// ```
// rust: #[track_caller]
pub fn room(n: usize) -> (usize, usize)
    requires { 3 * n ≤ 2 ^ 32 }
    ensures { (words table : ℕ) → HasTransformRoom n words table ↔ ((result.0 ≤ words) × (result.1 ≤ table)) }
{
    // rust: assert!(n <= (1 << 32) / 3, "3·n must be at most 2^32");
    if n < LEAST_CONVOLVED {
        return (0, 0);
    }
    let (words, table) = polynomials::room(n, 2 * n - 1);
    (6 * n + words, table)
}

// Whether m is a modulus, as many entries are read as written, and there is room.
fn fits(m: u64, n: usize, places: usize, words: usize, table: usize) -> bool
    requires { n ≤ 2 ^ 60 }
    ensures { IsTrue result ↔ FitsTransform m n places words table }
{
    if m == 0 || places != n {
        return false;
    }
    if n < LEAST_CONVOLVED {
        return true;
    }
    words >= 6 * n && polynomials::has_room(n, 2 * n - 1, words - 6 * n, table)
}

// The residue of x·y. Condition: y is a residue.
fn residue_of_product(by: &PreMulInv2by1<u64>, x: u64, y: u64) -> u64
    requires { y < ⟦<PreMulInv2by1<u64> as Reducer<u64>>⟧.modulus by.now }
    ensures value { result ≡ (x * y) % ⟦<PreMulInv2by1<u64> as Reducer<u64>>⟧.modulus by.now }
    ensures below { result < ⟦<PreMulInv2by1<u64> as Reducer<u64>>⟧.modulus by.now }
{
    remainder(by, x as u128 * y as u128)
}

// Writes first·g^C(k, 2) modulo m, C(k, 2) being the binomial coefficient, to each place k.
fn write_powers(by: &PreMulInv2by1<u64>, first: u64, g: u64, out: &mut [u64])
    ensures powers { (k : ℕ) → k < length out.old →
        slice_index out.new k ≡ (first * g ^ choose_two k) % ⟦<PreMulInv2by1<u64> as Reducer<u64>>⟧.modulus by.now }
    ensures below { All (λ v. v < ⟦<PreMulInv2by1<u64> as Reducer<u64>>⟧.modulus by.now) out.new }
{
    let mut power = remainder(by, first as u128);
    let mut step = remainder(by, 1);
    'powers: for k in 0..out.len() {
        out[k] = power;
        power = residue_of_product(by, power, step);
        step = residue_of_product(by, g, step);
    }
}

// Writes the products of the entries, modulo m. Condition: the entries of ys are residues.
fn write_products(by: &PreMulInv2by1<u64>, xs: &[u64], ys: &[u64], out: &mut [u64])
    requires below { All (λ y. y < ⟦<PreMulInv2by1<u64> as Reducer<u64>>⟧.modulus by.now) ys.now }
    requires left { length out.old ≤ length xs.now }
    requires right { length out.old ≤ length ys.now }
    ensures { (i : ℕ) → i < length out.old →
        slice_index out.new i ≡ (slice_index xs.now i * slice_index ys.now i)
        % ⟦<PreMulInv2by1<u64> as Reducer<u64>>⟧.modulus by.now }
{
    'entries: for i in 0..out.len() {
        out[i] = residue_of_product(by, xs[i], ys[i]);
    }
}

// part times the sum of x_i·w^i, modulo m, by Horner's rule.
#[tactic(auto, using(num_modular::specs::NumberLaws::empty_sum_residue_is_zero, crate::proofs::Bluestein::horner_more))]
fn scaled_value(by: &PreMulInv2by1<u64>, part: u64, w: u64, xs: &[u64]) -> u64
    ensures { result ≡ (part * sum_below (length xs.now) (λ i. slice_index xs.now i * w ^ i))
        % ⟦<PreMulInv2by1<u64> as Reducer<u64>>⟧.modulus by.now }
{
    let n = xs.len();
    let mut sum = 0;
    'terms: for i in 0..n {
        sum = remainder(by, sum as u128 * w as u128 + xs[n - 1 - i] as u128);
    }
    residue_of_product(by, part, sum)
}

// Writes part times the entries of the transform by g, by the sums.
fn fill_plain(m: u64, part: u64, g: u64, xs: &[u64], out: &mut [u64])
    requires modulus { 1 ≤ m }
    ensures { (j : ℕ) → j < length out.old →
        slice_index out.new j ≡ scaled_transform m part g (length xs.now) (slice_index xs.now) j }
{
    let by = reciprocal_of(m);
    let mut power = remainder(&by, 1);
    'entries: for j in 0..out.len() {
        out[j] = scaled_value(&by, part, power, xs);
        power = residue_of_product(&by, g, power);
    }
}

// Writes the middle coefficients of the product of xs and ys, to which each x contributes, to their places of `out`, by
// the sums. Condition: xs isn't empty.
fn write_middle_plain(by: &PreMulInv2by1<u64>, xs: &[u64], ys: &[u64], out: &mut [u64])
    requires some { 1 ≤ length xs.now }
    requires places { length ys.now ≤ length out.old }
    ensures { (e : ℕ) → length xs.now ≤ e + 1 → e < length ys.now →
        slice_index out.new e ≡ product_entry (⟦<PreMulInv2by1<u64> as Reducer<u64>>⟧.modulus by.now) xs.now ys.now e }
{
    let mut e = xs.len() - 1;
    'coefficients: while e < ys.len() {
        out[e] = entry_at(by, xs, ys, e);
        e += 1;
    }
}

// The same, by the sums or by transforms, whichever takes less time; what the other places hold isn't specified. The
// transforms compute the whole product. Condition: xs isn't empty, and ys isn't shorter.
//
// Source of the middle product: Hanrot, Quercia and Zimmermann, "The middle product algorithm I".
fn write_middle<F: PlanEntry<u64>>(
    by: &PreMulInv2by1<u64>,
    xs: &[u64],
    ys: &[u64],
    out: &mut [u64],
    words: &mut [u64],
    plans: &Plans<F>,
)
    requires some { 1 ≤ length xs.now }
    requires enough { length xs.now ≤ length ys.now }
    requires places { length out.old + 1 ≡ length xs.now + length ys.now }
    requires room { let xs = length xs.now in let ys = length ys.now in
        HasProductRoom xs ys (length words.old) plans.now.factors }
    ensures { (e : ℕ) → length xs.now ≤ e + 1 → e < length ys.now →
        slice_index out.new e ≡ product_entry (⟦<PreMulInv2by1<u64> as Reducer<u64>>⟧.modulus by.now) xs.now ys.now e }
{
    if xs.len() < LEAST_TRANSFORMED {
        write_middle_plain(by, xs, ys, out);
        return;
    }
    let n = entries_for(xs.len() + ys.len(), words.len(), plans.factors());
    let count = count_for(xs, ys);
    if are_sums_faster(count, xs.len(), ys.len() - xs.len() + 1, n) {
        write_middle_plain(by, xs, ys, out);
        return;
    }
    plans.multiply_modulo(count, by.modulus(), 0, xs, ys, out, n, &mut words[..4 * n]);
}

// The same by a product of polynomials, given an inverse h of g. The terms of entry j have the power of g to
// i·j = C(i + j, 2) - C(i, 2) - C(j, 2).
fn fill_convolved<F: PlanEntry<u64>>(
    m: u64,
    part: u64,
    g: u64,
    h: u64,
    xs: &[u64],
    out: &mut [u64],
    words: &mut [u64],
    plans: &Plans<F>,
)
    requires fits { FitsTransform m (length xs.now) (length out.old) (length words.old) plans.now.factors }
    requires long { LEAST_CONVOLVED ≤ length xs.now }
    requires inverse { (g * h) % m ≡ 1 % m }
    ensures { (j : ℕ) → j < length out.old →
        slice_index out.new j ≡ scaled_transform m part g (length xs.now) (slice_index xs.now) j }
{
    let by = reciprocal_of(m);
    let n = xs.len();
    let (own, scratch) = words.split_at_mut(6 * n);
    let (weights, own) = own.split_at_mut(n);
    let (powers, own) = own.split_at_mut(2 * n - 1);
    let (sums, _spare) = own.split_at_mut(3 * n - 2);
    write_powers(&by, 1, h, weights);
    write_powers(&by, part, g, powers);
    write_products(&by, xs, weights, out);
    out.reverse();
    write_middle(&by, out, powers, sums, scratch, plans);
    let (_before, sums) = sums.split_at(n - 1);
    write_products(&by, sums, weights, out);
}

// The same, by the sums or by a product of polynomials.
fn fill<F: PlanEntry<u64>>(
    m: u64,
    part: u64,
    g: u64,
    h: u64,
    xs: &[u64],
    out: &mut [u64],
    words: &mut [u64],
    plans: &Plans<F>,
)
    requires fits { FitsTransform m (length xs.now) (length out.old) (length words.old) plans.now.factors }
    requires inverse { (g * h) % m ≡ 1 % m }
    ensures { (j : ℕ) → j < length out.old →
        slice_index out.new j ≡ scaled_transform m part g (length xs.now) (slice_index xs.now) j }
{
    if xs.len() < LEAST_CONVOLVED {
        fill_plain(m, part, g, xs, out);
        return;
    }
    fill_convolved(m, part, g, h, xs, out, words, plans);
}

/// Writes the transform by g of xs: for n numbers modulo m, entry j of `out` is the sum of x_i·g^(i·j) over i from 0 to
/// n - 1, modulo m.
///
/// n may be any number, and m needn't be prime. `words` has unspecified contents afterwards. Returns false, with both
/// lists unchanged, exactly where m is 0, g has no inverse modulo m, or the lengths don't fit: those of xs and `out`
/// differ, or, for n from [`LEAST_CONVOLVED`] on, 3·n - 1 is above 2^32, or `words` or a plan's table is shorter than
/// `room(n)` returns. g and the numbers may be any words. No memory is allocated.
///
/// The transform can be undone, by [`intt`], where g is a root of order n ([`is_root_of_order`] tells).
///
/// Source: Bluestein, "A linear filtering approach to the computation of discrete Fourier transform", with binomial
/// coefficients in place of halves of squares, so that no square root of g is needed: i·j = C(i + j, 2) - C(i, 2) -
/// C(j, 2), because C(i + j, 2) counts the pairs among i and j things, i·j of them with one of each.
///
/// # Examples
///
/// ```
/// use num_modular::applications::long_product::any_length::ntt;
/// use num_modular::applications::long_product::fill_plans;
/// use num_modular::plans::Factor;
///
/// let mut tables = [[Factor::<u64>::ZERO; 1]; 3];
/// let [first, second, third] = &mut tables;
/// let plans = fill_plans(first, second, third).unwrap();
/// let mut out = [0; 3];
/// assert!(ntt(7, 2, &[1, 2, 3], &mut out, &mut [], &plans));
/// assert_eq!(out, [6, 3, 1]); // 1 + 2 + 3, 1 + 4 + 12 and 1 + 8 + 48
/// ```
// rust: #[must_use]
pub fn ntt<F: PlanEntry<u64>>(
    m: u64,
    g: u64,
    xs: &[u64],
    out: &mut [u64],
    words: &mut [u64],
    plans: &Plans<F>,
) -> bool
    ensures fits { IsTrue result ↔ (FitsTransform m (length xs.now) (length out.old) (length words.old)
        plans.now.factors × HasInverse m g) }
    ensures values { IsTrue result → (j : ℕ) → j < length xs.now →
        slice_index out.new j ≡ transform m g (length xs.now) (slice_index xs.now) j }
    ensures unchanged { (IsTrue result → ⊥) → (out.new ≡ out.old) × (words.new ≡ words.old) }
{
    if !fits(m, xs.len(), out.len(), words.len(), plans.factors()) {
        return false;
    }
    match g.invm(&m) {
        Some(inverse) => {
            fill(m, 1, g, inverse, xs, out, words, plans);
            true
        }
        None => false,
    }
}

/// Writes the inverse transform by g of xs: for n numbers modulo m, entry j of `out` is the sum of x_i·g^(-i·j) over i
/// from 0 to n - 1, divided by n, modulo m.
///
/// Where g is a root of order n ([`is_root_of_order`] tells), it undoes [`ntt`]. Returns false as `ntt` does, and where
/// n has no inverse modulo m.
///
/// Source: that of `ntt`; for the inverse von zur Gathen and Gerhard, Modern Computer Algebra, theorem 8.11.
///
/// # Examples
///
/// ```
/// use num_modular::applications::long_product::any_length::intt;
/// use num_modular::applications::long_product::fill_plans;
/// use num_modular::plans::Factor;
///
/// let mut tables = [[Factor::<u64>::ZERO; 1]; 3];
/// let [first, second, third] = &mut tables;
/// let plans = fill_plans(first, second, third).unwrap();
/// let mut out = [0; 3];
/// assert!(intt(7, 2, &[6, 3, 1], &mut out, &mut [], &plans));
/// assert_eq!(out, [1, 2, 3]);
/// ```
// rust: #[must_use]
pub fn intt<F: PlanEntry<u64>>(
    m: u64,
    g: u64,
    xs: &[u64],
    out: &mut [u64],
    words: &mut [u64],
    plans: &Plans<F>,
) -> bool
    ensures fits { IsTrue result ↔ (FitsTransform m (length xs.now) (length out.old) (length words.old)
        plans.now.factors × HasInverse m g × HasInverse m (length xs.now)) }
    ensures values { IsTrue result → (h part j : ℕ) → IsInverse m g h → IsInverse m (length xs.now) part →
        j < length xs.now →
        slice_index out.new j ≡ scaled_transform m part h (length xs.now) (slice_index xs.now) j }
    ensures undone { let n = length xs.now in IsTrue result → IsRootOfOrder m g n → (x : ℕ → ℕ) →
        ((j : ℕ) → j < n → transform m g n x j ≡ slice_index xs.now j % m) →
        (i : ℕ) → i < n → slice_index out.new i ≡ x i % m }
    ensures unchanged { (IsTrue result → ⊥) → (out.new ≡ out.old) × (words.new ≡ words.old) }
{
    if !fits(m, xs.len(), out.len(), words.len(), plans.factors()) {
        return false;
    }
    inverse_laws();
    match (g.invm(&m), (xs.len() as u64).invm(&m)) {
        (Some(inverse), Some(part)) => {
            fill(m, part, inverse, g, xs, out, words, plans);
            true
        }
        _ => false,
    }
}

/// Whether [`intt`] by g undoes [`ntt`] of n entries: g is a root of unity of order n modulo m, m and n are at least 1,
/// g^n is 1 modulo m, and g^d - 1 has an inverse modulo m for each d from 1 to n - 1.
///
/// Modulo a prime m these are the g of order n. It takes 2·n products and one inverse where g^n is 1 and n is below m,
/// else at most a power of g.
///
/// Source: von zur Gathen and Gerhard, Modern Computer Algebra, section 8.2: a product has an inverse exactly where all
/// factors have.
///
/// # Examples
///
/// ```
/// use num_modular::applications::long_product::any_length::is_root_of_order;
///
/// assert!(is_root_of_order(7, 2, 3));
/// assert!(!is_root_of_order(7, 6, 6)); // 6^2 is 1
/// assert!(!is_root_of_order(15, 4, 2)); // 3 divides 4 - 1 and 15
/// ```
pub fn is_root_of_order(m: u64, g: u64, n: usize) -> bool
    ensures { IsTrue result ↔ ((1 ≤ m) × IsRootOfOrder m g n) }
{
    if m == 0 || n == 0 {
        return false;
    }
    if m == 1 {
        return true;
    }
    if n as u64 >= m {
        return false;
    }
    if g.powm(n as u64, &m) != 1 {
        return false;
    }
    inverse_product_laws();
    let by = reciprocal_of(m);
    let mut power = remainder(&by, g as u128);
    let mut differences = remainder(&by, 1);
    'exponents: for _done in 1..n {
        let difference = remainder(&by, power as u128 + (m - 1) as u128);
        differences = residue_of_product(&by, differences, difference);
        power = residue_of_product(&by, g, power);
    }
    differences.invm(&m).is_some()
}

/// A root of order n modulo m: x to the power (m - 1)/n, rounded down, for the least x from 2 to 255 for which
/// [`is_root_of_order`] holds.
///
/// `None` exactly where m is 0 or there is none. So it is for a prime m and an n that doesn't divide m - 1.
///
/// Source: Pollard, "The fast Fourier transform in a finite field", section 3.
///
/// # Examples
///
/// ```
/// use num_modular::applications::long_product::any_length::find_root_of_order;
///
/// assert_eq!(find_root_of_order(31, 5), Some(2)); // 2^6, and 2^5 is 32
/// assert_eq!(find_root_of_order(31, 7), None);
/// ```
pub fn find_root_of_order(m: u64, n: usize) -> Option<u64>
    ensures { MatchOption result
        (1 ≤ m → (x : ℕ) → 2 ≤ x → x < 256 → IsRootOfOrder m (root_by m n x) n → ⊥)
        (λ g. (x : ℕ) × (x < 256) × IsFirstBaseOfOrder m n x × (g ≡ root_by m n x)) }
{
    if m == 0 || n == 0 {
        return None;
    }
    let exponent = (m - 1) / n as u64;
    'bases: for x in 2u64..256 {
        let g = x.powm(exponent, &m);
        if is_root_of_order(m, g, n) {
            return Some(g);
        }
    }
    None
}

/// A law, inversion: the transform by a root g of order n and what `intt` computes undo each other, and both ways the
/// result is the residues of the values. Here h is an inverse of g, and part one of n.
///
/// Source: von zur Gathen and Gerhard, Modern Computer Algebra, theorem 8.11.
pub fn inversion_laws()
    ensures restored { (m g h part n i : ℕ) (x : ℕ → ℕ) → IsInverse m g h → IsInverse m n part →
        IsRootOfOrder m g n → i < n → scaled_transform m part h n (transform m g n x) i ≡ x i % m }
    ensures reached { (m g h part n j : ℕ) (x : ℕ → ℕ) → IsInverse m g h → IsInverse m n part →
        IsRootOfOrder m g n → j < n → transform m g n (scaled_transform m part h n x) j ≡ x j % m }
{}
