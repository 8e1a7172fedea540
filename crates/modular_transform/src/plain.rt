//! The definitions of `specs/` as programs: simple and slow, each with its definition as its contract.
//!
//! The tests compare the fast calls with them; the library doesn't use them.

ghost use Rattle.std.specs.Prelude.{◌≡◌, ◌+◌, ◌*◌, ◌^◌, ◌%◌, ◌≤◌, ◌<◌, ◌↔◌, ◌==◌};
ghost use Rattle.std.specs.Prelude.{◌||◌, if◌then◌else◌, IsTrue, length, slice_index};
ghost use Rattle.modular_word.specs.Sums.{sum_below};
ghost use Rattle.modular_transform.specs.Transforms.{Suits, transform, cyclic_product};

use modular_word::plain::power_of;

/// Whether g suits transforms of n entries modulo m: n is a power of two, and for n above 1 the power n/2 of g is
/// -1 modulo m.
///
/// # Preconditions
///
/// - m is at least 1
#[tactic(auto, using(crate::proofs::PowersOfTwo::power_of_two_tested))]
pub fn suits(m: u64, g: u64, n: usize) -> bool
    requires { 1 ≤ m }
    ensures { IsTrue result ↔ Suits m g n }
{
    if !n.is_power_of_two() {
        return false;
    }
    if n == 1 {
        return true;
    }
    (power_of(g, n as u64 / 2, m) as u128 + 1) % m as u128 == 0
}

/// Entry j of the transform by g of the entries modulo m, computed from the definition.
///
/// # Preconditions
///
/// - m is at least 1
#[tactic(auto, using(crate::proofs::PlainSums::empty_sum_residue_is_zero, crate::proofs::PlainSums::term_power_first, modular_word::proofs::Congruence::mod_mul, modular_word::proofs::Congruence::mod_refl, crate::proofs::PlainSums::sum_residue_of_next_term, crate::proofs::PlainSums::term_power_next))]
pub fn transform_entry(m: u64, g: u64, xs: &[u64], j: usize) -> u64
    requires { 1 ≤ m }
    ensures { result ≡ transform m g (length xs.now) (slice_index xs.now) j }
{
    let step = power_of(g, j as u64, m);
    let mut power = 1 % m;
    let mut sum = 0;
    'terms: for i in 0..xs.len() {
        sum = ((sum as u128 + xs[i] as u128 * power as u128) % m as u128) as u64;
        power = (power as u128 * step as u128 % m as u128) as u64;
    }
    sum
}

// The product of the entries i and j where i + j is e or e + n; else 0.
fn term(product: u128, i: usize, j: usize, e: usize, n: usize) -> u128
    requires places { i < n }
    requires others { j < n }
    requires entry { e < n }
    requires few { n < 2 ^ 62 }
    ensures { result ≡ (if (i + j == e) || (i + j == e + n) then product else 0) }
{
    if i + j == e || i + j == e + n {
        product
    } else {
        0
    }
}

// The sum of the terms of entry e of the cyclic product that have the factor x with index i.
fn row_sum(m: u64, x: u64, i: usize, ys: &[u64], e: usize) -> u64
    requires modulus { 1 ≤ m }
    requires place { i < length ys.now }
    requires entry { e < length ys.now }
    ensures { result ≡ sum_below (length ys.now)
        (λ j. if (i + j == e) || (i + j == e + length ys.now) then x * slice_index ys.now j else 0) % m }
{
    let mut sum = 0;
    'terms: for j in 0..ys.len() {
        let product = x as u128 * ys[j] as u128;
        let term = term(product, i, j, e, ys.len()) % m as u128;
        sum = ((sum as u128 + term) % m as u128) as u64;
    }
    sum
}

/// Entry e of the cyclic product of two lists modulo m, computed from the definition.
///
/// # Preconditions
///
/// - m is at least 1, the lists have the same length, and e is below it
pub fn product_entry(m: u64, xs: &[u64], ys: &[u64], e: usize) -> u64
    requires modulus { 1 ≤ m }
    requires equal { length xs.now ≡ length ys.now }
    requires entry { e < length ys.now }
    ensures { result ≡ cyclic_product m (length xs.now) (slice_index xs.now) (slice_index ys.now) e }
{
    let mut sum = 0;
    'rows: for i in 0..xs.len() {
        let row = row_sum(m, xs[i], i, ys, e);
        sum = ((sum as u128 + row as u128) % m as u128) as u64;
    }
    sum
}
