//! Transforms of any length modulo any m, with plans that are filled for the one call.

ghost use Rattle.std.specs.Prelude.{◌≡◌, ℕ, ◌*◌, ◌/◌, ◌%◌, ◌^◌, ◌<◌, ◌≤◌, ◌↔◌, IsTrue, length, slice_index};
ghost use Rattle.long_product.specs.AnyLength.{IsRootOfOrder, scaled_transform, HasTransformRoom, FitsTransform};
ghost use Rattle.long_product.specs.AnyLength.{IsFirstBaseOfOrder};
ghost use Rattle.long_product.specs.Room.{ArePlanLengths};
ghost use Rattle.num_modular.specs.Inverses.{IsInverse, HasInverse};
ghost use Rattle.num_modular.specs.Roots.{root_by};
ghost use Rattle.num_modular.specs.Transforms.{transform};
ghost use Rattle.num_modular_c.specs.Codes.{Did, Refused, BothRefused};

use crate::codes::{NM_BAD_ARGUMENT, NM_NO_INVERSE, NM_NO_ROOT, NM_OK};
use crate::plans::NmFactor;
use long_product::any_length::{find_root_of_order, intt, is_root_of_order, ntt, room};
use long_product::polynomials::LEAST_TRANSFORMED;
use long_product::{MOST_PLACES, Plans, fill_plans, transform_length};
use num_modular::ModularUnaryOps;

// What an empty table of factors holds.
const NONE: NmFactor = NmFactor {
    value: 0,
    quotient: 0,
};

/// Writes the lengths of the two scratch lists of `nm_transform` for n = `length` numbers: where n is below
/// `LEAST_CONVOLVED` of `long_product::any_length`, both are 0; else there are 6·n words, and from n =
/// `LEAST_TRANSFORMED` of `long_product::polynomials` on 4·e words more and 3·e/2 factors, e being the least power of
/// two that is at least 3·n - 1. `NM_BAD_ARGUMENT`: 3·n is above 2^32.
#[unsafe(no_mangle)]
pub extern "C" fn nm_transform_room(length: usize, words: &mut usize, factors: &mut usize) -> u32
    ensures did { 3 * length ≤ 2 ^ 32 → Did result ((w f : ℕ) → HasTransformRoom length w (f / 3)
        ↔ ((words.new ≤ w) × (factors.new ≤ f))) }
    ensures bad_argument { 2 ^ 32 < 3 * length → BothRefused NM_BAD_ARGUMENT result words.old words.new
        factors.old factors.new }
{
    if length > MOST_PLACES / 3 {
        return NM_BAD_ARGUMENT;
    }
    let (needed, table) = room(length);
    *words = needed;
    *factors = 3 * table;
    NM_OK
}

/// Tests whether g is a root of unity of this order n modulo m, for which `nm_transform_inverse` undoes `nm_transform`:
/// n is at least 1, g^n is 1, and g^d - 1 has an inverse for each d from 1 to n - 1. It takes 2·n products and one
/// inverse where g^n is 1 and n is below m. `NM_NO_ROOT`: it isn't. `NM_BAD_ARGUMENT`: m is 0.
#[unsafe(no_mangle)]
pub extern "C" fn nm_transform_root_fits(m: u64, g: u64, order: usize) -> u32
    ensures fits { 1 ≤ m → IsRootOfOrder m g order → result ≡ NM_OK }
    ensures no_root { 1 ≤ m → (IsRootOfOrder m g order → ⊥) → result ≡ NM_NO_ROOT }
    ensures bad_argument { m ≡ 0 → result ≡ NM_BAD_ARGUMENT }
{
    if m == 0 {
        return NM_BAD_ARGUMENT;
    }
    if is_root_of_order(m, g, order) {
        NM_OK
    } else {
        NM_NO_ROOT
    }
}

/// Writes a root of unity of this order n modulo m, as `nm_transform_root_fits` tests it: x to the power (m - 1)/n, rounded
/// down, for the least x from 2 to 255 for which it is one. `NM_NO_ROOT`: it is for no x. `NM_BAD_ARGUMENT`: m is 0.
#[unsafe(no_mangle)]
pub extern "C" fn nm_transform_find_root(m: u64, order: usize, root: &mut u64) -> u32
    ensures did { 1 ≤ m → ((x : ℕ) × (2 ≤ x) × (x < 256) × IsRootOfOrder m (root_by m order x) order) → Did result
        ((x : ℕ) × (x < 256) × IsFirstBaseOfOrder m order x × (root.new ≡ root_by m order x)) }
    ensures no_root { 1 ≤ m → ((x : ℕ) → 2 ≤ x → x < 256 → IsRootOfOrder m (root_by m order x) order → ⊥)
        → Refused NM_NO_ROOT result root.old root.new }
    ensures bad_argument { m ≡ 0 → Refused NM_BAD_ARGUMENT result root.old root.new }
{
    if m == 0 {
        return NM_BAD_ARGUMENT;
    }
    match find_root_of_order(m, order) {
        Some(found) => {
            *root = found;
            NM_OK
        }
        None => NM_NO_ROOT,
    }
}

// Whether m is a modulus, as many entries are read as written, and there is room.
fn fits(m: u64, n: usize, places: usize, words: usize, table: usize) -> bool
    ensures { IsTrue result ↔ FitsTransform m n places words table }
{
    if m == 0 || places != n || n > MOST_PLACES / 3 {
        return false;
    }
    let (needed, factors) = room(n);
    if needed > words || factors > table {
        return false;
    }
    true
}

// Whether x has an inverse. Condition: m is at least 1.
fn has_inverse(m: u64, x: u64) -> bool
    requires { 1 ≤ m }
    ensures { IsTrue result ↔ HasInverse m x }
{
    match x.invm(&m) {
        Some(_) => true,
        None => false,
    }
}

// The number of factors of each table for n entries; 1 where none is needed. Condition: 3·n is at most 2^32.
fn table_length(n: usize) -> usize
    requires { 3 * n ≤ 2 ^ 32 }
    ensures lengths { ArePlanLengths result result result }
    ensures room { (words table : ℕ) → HasTransformRoom n words table → HasTransformRoom n words result }
    ensures within { (words table : ℕ) → HasTransformRoom n words table → LEAST_TRANSFORMED ≤ n → result ≤ table }
    ensures one { n < LEAST_TRANSFORMED → result ≡ 1 }
{
    if n < LEAST_TRANSFORMED {
        return 1;
    }
    transform_length(3 * n - 1) / 2
}

// The plans in three tables of so many factors. Conditions: that is a power of two that is at most 2^31, and the tables are
// within the list.
// rust: #[track_caller]
fn plans_in<'a>(factors: &'a mut [NmFactor], table: usize) -> Plans<'a, NmFactor>
    requires lengths { ArePlanLengths table table table }
    requires room { 3 * table ≤ length factors.old }
    ensures { result.factors ≡ table }
{
    let (first, rest) = factors.split_at_mut(table);
    let (second, rest) = rest.split_at_mut(table);
    let (third, _spare) = rest.split_at_mut(table);
    match fill_plans(first, second, third) {
        Some(plans) => plans,
        // rust instead: None => panic!("that must be a power of two that is at most 2^31, and the tables must be within the list"),
        None => unreachable!(),
    }
}

// Writes the transform, with plans in three tables of so many factors. Conditions: those of `plans_in`; m is at least 1, g
// has an inverse, xs and `out` are equally long, and words and tables suffice.
fn transform_once(
    m: u64,
    g: u64,
    xs: &[u64],
    out: &mut [u64],
    words: &mut [u64],
    factors: &mut [NmFactor],
    table: usize,
)
    requires fits { FitsTransform m (length xs.now) (length out.old) (length words.old) table }
    requires inverse { HasInverse m g }
    requires lengths { ArePlanLengths table table table }
    requires room { 3 * table ≤ length factors.old }
    ensures { let n = length xs.now in (j : ℕ) → j < n →
        slice_index out.new j ≡ transform m g n (slice_index xs.now) j }
{
    let plans = plans_in(factors, table);
    let _done = ntt(m, g, xs, out, words, &plans);
}

// Writes the inverse transform, with plans in three tables of so many factors. Conditions: those of `transform_once`, and
// n has an inverse.
fn invert_once(
    m: u64,
    g: u64,
    xs: &[u64],
    out: &mut [u64],
    words: &mut [u64],
    factors: &mut [NmFactor],
    table: usize,
)
    requires fits { FitsTransform m (length xs.now) (length out.old) (length words.old) table }
    requires inverse { HasInverse m g }
    requires of_length { HasInverse m (length xs.now) }
    requires lengths { ArePlanLengths table table table }
    requires room { 3 * table ≤ length factors.old }
    ensures values { let n = length xs.now in (h part j : ℕ) → IsInverse m g h → IsInverse m n part → j < n →
        slice_index out.new j ≡ scaled_transform m part h n (slice_index xs.now) j }
    ensures undone { let n = length xs.now in IsRootOfOrder m g n → (x : ℕ → ℕ) →
        ((j : ℕ) → j < n → transform m g n x j ≡ slice_index xs.now j % m) →
        (i : ℕ) → i < n → slice_index out.new i ≡ x i % m }
{
    let plans = plans_in(factors, table);
    let _done = intt(m, g, xs, out, words, &plans);
}

/// Writes the transform by g of the n numbers xs modulo m, for any n: entry j is the sum of x_i·g^(i·j) over i from 0 to
/// n - 1, modulo m. The scratch lists `words` and `factors` have unspecified contents afterwards. `NM_NO_INVERSE`: g has
/// no inverse modulo m. `NM_BAD_ARGUMENT`: m is 0; xs and `out` aren't equally long; or a scratch list is shorter than
/// `nm_transform_room` writes, or that refuses.
#[unsafe(no_mangle)]
pub extern "C" fn nm_transform(
    m: u64,
    g: u64,
    xs: &[u64],
    out: &mut [u64],
    words: &mut [u64],
    factors: &mut [NmFactor],
) -> u32
    ensures did { let n = length xs.now in FitsTransform m n (length out.old) (length words.old) (length factors.old / 3)
        → HasInverse m g → Did result ((j : ℕ) → j < n →
        slice_index out.new j ≡ transform m g n (slice_index xs.now) j) }
    ensures no_inverse { let n = length xs.now in
        FitsTransform m n (length out.old) (length words.old) (length factors.old / 3) → (HasInverse m g → ⊥)
        → BothRefused NM_NO_INVERSE result out.old out.new words.old words.new × (factors.new ≡ factors.old) }
    ensures bad_argument { let n = length xs.now in
        (FitsTransform m n (length out.old) (length words.old) (length factors.old / 3) → ⊥)
        → BothRefused NM_BAD_ARGUMENT result out.old out.new words.old words.new × (factors.new ≡ factors.old) }
{
    let n = xs.len();
    if !fits(m, n, out.len(), words.len(), factors.len() / 3) {
        return NM_BAD_ARGUMENT;
    }
    if !has_inverse(m, g) {
        return NM_NO_INVERSE;
    }
    let table = table_length(n);
    if n < LEAST_TRANSFORMED {
        let mut few = [NONE; 3];
        transform_once(m, g, xs, out, words, &mut few, table);
    } else {
        transform_once(m, g, xs, out, words, factors, table);
    }
    NM_OK
}

/// Writes the inverse transform by g of the n numbers xs modulo m, for any n: entry j is the sum of x_i·g^(-i·j) over i
/// from 0 to n - 1, divided by n, modulo m. Where g is a root of order n (`nm_transform_root_fits` tells), it undoes
/// `nm_transform`. `NM_NO_INVERSE`: g or n has no inverse modulo m. What else is said of `nm_transform` holds here too.
#[unsafe(no_mangle)]
pub extern "C" fn nm_transform_inverse(
    m: u64,
    g: u64,
    xs: &[u64],
    out: &mut [u64],
    words: &mut [u64],
    factors: &mut [NmFactor],
) -> u32
    ensures did { let n = length xs.now in FitsTransform m n (length out.old) (length words.old) (length factors.old / 3)
        → HasInverse m g → HasInverse m n → Did result ((h part j : ℕ) → IsInverse m g h → IsInverse m n part → j < n →
        slice_index out.new j ≡ scaled_transform m part h n (slice_index xs.now) j) }
    ensures undone { let n = length xs.now in FitsTransform m n (length out.old) (length words.old)
        (length factors.old / 3) → HasInverse m g → HasInverse m n → IsRootOfOrder m g n → (x : ℕ → ℕ) →
        ((j : ℕ) → j < n → transform m g n x j ≡ slice_index xs.now j % m) →
        (i : ℕ) → i < n → slice_index out.new i ≡ x i % m }
    ensures no_inverse { let n = length xs.now in
        FitsTransform m n (length out.old) (length words.old) (length factors.old / 3)
        → (HasInverse m g → HasInverse m n → ⊥)
        → BothRefused NM_NO_INVERSE result out.old out.new words.old words.new × (factors.new ≡ factors.old) }
    ensures bad_argument { let n = length xs.now in
        (FitsTransform m n (length out.old) (length words.old) (length factors.old / 3) → ⊥)
        → BothRefused NM_BAD_ARGUMENT result out.old out.new words.old words.new × (factors.new ≡ factors.old) }
{
    let n = xs.len();
    if !fits(m, n, out.len(), words.len(), factors.len() / 3) {
        return NM_BAD_ARGUMENT;
    }
    if !has_inverse(m, g) || !has_inverse(m, n as u64) {
        return NM_NO_INVERSE;
    }
    let table = table_length(n);
    if n < LEAST_TRANSFORMED {
        let mut few = [NONE; 3];
        invert_once(m, g, xs, out, words, &mut few, table);
    } else {
        invert_once(m, g, xs, out, words, factors, table);
    }
    NM_OK
}
