//! Operations on lists of words modulo m, entry by entry.

ghost use Rattle.std.specs.Prelude.{◌≡◌, ℕ, ◌*◌, ◌%◌, ◌<◌, ◌≤◌, length, slice_index};
ghost use Rattle.num_modular.specs.Sums.{sum_below};
ghost use Rattle.num_modular_c.specs.Codes.{Did, Refused};
ghost use Rattle.num_modular_c.specs.Lists.{combination, FitLists};
ghost use Rattle.num_modular_c.specs.declared.word_lists.Operation.TheVariants.{Add, Sub, Mul};

use crate::codes::{NM_BAD_ARGUMENT, NM_OK};
use crate::lists::{load, unload};
use num_modular::ring::scale_list;
use num_modular::{PreMulInv2by1, Reducer};

/// What is done with two words.
#[derive(Clone, Copy)]
pub enum Operation {
    /// Their sum.
    Add,
    /// Their difference.
    Sub,
    /// Their product.
    Mul,
}

// The residue of the outcome of an operation on two words.
fn combined<R: Reducer<u64>>(r: &R, operation: Operation, a: u64, b: u64) -> u64
    ensures { result ≡ combination operation (R.modulus r.now) a b }
{
    let (x, y) = (r.transform(a), r.transform(b));
    match operation {
        Operation::Add => r.residue(r.add(&x, &y)),
        Operation::Sub => r.residue(r.sub(&x, &y)),
        Operation::Mul => r.residue(r.mul(&x, &y)),
    }
}

// Replaces each word by the outcome of an operation on it and the other list's word.
fn combine<R: Reducer<u64>>(r: &R, operation: Operation, xs: &mut [u64], ys: &[u64])
    requires { length ys.now ≡ length xs.old }
    ensures { let m = R.modulus r.now in (i : ℕ) → i < length xs.old →
        slice_index xs.new i ≡ combination operation m (slice_index xs.old i) (slice_index ys.now i) }
{
    'entries: for i in 0..xs.len() {
        xs[i] = combined(r, operation, xs[i], ys[i]);
    }
}

// `combine` modulo m, with its code.
fn combine_modulo(m: u64, operation: Operation, xs: &mut [u64], ys: &[u64]) -> u32
    ensures did { FitLists m xs.old ys.now → Did result ((i : ℕ) → i < length xs.old →
        slice_index xs.new i ≡ combination operation m (slice_index xs.old i) (slice_index ys.now i)) }
    ensures bad_argument { (FitLists m xs.old ys.now → ⊥) → Refused NM_BAD_ARGUMENT result xs.old xs.new }
{
    if m == 0 || ys.len() != xs.len() {
        return NM_BAD_ARGUMENT;
    }
    combine(&PreMulInv2by1::<u64>::new(m), operation, xs, ys);
    NM_OK
}

/// Replaces each word of the first list by the residue modulo m of its sum with the word of the second list at the same
/// index. `NM_BAD_ARGUMENT`: m is 0, or the lengths differ.
#[unsafe(no_mangle)]
pub extern "C" fn nm_add_lists(m: u64, xs: &mut [u64], ys: &[u64]) -> u32
    ensures did { FitLists m xs.old ys.now → Did result ((i : ℕ) → i < length xs.old →
        slice_index xs.new i ≡ combination Add m (slice_index xs.old i) (slice_index ys.now i)) }
    ensures bad_argument { (FitLists m xs.old ys.now → ⊥) → Refused NM_BAD_ARGUMENT result xs.old xs.new }
{
    combine_modulo(m, Operation::Add, xs, ys)
}

/// Replaces each word of the first list by the residue modulo m of its difference from the word of the second list at the
/// same index. The codes are those of `nm_add_lists`.
#[unsafe(no_mangle)]
pub extern "C" fn nm_sub_lists(m: u64, xs: &mut [u64], ys: &[u64]) -> u32
    ensures did { FitLists m xs.old ys.now → Did result ((i : ℕ) → i < length xs.old →
        slice_index xs.new i ≡ combination Sub m (slice_index xs.old i) (slice_index ys.now i)) }
    ensures bad_argument { (FitLists m xs.old ys.now → ⊥) → Refused NM_BAD_ARGUMENT result xs.old xs.new }
{
    combine_modulo(m, Operation::Sub, xs, ys)
}

/// Replaces each word of the first list by the residue modulo m of its product with the word of the second list at the
/// same index. The codes are those of `nm_add_lists`.
#[unsafe(no_mangle)]
pub extern "C" fn nm_multiply_lists(m: u64, xs: &mut [u64], ys: &[u64]) -> u32
    ensures did { FitLists m xs.old ys.now → Did result ((i : ℕ) → i < length xs.old →
        slice_index xs.new i ≡ combination Mul m (slice_index xs.old i) (slice_index ys.now i)) }
    ensures bad_argument { (FitLists m xs.old ys.now → ⊥) → Refused NM_BAD_ARGUMENT result xs.old xs.new }
{
    combine_modulo(m, Operation::Mul, xs, ys)
}

// Replaces each word by the residue of its product with one factor.
fn scale<R: Reducer<u64>>(r: &R, xs: &mut [u64], factor: u64)
    ensures { let m = R.modulus r.now in (i : ℕ) → i < length xs.old →
        slice_index xs.new i ≡ (slice_index xs.old i * factor) % m }
{
    load(r, xs);
    scale_list(r, xs, &r.transform(factor));
    unload(r, xs);
}

/// Replaces each word by the residue modulo m of its product with the factor. `NM_BAD_ARGUMENT`: m is 0.
#[unsafe(no_mangle)]
pub extern "C" fn nm_scale_list(m: u64, xs: &mut [u64], factor: u64) -> u32
    ensures did { 1 ≤ m → Did result ((i : ℕ) → i < length xs.old →
        slice_index xs.new i ≡ (slice_index xs.old i * factor) % m) }
    ensures bad_argument { m ≡ 0 → Refused NM_BAD_ARGUMENT result xs.old xs.new }
{
    if m == 0 {
        return NM_BAD_ARGUMENT;
    }
    scale(&PreMulInv2by1::<u64>::new(m), xs, factor);
    NM_OK
}

// The residue of the sum of the products of the words at the same index.
fn sum_products<R: Reducer<u64>>(r: &R, xs: &[u64], ys: &[u64]) -> u64
    requires { length ys.now ≡ length xs.now }
    ensures { result ≡ sum_below (length xs.now) (λ i. slice_index xs.now i * slice_index ys.now i) % R.modulus r.now }
{
    let mut sum = r.transform(0);
    'entries: for i in 0..xs.len() {
        let product = r.mul(&r.transform(xs[i]), &r.transform(ys[i]));
        sum = r.add(&sum, &product);
    }
    r.residue(sum)
}

/// Writes the residue modulo m of the sum of the products of the words at the same index, 0 for empty lists. The codes are
/// those of `nm_add_lists`.
#[unsafe(no_mangle)]
pub extern "C" fn nm_dot_product(m: u64, xs: &[u64], ys: &[u64], product: &mut u64) -> u32
    ensures did { FitLists m xs.now ys.now → Did result (product.new
        ≡ sum_below (length xs.now) (λ i. slice_index xs.now i * slice_index ys.now i) % m) }
    ensures bad_argument { (FitLists m xs.now ys.now → ⊥) → Refused NM_BAD_ARGUMENT result product.old product.new }
{
    if m == 0 || ys.len() != xs.len() {
        return NM_BAD_ARGUMENT;
    }
    *product = sum_products(&PreMulInv2by1::<u64>::new(m), xs, ys);
    NM_OK
}
