//! Transforms and products of lists of words by a table.

ghost use Rattle.std.specs.Prelude.{◌≡◌, ◌-◌, ◌*◌, ◌/◌, ◌↔◌, IsTrue, length};
ghost use Rattle.modular_plan_passes.specs.Plans.{constant};
ghost use Rattle.modular_plan_transforms.specs.Products.{product_modulo};
ghost use Rattle.num_modular.specs.Inverses.{HasInverse};
ghost use Rattle.num_modular.specs.Transforms.{cyclic_product};
ghost use Rattle.num_modular_c.specs.Codes.{Did, Refused, BothRefused};
ghost use Rattle.num_modular_c.specs.Plans.{words_of, AreBelow, AreFactors, AreSplit, AreJoined};
ghost use Rattle.num_modular_c.specs.Plans.{IsSplit, FitPlannedProduct, IsPlannedProduct, IsTransformed};

use crate::codes::{NM_BAD_ARGUMENT, NM_BAD_CONTEXT, NM_NO_INVERSE, NM_OK};
use crate::plans::NmFactor;
use modular_plan_passes::modulus::PlannedModulus;
use modular_plan_transforms::convolution::{convolve_block, convolves};
use modular_plan_transforms::filled::are_factors;
use modular_plan_transforms::join::join;
use modular_plan_transforms::split::{ntt_planned, split, splits};

// Whether each word is below 4m.
fn have_room(m: &PlannedModulus<u64>, words: &[u64]) -> bool
    ensures { IsTrue result ↔ AreBelow (4 * m.now.modulus) words.now }
{
    'words: for place in 0..words.len() {
        if !m.has_room(words[place]) {
            return false;
        }
    }
    true
}

// Whether `nm_split` accepts a list.
pub(crate) fn is_split(m: u64, words: &[u64], factors: usize, b: usize, last: usize) -> bool
    ensures { IsTrue result ↔ IsSplit m factors b last words.now }
{
    PlannedModulus::<u64>::admits(m)
        && splits(words.len(), factors, b, last)
        && have_room(&PlannedModulus::<u64>::new(m), words)
}

// The code of a call by a table, by what it tests of a list before it works.
fn split_code(m: u64, words: &[u64], table: &[NmFactor], b: usize, last: usize) -> u32
    ensures fits { let admitted = IsSplit m (length table.now) b last words.now in
        (result ≡ NM_OK) ↔ (admitted × AreFactors m table.now) }
    ensures bad_context { IsSplit m (length table.now) b last words.now → (AreFactors m table.now → ⊥)
        → result ≡ NM_BAD_CONTEXT }
    ensures bad_argument { (IsSplit m (length table.now) b last words.now → ⊥) → result ≡ NM_BAD_ARGUMENT }
{
    if !is_split(m, words, table.len(), b, last) {
        return NM_BAD_ARGUMENT;
    }
    if are_factors(m, table) {
        NM_OK
    } else {
        NM_BAD_CONTEXT
    }
}

/// Replaces the n words by their transform: where the table is that of g, entry j is the sum of x_i·h^(i·j) modulo m.
/// h is g, or, where the table is for more words, the power of g that suits n words.
///
/// `NM_BAD_ARGUMENT`: m is 0 or above 2^62, a word isn't below 4m, n is no power of two or above twice the length
/// of the table. `NM_BAD_CONTEXT`: an entry of the table isn't a factor modulo m with its quotient. Where it
/// is no root's table, the resulting words are below m and have no meaning.
#[unsafe(no_mangle)]
pub extern "C" fn nm_ntt_planned(m: u64, xs: &mut [u64], table: &[NmFactor]) -> u32
    ensures did { IsSplit m (length table.now) 0 1 xs.old → AreFactors m table.now
        → Did result (IsTransformed m table.now xs.old xs.new) }
    ensures bad_context { IsSplit m (length table.now) 0 1 xs.old → (AreFactors m table.now → ⊥)
        → Refused NM_BAD_CONTEXT result xs.old xs.new }
    ensures bad_argument { (IsSplit m (length table.now) 0 1 xs.old → ⊥)
        → Refused NM_BAD_ARGUMENT result xs.old xs.new }
{
    let code = split_code(m, xs, table, 0, 1);
    if code == NM_OK {
        ntt_planned(&PlannedModulus::<u64>::new(m), xs, table);
    }
    code
}

/// Splits block b of the tree of remainders into blocks of `last` words, in place: word i of block j
/// becomes the sum over k of x_(k·last + i)·c^k modulo m. Here the table is that of g, count is the number of blocks,
/// and c is the power of g by the reversed bits of b·count + j.
///
/// `NM_BAD_ARGUMENT`: m is 0 or above 2^62, a word isn't below 4m, n is no power of two times `last`, or the table
/// has fewer than (b + 1)·(count/2) entries. `NM_BAD_CONTEXT`: as for `nm_ntt_planned`.
#[unsafe(no_mangle)]
pub extern "C" fn nm_split(m: u64, xs: &mut [u64], table: &[NmFactor], b: usize, last: usize) -> u32
    ensures did { IsSplit m (length table.now) b last xs.old → AreFactors m table.now
        → Did result (AreSplit m b last table.now xs.old xs.new) }
    ensures bad_context { IsSplit m (length table.now) b last xs.old → (AreFactors m table.now → ⊥)
        → Refused NM_BAD_CONTEXT result xs.old xs.new }
    ensures bad_argument { (IsSplit m (length table.now) b last xs.old → ⊥)
        → Refused NM_BAD_ARGUMENT result xs.old xs.new }
{
    let code = split_code(m, xs, table, b, last);
    if code == NM_OK {
        split(&PlannedModulus::<u64>::new(m), xs, table, b, last);
    }
    code
}

/// Joins the blocks of `last` words into block b, which undoes `nm_split` but for a factor: where the words are the
/// remainders of a list, they are replaced by the words of the list times the number of blocks, modulo m. The codes
/// are those of `nm_split`.
#[unsafe(no_mangle)]
pub extern "C" fn nm_join(m: u64, xs: &mut [u64], table: &[NmFactor], b: usize, last: usize) -> u32
    ensures did { IsSplit m (length table.now) b last xs.old → AreFactors m table.now
        → Did result (AreJoined m b last (length xs.old / last) table.now xs.old xs.new) }
    ensures bad_context { IsSplit m (length table.now) b last xs.old → (AreFactors m table.now → ⊥)
        → Refused NM_BAD_CONTEXT result xs.old xs.new }
    ensures bad_argument { (IsSplit m (length table.now) b last xs.old → ⊥)
        → Refused NM_BAD_ARGUMENT result xs.old xs.new }
{
    let code = split_code(m, xs, table, b, last);
    if code == NM_OK {
        join(&PlannedModulus::<u64>::new(m), xs, table, b, last);
    }
    code
}

// Whether `nm_convolve_planned` and `nm_convolve_negacyclic` accept two lists as block b.
pub(crate) fn is_pair(m: u64, xs: &[u64], ys: &[u64], factors: usize, b: usize, last: usize) -> bool
    ensures { IsTrue result ↔ FitPlannedProduct m factors b last xs.now ys.now }
{
    if !PlannedModulus::<u64>::admits(m) {
        return false;
    }
    let modulus = PlannedModulus::<u64>::new(m);
    xs.len() == ys.len()
        && convolves(xs.len(), factors, b, last)
        && have_room(&modulus, xs)
        && have_room(&modulus, ys)
}

// The code of a product by a table, by what it tests before it works.
fn pair_code(m: u64, xs: &[u64], ys: &[u64], table: &[NmFactor], b: usize, last: usize) -> u32
    ensures fits { let admitted = FitPlannedProduct m (length table.now) b last xs.now ys.now in
        (result ≡ NM_OK) ↔ (admitted × AreFactors m table.now) }
    ensures bad_context { FitPlannedProduct m (length table.now) b last xs.now ys.now → (AreFactors m table.now → ⊥)
        → result ≡ NM_BAD_CONTEXT }
    ensures bad_argument { (FitPlannedProduct m (length table.now) b last xs.now ys.now → ⊥) → result ≡ NM_BAD_ARGUMENT }
{
    if !is_pair(m, xs, ys, table.len(), b, last) {
        return NM_BAD_ARGUMENT;
    }
    if are_factors(m, table) {
        NM_OK
    } else {
        NM_BAD_CONTEXT
    }
}

// The code of a product modulo X^n - c, as block b of a table, of lists that have been tested.
pub(crate) fn product_code(
    m: u64,
    xs: &mut [u64],
    ys: &mut [u64],
    table: &[NmFactor],
    b: usize,
    last: usize,
) -> u32
    requires pair { FitPlannedProduct m (length table.now) b last xs.old ys.old }
    requires factors { AreFactors m table.now }
    ensures did { let n = length xs.old in HasInverse m (n / last) → Did result (IsPlannedProduct m b last table.now
        (λ g z e. product_modulo m n (constant g z b) (words_of xs.old) (words_of ys.old) e) ys.old xs.new ys.new) }
    ensures no_inverse { (HasInverse m (length xs.old / last) → ⊥)
        → BothRefused NM_NO_INVERSE result xs.old xs.new ys.old ys.new }
{
    if convolve_block(&PlannedModulus::<u64>::new(m), xs, ys, table, b, last) {
        NM_OK
    } else {
        NM_NO_INVERSE
    }
}

/// Replaces the first of two lists of n words by their cyclic product, and the second by the result of `nm_split`
/// for b = 0: entry e of the product is the sum of x_i·y_j modulo m over i + j = e or e + n.
///
/// `NM_BAD_ARGUMENT`: m is 0 or above 2^62, a word isn't below 4m, the lengths differ, `last` isn't 1 or 2, n/last
/// is no power of two, or the table has fewer than n/last/2 entries, or none. `NM_BAD_CONTEXT`: as for
/// `nm_ntt_planned`. `NM_NO_INVERSE`: n/last has no inverse modulo m.
#[unsafe(no_mangle)]
pub extern "C" fn nm_convolve_planned(
    m: u64,
    xs: &mut [u64],
    ys: &mut [u64],
    table: &[NmFactor],
    last: usize,
) -> u32
    ensures did { let n = length xs.old in
        FitPlannedProduct m (length table.now) 0 last xs.old ys.old → AreFactors m table.now → HasInverse m (n / last)
        → Did result (IsPlannedProduct m 0 last table.now
        (λ g z e. cyclic_product m n (words_of xs.old) (words_of ys.old) e) ys.old xs.new ys.new) }
    ensures no_inverse { FitPlannedProduct m (length table.now) 0 last xs.old ys.old → AreFactors m table.now
        → (HasInverse m (length xs.old / last) → ⊥)
        → BothRefused NM_NO_INVERSE result xs.old xs.new ys.old ys.new }
    ensures bad_context { FitPlannedProduct m (length table.now) 0 last xs.old ys.old → (AreFactors m table.now → ⊥)
        → BothRefused NM_BAD_CONTEXT result xs.old xs.new ys.old ys.new }
    ensures bad_argument { (FitPlannedProduct m (length table.now) 0 last xs.old ys.old → ⊥)
        → BothRefused NM_BAD_ARGUMENT result xs.old xs.new ys.old ys.new }
{
    let code = pair_code(m, xs, ys, table, 0, last);
    if code != NM_OK {
        return code;
    }
    product_code(m, xs, ys, table, 0, last)
}

/// Replaces the first of two lists of n words by their product modulo X^n + 1, and the second by the result of
/// `nm_split` for b = 1: entry e of the product is the sum of x_i·y_j modulo m over i + j = e, less that over i +
/// j = e + n. The codes are those of `nm_convolve_planned`, except that the table must have at least n/last entries.
#[unsafe(no_mangle)]
pub extern "C" fn nm_convolve_negacyclic(
    m: u64,
    xs: &mut [u64],
    ys: &mut [u64],
    table: &[NmFactor],
    last: usize,
) -> u32
    ensures did { let n = length xs.old in
        FitPlannedProduct m (length table.now) 1 last xs.old ys.old → AreFactors m table.now → HasInverse m (n / last)
        → Did result (IsPlannedProduct m 1 last table.now
        (λ g z e. product_modulo m n (m - 1) (words_of xs.old) (words_of ys.old) e) ys.old xs.new ys.new) }
    ensures no_inverse { FitPlannedProduct m (length table.now) 1 last xs.old ys.old → AreFactors m table.now
        → (HasInverse m (length xs.old / last) → ⊥)
        → BothRefused NM_NO_INVERSE result xs.old xs.new ys.old ys.new }
    ensures bad_context { FitPlannedProduct m (length table.now) 1 last xs.old ys.old → (AreFactors m table.now → ⊥)
        → BothRefused NM_BAD_CONTEXT result xs.old xs.new ys.old ys.new }
    ensures bad_argument { (FitPlannedProduct m (length table.now) 1 last xs.old ys.old → ⊥)
        → BothRefused NM_BAD_ARGUMENT result xs.old xs.new ys.old ys.new }
{
    let code = pair_code(m, xs, ys, table, 1, last);
    if code != NM_OK {
        return code;
    }
    product_code(m, xs, ys, table, 1, last)
}
