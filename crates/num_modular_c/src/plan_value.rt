//! A plan as one value. Its calls don't test the table, which C mustn't have changed.

ghost use Rattle.std.specs.Prelude.{◌≡◌, ◌-◌, ◌*◌, ◌/◌, ◌%◌, ◌^◌, length};
ghost use Rattle.modular_plan_transforms.specs.Products.{product_modulo};
ghost use Rattle.num_modular.specs.Inverses.{HasInverse};
ghost use Rattle.num_modular.specs.Transforms.{Suits, cyclic_product};
ghost use Rattle.num_modular_c.specs.Codes.{Did, Refused, BothRefused};
ghost use Rattle.num_modular_c.specs.Plans.{words_of, AreFactors, AreJoined, AreSplit, FitPlannedProduct, IsAdmitted};
ghost use Rattle.num_modular_c.specs.Plans.{IsMade, IsPlannedProduct, IsSplit, IsTable, IsTransformed, IsTransformedBack};

// rust instead: use crate::num_modular_c::codes::{NM_BAD_ARGUMENT, NM_NO_INVERSE, NM_OK};
use crate::codes::{NM_BAD_ARGUMENT, NM_BAD_CONTEXT, NM_NO_INVERSE, NM_NO_ROOT, NM_OK};
use crate::planned::{is_pair, is_split, product_code};
use crate::plans::{NmFactor, nm_fill_table, nm_table_fits};
use modular_plan_passes::modulus::PlannedModulus;
use modular_plan_transforms::join::join_scaled;
use modular_plan_transforms::split::{ntt_planned, split};
use modular_plan_transforms::tables::inverse_of_count;
use modular_transform::order::reverse_places;

/// A plan: a modulus m, a root, and the table of the factors of its powers, which the caller owns.
#[repr(C)]
#[derive(Clone, Copy)]
// rust: #[must_use]
pub struct NmPlan<'a> {
    /// The modulus.
    pub modulus: u64,
    /// The root, which suits as many words as twice the length of the table.
    pub root: u64,
    /// The factors.
    pub table: &'a [NmFactor],
}

/// Fills the table of the root for transforms of n words, n being twice its length, and writes the plan, in which the root
/// is the residue. The codes are those of `nm_fill_table`. No clause says that a failed call leaves the table unchanged,
/// because the plan borrows it.
#[unsafe(no_mangle)]
pub extern "C" fn nm_plan_make<'a>(
    m: u64,
    root: u64,
    table: &'a mut [NmFactor],
    plan: &mut NmPlan<'a>,
) -> u32
    ensures did { IsAdmitted m → Suits m (root % m) (2 * length table.old)
        → Did result (IsMade m root (length table.old) plan.new) }
    ensures no_root { IsAdmitted m → (Suits m (root % m) (2 * length table.old) → ⊥)
        → Refused NM_NO_ROOT result plan.old plan.new }
    ensures bad_argument { (IsAdmitted m → ⊥) → Refused NM_BAD_ARGUMENT result plan.old plan.new }
{
    if m == 0 {
        return NM_BAD_ARGUMENT;
    }
    let code = nm_fill_table(m, root, table);
    if code == NM_OK {
        *plan = NmPlan {
            modulus: m,
            root: root % m,
            table,
        };
    }
    code
}

/// Tests whether the plan's table is the one that `nm_plan_make` makes for its modulus and its root. The codes are
/// those of `nm_table_fits`.
#[unsafe(no_mangle)]
pub extern "C" fn nm_plan_check(plan: &NmPlan) -> u32
    ensures fits { let m = plan.now.modulus in let g = plan.now.root % m in let table = plan.now.table.now in
        IsAdmitted m → Suits m g (2 * length table) → IsTable m g table → result ≡ NM_OK }
    ensures bad_context { let m = plan.now.modulus in let g = plan.now.root % m in let table = plan.now.table.now in
        IsAdmitted m → Suits m g (2 * length table) → (IsTable m g table → ⊥) → result ≡ NM_BAD_CONTEXT }
    ensures no_root { let m = plan.now.modulus in let g = plan.now.root % m in
        IsAdmitted m → (Suits m g (2 * length plan.now.table.now) → ⊥) → result ≡ NM_NO_ROOT }
    ensures bad_argument { (IsAdmitted plan.now.modulus → ⊥) → result ≡ NM_BAD_ARGUMENT }
{
    nm_table_fits(plan.modulus, plan.root, plan.table)
}

/// Replaces the n words by their transform: where the table is that of g, entry j is the sum of x_i·h^(i·j) modulo m.
/// h is g, or, where the table is for more words, the power of g that suits n words. `nm_plan_make` writes a plan whose
/// table is that of its root modulo m, and `nm_plan_check` returns `NM_OK` for no other.
///
/// Condition: the entries of the plan's table are factors modulo m (`nm_plan_make` and `nm_plan_check` leave them).
/// Factors that are no root's table give meaningless words below m. `NM_BAD_ARGUMENT`: as for `nm_ntt_planned`.
#[unsafe(no_mangle)]
pub extern "C" fn nm_plan_transform(plan: &NmPlan, xs: &mut [u64]) -> u32
    requires { AreFactors plan.now.modulus plan.now.table.now }
    ensures did { IsSplit plan.now.modulus (length plan.now.table.now) 0 1 xs.old
        → Did result (IsTransformed plan.now.modulus plan.now.table.now xs.old xs.new) }
    ensures bad_argument { (IsSplit plan.now.modulus (length plan.now.table.now) 0 1 xs.old → ⊥)
        → Refused NM_BAD_ARGUMENT result xs.old xs.new }
{
    if !is_split(plan.modulus, xs, plan.table.len(), 0, 1) {
        return NM_BAD_ARGUMENT;
    }
    ntt_planned(&PlannedModulus::<u64>::new(plan.modulus), xs, plan.table);
    NM_OK
}

/// Undoes `nm_plan_transform`: replaces the n words by those whose transform they are. Condition: that of
/// `nm_plan_transform`. `NM_BAD_ARGUMENT`: as there. `NM_NO_INVERSE`: n has no inverse modulo m.
#[unsafe(no_mangle)]
pub extern "C" fn nm_plan_inverse(plan: &NmPlan, xs: &mut [u64]) -> u32
    requires { AreFactors plan.now.modulus plan.now.table.now }
    ensures did { let m = plan.now.modulus in let table = plan.now.table.now in
        IsSplit m (length table) 0 1 xs.old → HasInverse m (length xs.old)
        → Did result (IsTransformedBack m table xs.old xs.new) }
    ensures no_inverse { let m = plan.now.modulus in
        IsSplit m (length plan.now.table.now) 0 1 xs.old → (HasInverse m (length xs.old) → ⊥)
        → Refused NM_NO_INVERSE result xs.old xs.new }
    ensures bad_argument { (IsSplit plan.now.modulus (length plan.now.table.now) 0 1 xs.old → ⊥)
        → Refused NM_BAD_ARGUMENT result xs.old xs.new }
{
    if !is_split(plan.modulus, xs, plan.table.len(), 0, 1) {
        return NM_BAD_ARGUMENT;
    }
    let m = PlannedModulus::<u64>::new(plan.modulus);
    let Some(part) = inverse_of_count(&m, xs.len()) else {
        return NM_NO_INVERSE;
    };
    let bits = xs.len().trailing_zeros();
    reverse_places(xs, bits);
    join_scaled(&m, xs, plan.table, 0, 1, &part);
    NM_OK
}

/// Splits block b of the tree of remainders into blocks of `last` words, as `nm_split`. Condition: that of
/// `nm_plan_transform`. `NM_BAD_ARGUMENT`: as for `nm_split`.
#[unsafe(no_mangle)]
pub extern "C" fn nm_plan_split(plan: &NmPlan, xs: &mut [u64], b: usize, last: usize) -> u32
    requires { AreFactors plan.now.modulus plan.now.table.now }
    ensures did { IsSplit plan.now.modulus (length plan.now.table.now) b last xs.old
        → Did result (AreSplit plan.now.modulus b last plan.now.table.now xs.old xs.new) }
    ensures bad_argument { (IsSplit plan.now.modulus (length plan.now.table.now) b last xs.old → ⊥)
        → Refused NM_BAD_ARGUMENT result xs.old xs.new }
{
    if !is_split(plan.modulus, xs, plan.table.len(), b, last) {
        return NM_BAD_ARGUMENT;
    }
    split(
        &PlannedModulus::<u64>::new(plan.modulus),
        xs,
        plan.table,
        b,
        last,
    );
    NM_OK
}

/// Undoes `nm_plan_split`. Condition: that of `nm_plan_transform`. `NM_BAD_ARGUMENT`: as for
/// `nm_split`. `NM_NO_INVERSE`: the number n/last of blocks has no inverse modulo m.
#[unsafe(no_mangle)]
pub extern "C" fn nm_plan_join(plan: &NmPlan, xs: &mut [u64], b: usize, last: usize) -> u32
    requires { AreFactors plan.now.modulus plan.now.table.now }
    ensures did { let m = plan.now.modulus in let table = plan.now.table.now in
        IsSplit m (length table) b last xs.old → HasInverse m (length xs.old / last)
        → Did result (AreJoined m b last 1 table xs.old xs.new) }
    ensures no_inverse { let m = plan.now.modulus in
        IsSplit m (length plan.now.table.now) b last xs.old → (HasInverse m (length xs.old / last) → ⊥)
        → Refused NM_NO_INVERSE result xs.old xs.new }
    ensures bad_argument { (IsSplit plan.now.modulus (length plan.now.table.now) b last xs.old → ⊥)
        → Refused NM_BAD_ARGUMENT result xs.old xs.new }
{
    if !is_split(plan.modulus, xs, plan.table.len(), b, last) {
        return NM_BAD_ARGUMENT;
    }
    let m = PlannedModulus::<u64>::new(plan.modulus);
    let Some(part) = inverse_of_count(&m, xs.len() / last) else {
        return NM_NO_INVERSE;
    };
    join_scaled(&m, xs, plan.table, b, last, &part);
    NM_OK
}

/// Replaces the first of two lists of n words by their cyclic product, and the second by the result of
/// `nm_plan_split` for b = 0 and last = 1. Condition: that of `nm_plan_transform`. The other codes are those of
/// `nm_convolve_planned` for last = 1.
#[unsafe(no_mangle)]
pub extern "C" fn nm_plan_convolve(plan: &NmPlan, xs: &mut [u64], ys: &mut [u64]) -> u32
    requires { AreFactors plan.now.modulus plan.now.table.now }
    ensures did { let m = plan.now.modulus in let table = plan.now.table.now in let n = length xs.old in
        FitPlannedProduct m (length table) 0 1 xs.old ys.old → HasInverse m n → Did result (IsPlannedProduct m 0 1 table
        (λ g z e. cyclic_product m n (words_of xs.old) (words_of ys.old) e) ys.old xs.new ys.new) }
    ensures no_inverse { let m = plan.now.modulus in
        FitPlannedProduct m (length plan.now.table.now) 0 1 xs.old ys.old → (HasInverse m (length xs.old) → ⊥)
        → BothRefused NM_NO_INVERSE result xs.old xs.new ys.old ys.new }
    ensures bad_argument { (FitPlannedProduct plan.now.modulus (length plan.now.table.now) 0 1 xs.old ys.old → ⊥)
        → BothRefused NM_BAD_ARGUMENT result xs.old xs.new ys.old ys.new }
{
    if !is_pair(plan.modulus, xs, ys, plan.table.len(), 0, 1) {
        return NM_BAD_ARGUMENT;
    }
    product_code(plan.modulus, xs, ys, plan.table, 0, 1)
}

/// Replaces the first of two lists of n words by their product modulo X^n + 1, and the second by the result of
/// `nm_plan_split` for b = 1 and last = 2. Condition: that of `nm_plan_transform`. The other codes are those of
/// `nm_convolve_negacyclic` for last = 2.
#[unsafe(no_mangle)]
pub extern "C" fn nm_plan_convolve_negacyclic(plan: &NmPlan, xs: &mut [u64], ys: &mut [u64]) -> u32
    requires { AreFactors plan.now.modulus plan.now.table.now }
    ensures did { let m = plan.now.modulus in let table = plan.now.table.now in let n = length xs.old in
        FitPlannedProduct m (length table) 1 2 xs.old ys.old → HasInverse m (n / 2)
        → Did result (IsPlannedProduct m 1 2 table
        (λ g z e. product_modulo m n (m - 1) (words_of xs.old) (words_of ys.old) e) ys.old xs.new ys.new) }
    ensures no_inverse { let m = plan.now.modulus in
        FitPlannedProduct m (length plan.now.table.now) 1 2 xs.old ys.old → (HasInverse m (length xs.old / 2) → ⊥)
        → BothRefused NM_NO_INVERSE result xs.old xs.new ys.old ys.new }
    ensures bad_argument { (FitPlannedProduct plan.now.modulus (length plan.now.table.now) 1 2 xs.old ys.old → ⊥)
        → BothRefused NM_BAD_ARGUMENT result xs.old xs.new ys.old ys.new }
{
    if !is_pair(plan.modulus, xs, ys, plan.table.len(), 1, 2) {
        return NM_BAD_ARGUMENT;
    }
    product_code(plan.modulus, xs, ys, plan.table, 1, 2)
}
