//! The square of a list by a plan.

ghost use Rattle.std.specs.Prelude.{◌≡◌, ℕ, ◌*◌, ◌%◌, ◌<◌, length, slice_index};
ghost use Rattle.num_modular.specs.Inverses.{HasInverse};
ghost use Rattle.num_modular_c.specs.Codes.{Did, Refused};
ghost use Rattle.num_modular_c.specs.Plans.{AreBelow, AreFactors, FitPlannedProduct, IsPlannedSquare};

use crate::codes::{NM_BAD_ARGUMENT, NM_NO_INVERSE, NM_OK};
use crate::plan_value::NmPlan;
use crate::planned::is_pair;
use modular_plan_passes::modulus::PlannedModulus;
use modular_plan_transforms::join::join_scaled;
use modular_plan_transforms::split::split;
use modular_plan_transforms::tables::inverse_of_count;

// Replaces each word by its square. Condition: the words are below m.
fn square_each(m: &PlannedModulus<u64>, xs: &mut [u64])
    requires { AreBelow m.now.modulus xs.old }
    ensures below { AreBelow m.now.modulus xs.new }
    ensures squares { (i : ℕ) → i < length xs.old →
        slice_index xs.new i ≡ (slice_index xs.old i * slice_index xs.old i) % m.now.modulus }
{
    'words: for i in 0..xs.len() {
        xs[i] = m.multiply(xs[i], xs[i]);
    }
}

/// Replaces the n words by their cyclic product with themselves: entry e is the sum of x_i·x_j modulo m over i + j = e or
/// e + n. Condition: that of `nm_plan_transform`. The codes are those of `nm_plan_convolve` for xs and a copy of it.
#[unsafe(no_mangle)]
pub extern "C" fn nm_plan_square(plan: &NmPlan, xs: &mut [u64]) -> u32
    requires { AreFactors plan.now.modulus plan.now.table.now }
    ensures did { let m = plan.now.modulus in let table = plan.now.table.now in
        FitPlannedProduct m (length table) 0 1 xs.old xs.old → HasInverse m (length xs.old)
        → Did result (IsPlannedSquare m table xs.old xs.new) }
    ensures no_inverse { let m = plan.now.modulus in
        FitPlannedProduct m (length plan.now.table.now) 0 1 xs.old xs.old → (HasInverse m (length xs.old) → ⊥)
        → Refused NM_NO_INVERSE result xs.old xs.new }
    ensures bad_argument { (FitPlannedProduct plan.now.modulus (length plan.now.table.now) 0 1 xs.old xs.old → ⊥)
        → Refused NM_BAD_ARGUMENT result xs.old xs.new }
{
    if !is_pair(plan.modulus, xs, xs, plan.table.len(), 0, 1) {
        return NM_BAD_ARGUMENT;
    }
    let m = PlannedModulus::<u64>::new(plan.modulus);
    let Some(part) = inverse_of_count(&m, xs.len()) else {
        return NM_NO_INVERSE;
    };
    split(&m, xs, plan.table, 0, 1);
    square_each(&m, xs);
    join_scaled(&m, xs, plan.table, 0, 1, &part);
    NM_OK
}
