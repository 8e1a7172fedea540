//! Callers of transforms by a plan.

ghost use Rattle.std.specs.Prelude.{◌≡◌, ◌*◌, ◌/◌, ◌<◌, ◌≤◌, IsTrue, All, length};
ghost use Rattle.std.specs.Int.{IsPowerOfTwo};
ghost use Rattle.modular_plan_passes.specs.Factors.{AllFactors};

use modular_plan_passes::factor::{Factor, PlanEntry};
use modular_plan_passes::modulus::PlannedModulus;
use modular_plan_transforms::plan::Plan;
use modular_plan_transforms::split::ntt_planned;
use modular_prim::plain_word::PlainWord;
use modular_word::path_word::PathWord;

/// True only if each entry is below 4m. A loop, since a closure takes longer to prove.
pub fn all_in_room<T: PlainWord>(m: &PlannedModulus<T>, xs: &[T]) -> bool
    ensures { IsTrue result → All (λ x. T.number x < 4 * T.number m.now.modulus) xs.now }
{
    // rust instead: 'entries: for i in 0..xs.len() {
    'entries: for i in 0..xs.len() {
        if !m.has_room(xs[i]) {
            return false;
        }
    }
    true
}

/// Calls a transform by a plan where the plan is for as many entries, and these are below 4m. It promises nothing of the
/// list.
pub fn transform_where_it_fits<T: PlainWord, F: PlanEntry<T>>(plan: &Plan<T, F>, xs: &mut [T]) {
    if plan.fits(xs.len()) && all_in_room(&plan.modulus(), xs) {
        plan.transform(xs);
    }
}

/// The transforms of two lists of equal length, each by the table of its own modulus.
pub fn modulo_each<T: PlainWord>(
    m: &PlannedModulus<T>,
    table: &[Factor<T>],
    xs: &mut [T],
    n: &PlannedModulus<T>,
    other: &[Factor<T>],
    ys: &mut [T],
)
    requires entries { All (λ x. T.number x < 4 * T.number m.now.modulus) xs.old }
    requires factors { AllFactors T.base (T.number m.now.modulus)
        (λ f. T.number f.value) (λ f. T.number f.quotient) table.now }
    requires other_entries { All (λ y. T.number y < 4 * T.number n.now.modulus) ys.old }
    requires other_factors { AllFactors T.base (T.number n.now.modulus)
        (λ f. T.number f.value) (λ f. T.number f.quotient) other.now }
    requires equal { length ys.old ≡ length xs.old }
    requires count { IsPowerOfTwo (length xs.old) }
    requires within { length xs.old / 2 ≤ length table.now }
    requires other_within { length xs.old / 2 ≤ length other.now }
    ensures below { All (λ x. T.number x < T.number m.now.modulus) xs.new }
    ensures other_below { All (λ y. T.number y < T.number n.now.modulus) ys.new }
{
    ntt_planned(m, xs, table);
    ntt_planned(n, ys, other);
}
