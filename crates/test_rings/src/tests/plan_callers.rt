//! Callers of transforms by a table, proved from their contracts alone; no test runs them.

ghost use Rattle.std.specs.Prelude.{◌≡◌, ℕ, ◌+◌, ◌*◌, ◌/◌, ◌%◌, ◌^◌, ◌<◌, ◌≤◌, All, length};
ghost use Rattle.modular_word.specs.Inverses.{IsInverse};
ghost use Rattle.modular_transform.specs.Orders.{bits_reversed};
ghost use Rattle.modular_transform.specs.Transforms.{Suits, transform};
ghost use Rattle.modular_plan_passes.specs.Factors.{IsFactorOf};
ghost use Rattle.modular_plan_passes.specs.Plans.{numbers};
ghost use Rattle.num_modular.specs.PlanConditions.{AreBlocks};

use modular_plan_passes::factor::{Factor, PlanEntry};
use modular_plan_passes::modulus::PlannedModulus;
use modular_plan_passes::table::fill_table;
use modular_plan_transforms::join::join_scaled;
use modular_plan_transforms::plan::Plan;
use modular_plan_transforms::split::{ntt_planned, split};
use modular_prim::plain_word::PlainWord;
use modular_word::path_word::PathWord;
use num_modular::laws::split_laws;

/// Block b, split by the table of g, and joined with the inverse `part` of the number of blocks: every entry has its
/// former residue.
pub fn split_and_joined<T: PlainWord>(
    m: &PlannedModulus<T>,
    g: T,
    table: &mut [Factor<T>],
    xs: &mut [T],
    block: (usize, usize),
    part: &Factor<T>,
)
    requires below { T.number g < T.number m.now.modulus }
    requires suits { Suits (T.number m.now.modulus) (T.number g) (2 * length table.old) }
    requires entries { All (λ x. T.number x < 4 * T.number m.now.modulus) xs.old }
    requires blocks { AreBlocks (length xs.old) (length table.old) block.0 block.1 }
    requires factor { IsFactorOf T.base T.number (T.number m.now.modulus) part.now }
    requires inverse { IsInverse (T.number m.now.modulus) (length xs.old / block.1) (T.number part.now.value) }
    ensures { (i : ℕ) → i < length xs.old
        → numbers T.number xs.new i ≡ numbers T.number xs.old i % T.number m.now.modulus }
{
    let (b, last) = block;
    fill_table(m, g, table);
    split(m, xs, table, b, last);
    join_scaled(m, xs, table, b, last, part);
}

/// The transform of n entries by the first half of the table of g for 2n entries, which is the table of g·g for n.
pub fn by_first_half<T: PlainWord>(
    m: &PlannedModulus<T>,
    g: T,
    table: &mut [Factor<T>],
    xs: &mut [T],
)
    requires below { T.number g < T.number m.now.modulus }
    requires suits { Suits (T.number m.now.modulus) (T.number g) (2 * length table.old) }
    requires entries { All (λ x. T.number x < 4 * T.number m.now.modulus) xs.old }
    requires half { length xs.old ≡ length table.old }
    ensures { let modulus = T.number m.now.modulus in (j : ℕ) → j < length xs.old
        → numbers T.number xs.new j
        ≡ transform modulus (T.number g ^ 2 % modulus) (length xs.old) (numbers T.number xs.old) j }
{
    fill_table(m, g, table);
    let half = table.len() / 2;
    ntt_planned(m, xs, &table[..half]);
}

/// The list split into single entries: the transform, with the bits of the indexes reversed.
pub fn in_reversed_order<'a, T: PlainWord, F: PlanEntry<T>>(plan: &Plan<'a, T, F>, xs: &mut [T])
    requires whole { length xs.old ≡ 2 ^ plan.now.bits }
    requires entries { All (λ x. T.number x < 4 * T.number plan.now.modulus.modulus) xs.old }
    ensures { (j : ℕ) → j < length xs.old → numbers T.number xs.new j
        ≡ transform (T.number plan.now.modulus.modulus) (T.number plan.now.root) (length xs.old)
        (numbers T.number xs.old) (bits_reversed plan.now.bits j) }
{
    split_laws();
    plan.split(xs, 0, 1);
}
