//! Tables of twiddle factors for transforms, which the caller owns.

ghost use Rattle.std.specs.Prelude.{◌≡◌, ◌*◌, ◌%◌, ◌↔◌, length};
ghost use Rattle.num_modular.specs.Transforms.{Suits};
ghost use Rattle.num_modular_c.specs.Codes.{Did, Refused};
ghost use Rattle.num_modular_c.specs.Plans.{IsAdmitted, IsTable};

// rust instead: use crate::num_modular_c::codes::{NM_BAD_ARGUMENT, NM_BAD_CONTEXT, NM_OK};
use crate::codes::{NM_BAD_ARGUMENT, NM_BAD_CONTEXT, NM_NO_ROOT, NM_OK};
use crate::transforms::root_code;
use modular_plan_passes::factor::{Factor, PlanEntry};
use modular_plan_passes::modulus::PlannedModulus;
use modular_plan_passes::table::fill_table;
use modular_plan_transforms::filled::is_table;
use num_modular::Montgomery;

/// A factor below a modulus m with its quotient, as `nm_fill_table` computes them.
#[repr(C)]
#[derive(Clone, Copy)]
// rust: #[must_use]
pub struct NmFactor {
    /// The factor.
    pub value: u64,
    /// 2^64 times the factor, divided by m and rounded down.
    pub quotient: u64,
}

impl PlanEntry<u64> for NmFactor {
    ghost value = { λ f. f.value };

    ghost quotient = { λ f. f.quotient };

    fn factor(&self) -> Factor<u64> {
        Factor {
            value: self.value,
            quotient: self.quotient,
        }
    }

    fn entry(factor: Factor<u64>) -> NmFactor
        ensures value { result.value ≡ factor.value }
        ensures quotient { result.quotient ≡ factor.quotient }
    {
        NmFactor {
            value: factor.value,
            quotient: factor.quotient,
        }
    }
}

// The code that says whether the root has a table for transforms of n words.
fn plan_code(m: u64, root: u64, n: usize) -> u32
    ensures fits { (result ≡ NM_OK) ↔ (IsAdmitted m × Suits m (root % m) n) }
    ensures no_root { IsAdmitted m → (Suits m (root % m) n → ⊥) → result ≡ NM_NO_ROOT }
    ensures bad_argument { (IsAdmitted m → ⊥) → result ≡ NM_BAD_ARGUMENT }
{
    if !PlannedModulus::<u64>::admits(m) {
        return NM_BAD_ARGUMENT;
    }
    root_code(&Montgomery::<u64>::new(m), root, n)
}

/// Fills the table of the root for transforms of n words, n being twice its length.
/// `NM_BAD_ARGUMENT`: m is 0 or above 2^62. `NM_NO_ROOT`: the root doesn't suit n.
#[unsafe(no_mangle)]
pub extern "C" fn nm_fill_table(m: u64, root: u64, table: &mut [NmFactor]) -> u32
    ensures did { IsAdmitted m → Suits m (root % m) (2 * length table.old)
        → Did result (IsTable m (root % m) table.new) }
    ensures no_root { IsAdmitted m → (Suits m (root % m) (2 * length table.old) → ⊥)
        → Refused NM_NO_ROOT result table.old table.new }
    ensures bad_argument { (IsAdmitted m → ⊥) → Refused NM_BAD_ARGUMENT result table.old table.new }
{
    let code = plan_code(m, root, 2 * table.len());
    if code == NM_OK {
        fill_table(&PlannedModulus::<u64>::new(m), root % m, table);
    }
    code
}

/// Tests whether the table is the one that `nm_fill_table` makes for this modulus and this root. `NM_BAD_CONTEXT`: it
/// isn't. The other codes are those of `nm_fill_table`.
#[unsafe(no_mangle)]
pub extern "C" fn nm_table_fits(m: u64, root: u64, table: &[NmFactor]) -> u32
    ensures fits { IsAdmitted m → Suits m (root % m) (2 * length table.now) → IsTable m (root % m) table.now
        → result ≡ NM_OK }
    ensures bad_context { IsAdmitted m → Suits m (root % m) (2 * length table.now)
        → (IsTable m (root % m) table.now → ⊥) → result ≡ NM_BAD_CONTEXT }
    ensures no_root { IsAdmitted m → (Suits m (root % m) (2 * length table.now) → ⊥) → result ≡ NM_NO_ROOT }
    ensures bad_argument { (IsAdmitted m → ⊥) → result ≡ NM_BAD_ARGUMENT }
{
    let code = plan_code(m, root, 2 * table.len());
    if code != NM_OK {
        return code;
    }
    if is_table(&PlannedModulus::<u64>::new(m), root % m, table) {
        NM_OK
    } else {
        NM_BAD_CONTEXT
    }
}
