//! Tests of tables that are filled already.

ghost use Rattle.std.specs.Prelude.{◌≡◌, ℕ, ◌-◌, ◌*◌, ◌%◌, ◌^◌, ◌<◌, ◌≤◌, ◌↔◌, IsTrue, length};
ghost use Rattle.modular_plan_passes.specs.Factors.{IsFactorOf, AllFactors};
ghost use Rattle.modular_plan_passes.specs.Plans.{numbers};
ghost use Rattle.modular_plan_transforms.specs.Tables.{IsTable};
ghost use Rattle.modular_transform.specs.Orders.{bits_reversed};
ghost use Rattle.modular_transform.specs.Transforms.{Suits};

use modular_plan_passes::factor::{Factor, PlanEntry};
use modular_plan_passes::modulus::PlannedModulus;
use modular_prim::plain_word::PlainWord;
use modular_transform::order::next_reversed;
use modular_word::path_word::PathWord;
// rattle: line
use modular_word::ring_word::RingWord;

// Whether a factor is below m and has its quotient q, tested without a division: with the number r that makes q·m + r
// a multiple of the base, the multiple is by the factor, and r is below m.
fn is_factor<T: PathWord>(m: T, w: &Factor<T>) -> bool
    ensures { IsTrue result ↔ IsFactorOf T.base T.number (T.number m) w.now }
{
    let whole = w.quotient.product(m);
    let (low, _) = T::split(whole);
    let rest = T::zero().wrapping_sub(low);
    let (_, high) = T::split(T::double_plus(whole, T::merge(rest, T::zero())));
    if !w.value.is_below(m) {
        return false;
    }
    if !rest.is_below(m) {
        return false;
    }
    high == w.value
}

/// Whether each entry is a factor below m with its quotient.
pub fn are_factors<T: PathWord, F: PlanEntry<T>>(m: T, table: &[F]) -> bool
    ensures { IsTrue result ↔ AllFactors T.base (T.number m) F.value F.quotient table.now }
{
    'entries: for place in 0..table.len() {
        let factor = table[place].factor();
        if !is_factor(m, &factor) {
            return false;
        }
    }
    true
}

// Whether the entries are the powers of g in bit-reversed order.
fn are_powers<T: PlainWord, F: PlanEntry<T>>(
    m: &PlannedModulus<T>,
    g: T,
    table: &[F],
    bits: u32,
) -> bool
    requires below { T.number g < T.number m.now.modulus }
    requires few { bits ≤ 63 }
    requires whole { length table.now ≡ 2 ^ bits }
    ensures { IsTrue result ↔ ((k : ℕ) → k < length table.now
        → numbers F.value table.now k ≡ T.number g ^ bits_reversed bits k % T.number m.now.modulus) }
{
    let root = m.factor(g);
    let mut power = m.residue(T::one());
    let mut place = 0;
    'powers: for exponent in 0..table.len() {
        place = next_reversed(place, exponent, bits);
        if table[place].factor().value != power {
            return false;
        }
        power = m.product(power, &root);
    }
    true
}

/// Whether the table is that of g ([`fill_table`]).
///
/// # Preconditions
///
/// - g is below m
/// - g suits n entries, n being twice the length of the table
pub fn is_table<T: PlainWord, F: PlanEntry<T>>(m: &PlannedModulus<T>, g: T, table: &[F]) -> bool
    requires below { T.number g < T.number m.now.modulus }
    requires suits { Suits (T.number m.now.modulus) (T.number g) (2 * length table.now) }
    ensures { IsTrue result ↔ IsTable T.base (T.number m.now.modulus) (T.number g) F.value F.quotient table.now }
{
    let bits = table.len().trailing_zeros();
    let powers = are_powers(m, g, table, bits);
    powers && are_factors(m.modulus, table)
}
