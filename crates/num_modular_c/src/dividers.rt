//! Division by an invariant divisor, by its reciprocal.

ghost use Rattle.std.specs.Prelude.{◌≡◌, ◌+◌, ◌*◌, ◌^◌, ◌<◌, ◌≤◌, ◌↔◌, IsTrue};
ghost use Rattle.std.specs.Int.Count.{count_leading_zeros};
ghost use Rattle.modular_word.specs.Division.{IsDivision};
ghost use Rattle.modular_word.specs.Reciprocals.{IsReciprocal};
ghost use Rattle.num_modular_c.specs.Codes.{Did, Refused};
ghost use Rattle.num_modular_c.specs.Contexts.{IsDivider};

use crate::codes::{NM_BAD_ARGUMENT, NM_BAD_CONTEXT, NM_OK};
use modular_word::path_word::PathWord;
use modular_word::paths::div_2by1;
use num_modular::Normalized2by1Divisor;
use num_modular::word::w64::merge;

/// A divisor and its reciprocal, as `nm_divider` computes it.
#[repr(C)]
#[derive(Clone, Copy)]
// rust: #[must_use]
pub struct NmDivider {
    /// The divisor.
    pub divisor: u64,
    /// The reciprocal of the divisor shifted left until its top bit is set.
    pub reciprocal: u64,
}

/// A quotient and a remainder.
#[repr(C)]
#[derive(Clone, Copy)]
// rust: #[must_use]
pub struct NmDivision {
    /// The quotient, rounded down.
    pub quotient: u64,
    /// The remainder.
    pub remainder: u64,
}

// Whether v is the reciprocal of d.
fn is_reciprocal(d: u64, v: u64) -> bool
    ensures { IsTrue result ↔ IsReciprocal (2 ^ 64) d v }
{
    if d < 0x8000_0000_0000_0000 {
        return false;
    }
    let gap = merge(0, d.wrapping_neg());
    let product = v as u128 * d as u128;
    product < gap && gap <= product + d as u128
}

// A number shifted left until its top bit is set.
fn to_the_top(d: u64) -> u64
    requires { 1 ≤ d }
    ensures value { result ≡ d * 2 ^ count_leading_zeros 64 d }
    ensures top { 2 ^ 64 ≤ 2 * result }
{
    d.shift_left(d.leading_zeros())
}

// Quotient and remainder of a double word, whose high word is below the divisor.
fn divided(divider: &NmDivider, low: u64, high: u64) -> NmDivision
    requires divider { IsDivider divider.now }
    requires high { high < divider.now.divisor }
    ensures { IsDivision (low + 2 ^ 64 * high) divider.now.divisor result.quotient result.remainder }
{
    let shift = divider.divisor.leading_zeros();
    let dividend = merge(low, high) << shift;
    let (quotient, remainder) = div_2by1(to_the_top(divider.divisor), divider.reciprocal, dividend);
    NmDivision {
        quotient,
        remainder: remainder >> shift,
    }
}

// Whether the reciprocal is that of the divisor.
fn is_divider(divider: &NmDivider) -> bool
    ensures { IsTrue result ↔ IsDivider divider.now }
{
    divider.divisor != 0 && is_reciprocal(to_the_top(divider.divisor), divider.reciprocal)
}

/// Writes the divider by d. `NM_BAD_ARGUMENT`: d is 0.
#[unsafe(no_mangle)]
pub extern "C" fn nm_divider(d: u64, divider: &mut NmDivider) -> u32
    ensures did { 1 ≤ d → Did result ((divider.new.divisor ≡ d) × IsDivider divider.new) }
    ensures bad_argument { d ≡ 0 → Refused NM_BAD_ARGUMENT result divider.old divider.new }
{
    if d == 0 {
        return NM_BAD_ARGUMENT;
    }
    *divider = NmDivider {
        divisor: d,
        // rust instead: reciprocal: Normalized2by1Divisor::<u64>::invert_word(to_the_top(d)),
        reciprocal: Normalized2by1Divisor::invert_word(to_the_top(d)),
    };
    NM_OK
}

/// Writes quotient and remainder of the dividend. `NM_BAD_CONTEXT`: the divider isn't one that `nm_divider` makes.
#[unsafe(no_mangle)]
pub extern "C" fn nm_div_rem(divider: &NmDivider, dividend: u64, division: &mut NmDivision) -> u32
    ensures did { IsDivider divider.now
        → Did result (IsDivision dividend divider.now.divisor division.new.quotient division.new.remainder) }
    ensures bad_context { (IsDivider divider.now → ⊥) → Refused NM_BAD_CONTEXT result division.old division.new }
{
    if !is_divider(divider) {
        return NM_BAD_CONTEXT;
    }
    *division = divided(divider, dividend, 0);
    NM_OK
}

/// Writes quotient and remainder of the double word low + 2^64·high. `NM_BAD_CONTEXT`: the divider isn't one that
/// `nm_divider` makes. `NM_BAD_ARGUMENT`: high isn't below the divisor, so that the quotient doesn't fit a word.
#[unsafe(no_mangle)]
pub extern "C" fn nm_div_rem_2by1(
    divider: &NmDivider,
    low: u64,
    high: u64,
    division: &mut NmDivision,
) -> u32
    ensures did { IsDivider divider.now → high < divider.now.divisor → Did result
        (IsDivision (low + 2 ^ 64 * high) divider.now.divisor division.new.quotient division.new.remainder) }
    ensures bad_argument { IsDivider divider.now → divider.now.divisor ≤ high
        → Refused NM_BAD_ARGUMENT result division.old division.new }
    ensures bad_context { (IsDivider divider.now → ⊥) → Refused NM_BAD_CONTEXT result division.old division.new }
{
    if !is_divider(divider) {
        return NM_BAD_CONTEXT;
    }
    if high >= divider.divisor {
        return NM_BAD_ARGUMENT;
    }
    *division = divided(divider, low, high);
    NM_OK
}
