//! Remainders modulo any m of up to 64 bits, by a reciprocal that is computed once.

ghost use Rattle.std.specs.Prelude.{◌≡◌, ◌+◌, ◌*◌, ◌%◌, ◌^◌, ◌<◌, ◌≤◌};

use num_modular::{PreMulInv2by1, Reducer};

/// m, shifted until its top bit is set, with the reciprocal of that.
///
/// # Preconditions
///
/// - m is at least 1
pub(crate) fn reciprocal_of(m: u64) -> PreMulInv2by1<u64>
    requires { 1 ≤ m }
    ensures { ⟦<PreMulInv2by1<u64> as Reducer<u64>>⟧.modulus result ≡ m }
{
    Reducer::new(&m)
}

/// The remainder of a double word modulo m, by the reciprocal: shifted as m is, it has the remainder shifted.
///
/// Source: Möller and Granlund, "Improved division by invariant integers", section 1.
///
/// # Preconditions
///
/// - the double word is below m·2^64
#[tactic(auto, using(crate::proofs::Scaled::shifted_remainder, crate::proofs::Scaled::shifted_below_modulus))]
pub(crate) fn remainder(by: &PreMulInv2by1<u64>, t: u128) -> u64
    requires { t < ⟦<PreMulInv2by1<u64> as Reducer<u64>>⟧.modulus by.now * 2 ^ 64 }
    ensures value { result ≡ t % ⟦<PreMulInv2by1<u64> as Reducer<u64>>⟧.modulus by.now }
    ensures below { result < ⟦<PreMulInv2by1<u64> as Reducer<u64>>⟧.modulus by.now }
{
    let shift = by.shift();
    let (_, rest) = by.divider().div_rem_2by1(t << shift);
    rest >> shift
}

// The residue of a word; one that is below m is its own.
fn residue_of_word(by: &PreMulInv2by1<u64>, x: u64) -> u64
    ensures value { result ≡ x % ⟦<PreMulInv2by1<u64> as Reducer<u64>>⟧.modulus by.now }
    ensures below { result < ⟦<PreMulInv2by1<u64> as Reducer<u64>>⟧.modulus by.now }
{
    if x < by.modulus() {
        return x;
    }
    remainder(by, x as u128)
}

/// The remainder of any double word: the upper word is reduced first.
pub(crate) fn remainder_by_words(by: &PreMulInv2by1<u64>, t: u128) -> u64
    ensures value { result ≡ t % ⟦<PreMulInv2by1<u64> as Reducer<u64>>⟧.modulus by.now }
    ensures below { result < ⟦<PreMulInv2by1<u64> as Reducer<u64>>⟧.modulus by.now }
{
    let top = residue_of_word(by, (t / 18446744073709551616) as u64);
    remainder(
        by,
        top as u128 * 18446744073709551616 + t % 18446744073709551616,
    )
}

// The same; a double word below m is its own remainder.
fn remainder_of_double(by: &PreMulInv2by1<u64>, t: u128) -> u64
    ensures value { result ≡ t % ⟦<PreMulInv2by1<u64> as Reducer<u64>>⟧.modulus by.now }
    ensures below { result < ⟦<PreMulInv2by1<u64> as Reducer<u64>>⟧.modulus by.now }
{
    if t < by.modulus() as u128 {
        return t as u64;
    }
    remainder_by_words(by, t)
}

/// The remainder of low + high·2^64, from the top.
///
/// # Preconditions
///
/// - low is below 2^127, and high below 2^126
#[tactic(auto, using(crate::proofs::Coefficients::by_upper_words))]
pub(crate) fn remainder_of_sum(by: &PreMulInv2by1<u64>, low: u128, high: u128) -> u64
    requires low { low < 2 ^ 127 }
    requires high { high < 2 ^ 126 }
    ensures value { result ≡ (low + high * 18446744073709551616) % ⟦<PreMulInv2by1<u64> as Reducer<u64>>⟧.modulus by.now }
    ensures below { result < ⟦<PreMulInv2by1<u64> as Reducer<u64>>⟧.modulus by.now }
{
    let upper = remainder_of_double(by, high + low / 18446744073709551616);
    remainder(
        by,
        upper as u128 * 18446744073709551616 + low % 18446744073709551616,
    )
}
