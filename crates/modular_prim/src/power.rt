//! Powers modulo m.

ghost use Rattle.std.specs.Prelude.{◌≡◌, ℕ, ◌*◌, ◌/◌, ◌%◌, ◌^◌, ◌<◌, ◌≤◌};
ghost use Rattle.modular_word.specs.Reciprocals.{IsReciprocal};

use crate::plain_word::PlainWord;
use crate::reciprocal::invert_word;
use crate::residues::{mulm, reduced, sqm};
use modular_word::path_word::PathWord;
use modular_word::paths::{div_2by1, neginv, redc, two};
// rust: #[cfg_attr(debug_assertions, track_caller)]
// rattle: line
use modular_word::ring_word::RingWord;

/// The residue of the power of `base` to `exp`, below m; that of 1 for the exponent 0.
///
/// The exponents 0, 1 and 2 take one division at most, and 3 takes two in words of at most 16 bits or where the square
/// of m fits a word. Otherwise no step of the loop divides a double word of more than 16 bits: products are reduced by
/// Montgomery's reduction for an odd m, by the reciprocal of m for an even one.
///
/// # Conditions
///
/// - m is at least 1
#[tactic(auto, using(crate::proofs::PowerSteps::power_one, crate::proofs::PowerSteps::power_two, crate::proofs::PowerSteps::power_of_residue_congruent))]
pub fn powm<T: PlainWord>(base: T, exp: T, m: T) -> T
    requires { 1 ≤ T.number m }
    ensures { T.number result ≡ T.number base ^ T.number exp % T.number m }
{
    let one = T::one();
    if two::<T>().is_below(exp) {
        if exp.minus(one) == two::<T>() && divides_fast(m) {
            cube(base, m)
        } else {
            power_below(reduced(base, m), exp, m)
        }
    } else if exp.is_zero_word() {
        reduced(one, m)
    } else if exp.is_odd() {
        reduced(base, m)
    } else {
        sqm(base, m)
    }
}

// Whether dividing two products by m takes less time than what the other methods compute first: in words of at most 16
// bits, and where the products of residues fit a word.
fn divides_fast<T: PathWord>(m: T) -> bool {
    T::bits() <= 16 || m.shift_right(T::bits() / 2).is_zero_word()
}

// The residue of the third power, by a division for each product. Condition: m is at least 1.
// rust: #[cfg_attr(debug_assertions, track_caller)]
#[tactic(auto, using(crate::proofs::PowerSteps::power_three))]
fn cube<T: PlainWord>(base: T, m: T) -> T
    requires { 1 ≤ T.number m }
    ensures { T.number result ≡ T.number base ^ 3 % T.number m }
{
    mulm(sqm(base, m), base, m)
}

// The residue of the power of a base below m, by the method for the width and the parity of m.
fn power_below<T: PlainWord>(base: T, exp: T, m: T) -> T
    requires { T.number base < T.number m }
    ensures { T.number result ≡ T.number base ^ T.number exp % T.number m }
{
    if T::bits() <= 8 {
        power_by_division(base, exp, m)
    } else if m.is_odd() {
        power_by_reduction(base, exp, m)
    } else {
        power_by_reciprocal(base, exp, m)
    }
}

// The residue of the power of a base below m, by binary digits and divisions: a double word of 16 bits is divided
// as fast as by Montgomery's reduction or a reciprocal.
fn power_by_division<T: PlainWord>(base: T, exp: T, m: T) -> T
    requires { T.number base < T.number m }
    ensures { T.number result ≡ T.number base ^ T.number exp % T.number m }
{
    let mut power = base;
    let mut product = if exp.is_odd() {
        base
    } else {
        reduced(T::one(), m)
    };
    let mut rest = exp.half();
    'digits: while !rest.is_zero_word() {
        power = sqm(power, m);
        if rest.is_odd() {
            product = mulm(power, product, m);
        }
        rest = rest.half();
    }
    product
}

// The residue of the power of a base below an odd m, by binary digits. `power` is in Montgomery form and `product`
// isn't, so that the reduction of their product is the next `product`, with no conversion.
//
// Source: Handbook of Applied Cryptography, section 14.3.2.
fn power_by_reduction<T: PlainWord>(base: T, exp: T, m: T) -> T
    requires odd { T.number m % 2 ≡ 1 }
    requires below { T.number base < T.number m }
    ensures { T.number result ≡ T.number base ^ T.number exp % T.number m }
{
    let negated_inverse = neginv(m);
    let mut power = T::narrow_remainder(T::merge(T::zero(), base), m);
    let mut product = if exp.is_odd() {
        base
    } else {
        reduced(T::one(), m)
    };
    let mut rest = exp.half();
    'digits: while !rest.is_zero_word() {
        power = redc(m, negated_inverse, power.product(power));
        if rest.is_odd() {
            product = redc(m, negated_inverse, power.product(product));
        }
        rest = rest.half();
    }
    product
}

// The residue of the power of a base below m, by binary digits. All residues are shifted left like m, whose top bit
// is then set, so that one reciprocal serves each step.
fn power_by_reciprocal<T: PlainWord>(base: T, exp: T, m: T) -> T
    requires { T.number base < T.number m }
    ensures { T.number result ≡ T.number base ^ T.number exp % T.number m }
{
    let shift = m.leading_zeros();
    let divisor = m.shift_left(shift);
    let reciprocal = invert_word(divisor);
    let mut power = base.shift_left(shift);
    let mut product = if exp.is_odd() {
        power
    } else {
        reduced(T::one(), m).shift_left(shift)
    };
    let mut rest = exp.half();
    'digits: while !rest.is_zero_word() {
        power = scaled_product(divisor, reciprocal, shift, power, power);
        if rest.is_odd() {
            product = scaled_product(divisor, reciprocal, shift, power, product);
        }
        rest = rest.half();
    }
    product.shift_right(shift)
}

// The shifted residue of the product of two shifted residues.
fn scaled_product<T: PathWord>(divisor: T, reciprocal: T, shift: u32, a: T, b: T) -> T
    requires reciprocal { IsReciprocal T.base (T.number divisor) (T.number reciprocal) }
    requires shift { shift < T.width }
    requires below { T.number b < T.number divisor }
    ensures { T.number result ≡ (T.number a / 2 ^ shift * T.number b) % T.number divisor }
{
    div_2by1(divisor, reciprocal, a.shift_right(shift).product(b)).1
}

// The residue of the power; 0 for m = 0.
fn power_or_zero<T: PlainWord>(base: T, exp: T, m: T) -> T
    ensures power { 1 ≤ T.number m → T.number result ≡ T.number base ^ T.number exp % T.number m }
    ensures zero { T.number m ≡ 0 → T.number result ≡ 0 }
{
    if m.is_zero_word() {
        T::zero()
    } else {
        powm(base, exp, m)
    }
}

/// base^exp modulo m: `powm` of words of 32 bits, below m, and 0 for m = 0.
///
/// # Examples
///
/// ```
/// use num_modular::prim::powm_u32;
///
/// assert_eq!(powm_u32(2, 10, 1000), 24); // 1024 modulo 1000
/// assert_eq!(powm_u32(2, 10, 0), 0);
/// ```
pub fn powm_u32(base: u32, exp: u32, m: u32) -> u32
    ensures power { 1 ≤ m → result ≡ base ^ exp % m }
    ensures zero { m ≡ 0 → result ≡ 0 }
{
    power_or_zero(base, exp, m)
}

/// base^exp modulo m: `powm` of words of 64 bits, below m, and 0 for m = 0.
///
/// # Examples
///
/// ```
/// use num_modular::prim::powm_u64;
///
/// assert_eq!(powm_u64(3, 100, 101), 1); // Fermat's little theorem
/// assert_eq!(powm_u64(3, 100, 0), 0);
/// ```
pub fn powm_u64(base: u64, exp: u64, m: u64) -> u64
    ensures power { 1 ≤ m → result ≡ base ^ exp % m }
    ensures zero { m ≡ 0 → result ≡ 0 }
{
    power_or_zero(base, exp, m)
}
