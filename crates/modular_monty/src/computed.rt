//! What is precomputed of an odd modulus, as const functions for moduli that are known at compile time.
//!
//! They also accept even moduli, because a constant needs a value for each parameter. They take the words' width as an
//! argument, since const functions can't call a trait's methods.

ghost use Rattle.std.specs.Prelude.{◌≡◌, ℕ, ◌*◌, ◌%◌, ◌^◌, ◌<◌, ◌≤◌};
ghost use Rattle.modular_word.specs.Reduction.{IsNegatedInverse};
ghost use Rattle.modular_monty.specs.Montgomery.{IsOddRing};

// `neginv` of words of `width` bits, for odd m, in the low bits of the result; the higher bits are unspecified.
const fn negated_inverse(m: u64, width: u32) -> u64
    requires from { 8 ≤ width }
    requires to { width ≤ 64 }
    ensures { m % 2 ≡ 1 → IsNegatedInverse (2 ^ width) m result }
{
    let mut inverse = m;
    let mut bits = 3u32;
    'lift: while bits < width {
        inverse = inverse.wrapping_mul(2u64.wrapping_sub(m.wrapping_mul(inverse)));
        bits += bits;
    }
    0u64.wrapping_sub(inverse)
}

// The low bits of a word.
const fn low_bits(x: u64, count: u32) -> u64
    requires { count ≤ 64 }
    ensures { result ≡ x % 2 ^ count }
{
    if count < 64 { x % (1 << count) } else { x }
}

// The square of the base 2^width modulo m. The square may not fit a double word, but the square less m does, and it is
// congruent to the square. Widths up to 32 bits need no division of 128 bits.
const fn square_of_base(m: u64, width: u32) -> u64
    requires some { 0 < m }
    requires fits { m < 2 ^ width }
    requires one_word { 32 < width → width ≡ 64 }
    ensures { result ≡ (2 ^ width * 2 ^ width) % m }
{
    if width == 64 {
        (0u128.wrapping_sub(m as u128) % m as u128) as u64
    } else {
        low_bits(0u64.wrapping_sub(m), 2 * width) % m
    }
}

// `computed_once` of `odd_ring` in words of `width` bits, for odd m. Conditions: the width is from 8 to 32 bits, or 64,
// and m fits it.
pub(crate) const fn computed_once(m: u64, width: u32) -> (u64, u64)
    requires from { 8 ≤ width }
    requires one_word { 32 < width → width ≡ 64 }
    requires fits { m < 2 ^ width }
    ensures ring { m % 2 ≡ 1 → IsOddRing width (2 ^ width) m result.0 result.1 }
    ensures inverse_fits { result.0 < 2 ^ width }
    ensures square_fits { result.1 < 2 ^ width }
{
    if m == 0 {
        return (0, 0);
    }
    let inverse = low_bits(negated_inverse(m, width), width);
    (inverse, square_of_base(m, width))
}
