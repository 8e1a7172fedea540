//! Reciprocals as const functions, for divisors that are known at compile time.
//!
//! Only the Cargo crate calls these eight, in `rust/additions.rs`, where `new` is a const function.

ghost use Rattle.std.specs.Prelude.{◌*◌, ◌^◌, ◌<◌, ◌≤◌};
ghost use Rattle.modular_word.specs.Reciprocals.{IsMultiplier, IsReciprocal};

// `invert_word` in words of 8 bits.
#[tactic(auto, using(modular_prim::proofs::ReciprocalOf::reciprocal_of, std::proofs::lemmas::Nat::and_mask))]
pub(crate) const fn reciprocal_8(d: u8) -> u8
    requires { 2 ^ 8 ≤ 2 * d }
    ensures { IsReciprocal (2 ^ 8) d result }
{
    ((0xffff / d as u16) & 0xff) as u8
}

// `invert_word` in words of 16 bits.
#[tactic(auto, using(modular_prim::proofs::ReciprocalOf::reciprocal_of, std::proofs::lemmas::Nat::and_mask))]
pub(crate) const fn reciprocal_16(d: u16) -> u16
    requires { 2 ^ 16 ≤ 2 * d }
    ensures { IsReciprocal (2 ^ 16) d result }
{
    ((0xffff_ffff / d as u32) & 0xffff) as u16
}

// `invert_word` in words of 32 bits.
#[tactic(auto, using(modular_prim::proofs::ReciprocalOf::reciprocal_of, std::proofs::lemmas::Nat::and_mask))]
pub(crate) const fn reciprocal_32(d: u32) -> u32
    requires { 2 ^ 32 ≤ 2 * d }
    ensures { IsReciprocal (2 ^ 32) d result }
{
    ((0xffff_ffff_ffff_ffff / d as u64) & 0xffff_ffff) as u32
}

// `invert_word` in words of 64 bits. Its dividend is less the divisor times the base, so that one instruction
// divides it.
#[tactic(auto, using(modular_prim::proofs::ReciprocalOf::reciprocal_of_less, std::proofs::lemmas::Nat::and_mask))]
pub(crate) const fn reciprocal_64(d: u64) -> u64
    requires { 2 ^ 64 ≤ 2 * d }
    ensures { IsReciprocal (2 ^ 64) d result }
{
    let high = 0xffff_ffff_ffff_ffff - d;
    let less = high as u128 * 0x1_0000_0000_0000_0000 + 0xffff_ffff_ffff_ffff;
    ((less / d as u128) & 0xffff_ffff_ffff_ffff) as u64
}

// What `PreMulInv1by1::new` stores for a divisor of 8 bits.
#[tactic(auto, using(crate::proofs::Multiplier::multiplier_computed))]
pub(crate) const fn multiplier_8(d: u8) -> (u8, u32)
    requires { 1 < d }
    ensures { IsMultiplier 8 (2 ^ 8) d result.0 result.1 }
{
    let n = 8 - (d - 1).leading_zeros();
    let gap = (1u16 << n) - d as u16;
    let quotient = ((gap * 0x100 / d as u16) & 0xff) as u8;
    (quotient + 1, n - 1)
}

// What `PreMulInv1by1::new` stores for a divisor of 16 bits.
#[tactic(auto, using(crate::proofs::Multiplier::multiplier_computed))]
pub(crate) const fn multiplier_16(d: u16) -> (u16, u32)
    requires { 1 < d }
    ensures { IsMultiplier 16 (2 ^ 16) d result.0 result.1 }
{
    let n = 16 - (d - 1).leading_zeros();
    let gap = (1u32 << n) - d as u32;
    let quotient = ((gap * 0x1_0000 / d as u32) & 0xffff) as u16;
    (quotient + 1, n - 1)
}

// What `PreMulInv1by1::new` stores for a divisor of 32 bits.
#[tactic(auto, using(crate::proofs::Multiplier::multiplier_computed))]
pub(crate) const fn multiplier_32(d: u32) -> (u32, u32)
    requires { 1 < d }
    ensures { IsMultiplier 32 (2 ^ 32) d result.0 result.1 }
{
    let n = 32 - (d - 1).leading_zeros();
    let gap = (1u64 << n) - d as u64;
    let quotient = ((gap * 0x1_0000_0000 / d as u64) & 0xffff_ffff) as u32;
    (quotient + 1, n - 1)
}

// What `PreMulInv1by1::new` stores for a divisor of 64 bits.
#[tactic(auto, using(crate::proofs::Multiplier::multiplier_computed))]
pub(crate) const fn multiplier_64(d: u64) -> (u64, u32)
    requires { 1 < d }
    ensures { IsMultiplier 64 (2 ^ 64) d result.0 result.1 }
{
    let n = 64 - (d - 1).leading_zeros();
    let gap = (1u128 << n) - d as u128;
    let quotient = ((gap * 0x1_0000_0000_0000_0000 / d as u128) & 0xffff_ffff_ffff_ffff) as u64;
    (quotient + 1, n - 1)
}
