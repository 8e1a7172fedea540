//! Division by an invariant divisor.

ghost use Rattle.modular_bench.specs.Steps.{mixed_division, mixed_division_of_two, quotient_or_product};
ghost use Rattle.std.specs.Fn.{iterate};
ghost use Rattle.std.specs.Prelude.{◌≡◌, ◌^◌, ◌%◌, ◌<◌, ◌≤◌, bit_xor};

use num_modular::word::w64::merge;
use num_modular::{DivExact, Normalized2by1Divisor, PreModInv, PreMulInv1by1};

/// A step: x becomes y ^ q ^ r, q and r being the quotient and the remainder of x by m. Condition: m
/// is above 1.
#[unsafe(no_mangle)]
pub extern "C" fn bench_premulinv1by1_div_rem(x: u64, y: u64, m: u64, n: u64) -> u64
    requires { 1 < m }
    ensures { result ≡ iterate (mixed_division y m) n x }
{
    let divider = PreMulInv1by1::new(m);
    let mut x = x;
    'steps: for _ in 0..n {
        let (q, r) = divider.div_rem(x, m);
        x = y ^ q ^ r;
    }
    x
}

/// A step: of the quotient and the remainder of low + 2^64·high by m, low becomes the quotient ^ y, and high the
/// remainder. Returns low ^ high. Condition: the top bit of m is set.
#[unsafe(no_mangle)]
pub extern "C" fn bench_normalized_div_rem_2by1(x: u64, y: u64, m: u64, n: u64) -> u64
    requires { 2 ^ 63 ≤ m }
    ensures { let end = iterate (mixed_division_of_two y m) n (x, y % m) in result ≡ bit_xor end.0 end.1 }
{
    let divider = Normalized2by1Divisor::new(m);
    let mut low = x;
    let mut high = y % m;
    'steps: for _ in 0..n {
        let (q, r) = divider.div_rem_2by1(merge(low, high));
        low = q ^ y;
        high = r;
    }
    low ^ high
}

/// A step: x becomes its quotient by m, or, where m doesn't divide it, the product of x and y modulo 2^64.
/// Condition: m is odd.
#[unsafe(no_mangle)]
pub extern "C" fn bench_preinv_div_exact(x: u64, y: u64, m: u64, n: u64) -> u64
    requires { m % 2 ≡ 1 }
    ensures { result ≡ iterate (quotient_or_product y m) n x }
{
    let inverse = PreModInv::from(m);
    let mut x = x;
    'steps: for _ in 0..n {
        x = match x.div_exact(m, &inverse) {
            Some(quotient) => quotient,
            None => y.wrapping_mul(x),
        };
    }
    x
}
