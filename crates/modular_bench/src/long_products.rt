//! Products of numbers of 64-bit digits, by three plans of at most 2^20 factors on the stack.

ghost use Rattle.std.specs.Prelude.{◌≡◌, ◌*◌, ◌<◌, ◌≤◌, IsTrue};
ghost use Rattle.long_product.specs.Numbers.{number_of};

use long_product::{fill_plans, product, product_planned};
use num_modular::plans::Factor;

// Makes the plans, and then computes the product n times; false where a slice is too short. Not inlined, since a
// function pays at entry for the size of its locals.
#[inline(never)]
fn multiplied<const FACTORS: usize>(
    xs: &[u64],
    ys: &[u64],
    digits: &mut [u64],
    words: &mut [u64],
    n: u64,
) -> bool
    requires few { FACTORS ≤ 1048576 }
    ensures { IsTrue result → 0 < n → number_of digits.new ≡ number_of xs.now * number_of ys.now }
{
    let none = Factor {
        value: 0,
        quotient: 0,
    };
    let (mut first, mut second, mut third) = ([none; FACTORS], [none; FACTORS], [none; FACTORS]);
    let Some(plans) = fill_plans(&mut first, &mut second, &mut third) else {
        return false;
    };
    'turns: for _ in 0..n {
        if !product_planned(xs, ys, digits, words, &plans) {
            return false;
        }
    }
    true
}

/// Makes the plans on the stack, and then writes the product of xs and ys to `digits` n times. Returns false where
/// the length of `digits` isn't one of those in the body, or a slice is too short.
#[unsafe(no_mangle)]
pub extern "C" fn bench_long_product(
    xs: &[u64],
    ys: &[u64],
    digits: &mut [u64],
    words: &mut [u64],
    n: u64,
) -> bool
    ensures { IsTrue result → 0 < n → number_of digits.new ≡ number_of xs.now * number_of ys.now }
{
    match digits.len() {
        512..=1024 => multiplied::<512>(xs, ys, digits, words, n),
        2048 => multiplied::<1024>(xs, ys, digits, words, n),
        8192 => multiplied::<4096>(xs, ys, digits, words, n),
        32768 => multiplied::<16384>(xs, ys, digits, words, n),
        131072 => multiplied::<65536>(xs, ys, digits, words, n),
        524288 => multiplied::<262144>(xs, ys, digits, words, n),
        2097152 => multiplied::<1048576>(xs, ys, digits, words, n),
        _ => false,
    }
}

// Multiplies, with tables that begin as zeros. It isn't inlined, for the same reason.
#[inline(never)]
fn multiplied_once<const FACTORS: usize>(
    xs: &[u64],
    ys: &[u64],
    digits: &mut [u64],
    words: &mut [u64],
) -> bool
    requires few { FACTORS ≤ 1048576 }
    ensures { IsTrue result → number_of digits.new ≡ number_of xs.now * number_of ys.now }
{
    let none = Factor {
        value: 0,
        quotient: 0,
    };
    let mut factors = [none; FACTORS];
    product(xs, ys, digits, words, &mut factors)
}

/// Puts the digits of the product of xs and ys in `digits`, with the plans where it needs them; false where
/// there are other places than up to 2^10, or 2^11 to 2^14, or where the slices haven't the room. Up to 799
/// places one factor is short, so that no plan is needed.
#[unsafe(no_mangle)]
pub extern "C" fn bench_product(
    xs: &[u64],
    ys: &[u64],
    digits: &mut [u64],
    words: &mut [u64],
) -> bool
    ensures { IsTrue result → number_of digits.new ≡ number_of xs.now * number_of ys.now }
{
    match digits.len() {
        0..=799 => product::<Factor<u64>>(xs, ys, digits, words, &mut []),
        800..=1024 => multiplied_once::<1536>(xs, ys, digits, words),
        2048 => multiplied_once::<3072>(xs, ys, digits, words),
        4096 => multiplied_once::<6144>(xs, ys, digits, words),
        8192 => multiplied_once::<12288>(xs, ys, digits, words),
        16384 => multiplied_once::<24576>(xs, ys, digits, words),
        _ => false,
    }
}
