//! Transforms and cyclic products of a list of forms modulo 2^64 - 2^32 + 1. Each call returns whether it ran: the
//! entries must be checked forms, and the root whose residue is g must suit the length.

use num_modular::ring::{all_checked, convolve, ntt, root_fits};
use num_modular::{FixedTrinomialSolinas64, Montgomery, Reducer};

const MODULUS: u64 = 18446744069414584321;

fn transformed<R: Reducer<u64>>(r: &R, xs: &mut [u64], g: u64) -> bool {
    let root = r.transform(g);
    if !all_checked(r, xs) || !root_fits(r, &root, xs.len()) {
        return false;
    }
    ntt(r, xs, &root);
    true
}

fn multiplied<R: Reducer<u64>>(r: &R, xs: &mut [u64], ys: &mut [u64], g: u64) -> bool {
    let root = r.transform(g);
    if xs.len() != ys.len() || !all_checked(r, xs) || !all_checked(r, ys) {
        return false;
    }
    if !root_fits(r, &root, xs.len()) {
        return false;
    }
    convolve(r, xs, ys, &root)
}

/// The transform over `FixedTrinomialSolinas64`.
#[unsafe(no_mangle)]
pub extern "C" fn bench_solinas_ntt(xs: &mut [u64], g: u64) -> bool {
    transformed(
        &<FixedTrinomialSolinas64<64, 32, 1> as Reducer<u64>>::new(&MODULUS),
        xs,
        g,
    )
}

/// The transform over `Montgomery`.
#[unsafe(no_mangle)]
pub extern "C" fn bench_montgomery_ntt(xs: &mut [u64], g: u64) -> bool {
    transformed(&Montgomery::<u64>::new(MODULUS), xs, g)
}

/// The cyclic product over `FixedTrinomialSolinas64`.
#[unsafe(no_mangle)]
pub extern "C" fn bench_solinas_convolve(xs: &mut [u64], ys: &mut [u64], g: u64) -> bool {
    multiplied(
        &<FixedTrinomialSolinas64<64, 32, 1> as Reducer<u64>>::new(&MODULUS),
        xs,
        ys,
        g,
    )
}

/// The cyclic product over `Montgomery`.
#[unsafe(no_mangle)]
pub extern "C" fn bench_montgomery_convolve(xs: &mut [u64], ys: &mut [u64], g: u64) -> bool {
    multiplied(&Montgomery::<u64>::new(MODULUS), xs, ys, g)
}
