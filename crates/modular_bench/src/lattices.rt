//! The transforms and products of the rings of FIPS 204 and FIPS 203.

ghost use Rattle.std.specs.Prelude.{◌<◌, All};

use lattice_rings::{ml_dsa, ml_kem};

/// Makes the ring of ML-DSA, and then runs an operation n times: none for 0, `ntt` for 1, `inverse` for 2, `multiply`
/// for 3, `product` with a copy of ys for 4. Condition: the coefficients are residues; they are residues afterwards.
#[unsafe(no_mangle)]
pub extern "C" fn bench_ml_dsa(operation: u8, xs: &mut [u32; 256], ys: &[u32; 256], n: u64)
    requires xs { All (λ x. x < 8380417) xs.old }
    requires ys { All (λ x. x < 8380417) ys.now }
    ensures { All (λ x. x < 8380417) xs.new }
{
    let ring = ml_dsa::Ring::new();
    'turns: for _ in 0..n {
        match operation {
            0 => (),
            1 => ring.ntt(xs),
            2 => ring.inverse(xs),
            3 => ring.multiply(xs, ys),
            _ => {
                let mut others = *ys;
                ring.product(xs, &mut others);
            }
        }
    }
}

/// `bench_ml_dsa` with the ring of ML-KEM.
#[unsafe(no_mangle)]
pub extern "C" fn bench_ml_kem(operation: u8, xs: &mut [u32; 256], ys: &[u32; 256], n: u64)
    requires xs { All (λ x. x < 3329) xs.old }
    requires ys { All (λ x. x < 3329) ys.now }
    ensures { All (λ x. x < 3329) xs.new }
{
    let ring = ml_kem::Ring::new();
    'turns: for _ in 0..n {
        match operation {
            0 => (),
            1 => ring.ntt(xs),
            2 => ring.inverse(xs),
            3 => ring.multiply(xs, ys),
            _ => {
                let mut others = *ys;
                ring.product(xs, &mut others);
            }
        }
    }
}
