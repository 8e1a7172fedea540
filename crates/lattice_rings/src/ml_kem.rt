//! The ring of FIPS 203 (ML-KEM): polynomials modulo X^256 + 1 over the residues of q = 3329.

ghost use Rattle.std.specs.Prelude.{◌≡◌, ℕ, ◌+◌, ◌*◌, ◌%◌, ◌^◌, ◌<◌, ◌≤◌, ◌↔◌, IsTrue, All, length, slice_index};
ghost use Rattle.num_modular.specs.Congruence.{Congruent};
ghost use Rattle.num_modular.specs.Factors.{IsFactor};
ghost use Rattle.num_modular.specs.Plans.{numbers};
ghost use Rattle.num_modular.specs.Orders.{bits_reversed};
ghost use Rattle.lattice_rings.specs.Rings.{IsKemTransform, IsKemProduct, IsRingProduct};

use num_modular::laws::transform_laws;
use num_modular::plans::{Factor, Plan, PlannedModulus, fill_table};

/// The modulus q.
pub const MODULUS: u32 = 3329;

/// The standard's zeta: a root of unity of order 256.
pub const ZETA: u32 = 17;

/// The ring with its table: it takes 1 KB, zeta^BitRev7(k) modulo q for k from 0 to 127, the numbers of the standard's
/// appendix A, each with its quotient.
///
/// The table is that of zeta, which suits 256 entries. In block 1, modulo X^256 + 1, the constants are the odd
/// powers zeta^(2·BitRev7(i) + 1), in the standard's order. There is no root of unity of order 512 modulo q, so the
/// transform stops at remainders with two coefficients.
///
/// # Examples
///
/// ```
/// use num_modular::applications::lattice_rings::ml_kem::{Ring, MODULUS};
///
/// let (mut xs, mut ys) = ([0; 256], [0; 256]);
/// (xs[255], ys[1]) = (1, 1);
/// Ring::new().product(&mut xs, &mut ys);
/// assert_eq!(xs[0], MODULUS - 1); // X^255 * X is -1
/// ```
// rust instead: #[derive(Clone)]
#[derive(Drop)]
// rust: #[must_use]
pub struct Ring {
    modulus: PlannedModulus<u32>,
    table: [Factor<u32>; 128],
    ghost modulus_is: { modulus.modulus ≡ 3329 },
    ghost factors: { All (λ f. IsFactor (2 ^ 32) 3329 f.value f.quotient) table },
    ghost powers: { (k : ℕ) → k < 128
        → numbers (λ f. f.value) table k ≡ 17 ^ bits_reversed 7 k % 3329 },
}

/// Whether each is below q: the coefficients are residues.
///
/// Not for secrets.
///
/// # Examples
///
/// ```
/// use num_modular::applications::lattice_rings::ml_kem::{are_residues, MODULUS};
///
/// assert!(are_residues(&[MODULUS - 1; 256]));
/// assert!(!are_residues(&[MODULUS; 256]));
/// ```
pub fn are_residues(w: &[u32; 256]) -> bool
    ensures { IsTrue result ↔ All (λ x. x < 3329) w.now }
{
    w.iter().all(|x| *x < MODULUS)
}

// The product of two remainders modulo X^2 - c, the constants first. Products of three residues fit 64 bits, so
// that each sum takes one division.
fn multiply_remainders(x: (u32, u32), y: (u32, u32), c: u32) -> (u32, u32)
    requires x { (x.0 < 3329) × (x.1 < 3329) }
    requires y { (y.0 < 3329) × (y.1 < 3329) }
    requires c { c ≤ 3329 }
    ensures constant { result.0 ≡ (x.0 * y.0 + x.1 * y.1 * c) % 3329 }
    ensures linear { result.1 ≡ (x.0 * y.1 + x.1 * y.0) % 3329 }
{
    let constant = (x.0 * y.0) as u64 + (x.1 * y.1) as u64 * c as u64;
    (
        (constant % MODULUS as u64) as u32,
        (x.0 * y.1 + x.1 * y.0) % MODULUS,
    )
}

impl Ring {
    /// The ring.
    ///
    /// # Examples
    ///
    /// ```
    /// use num_modular::applications::lattice_rings::ml_kem::Ring;
    ///
    /// let ring = Ring::new();
    /// let mut w = [0; 256];
    /// w[0] = 7;
    /// ring.ntt(&mut w);
    /// assert_eq!(w[..4], [7, 0, 7, 0]); // the remainders of a constant
    /// ```
    pub fn new() -> Self {
        let modulus = PlannedModulus::new(MODULUS);
        let one = modulus.factor(1);
        let mut table = [one; 128];
        fill_table(&modulus, ZETA, &mut table);
        Ring { modulus, table }
    }

    // The plan of zeta, over the table.
    fn plan(&self) -> Plan<'_, u32, Factor<u32>>
        ensures modulus { result.modulus.modulus ≡ 3329 }
        ensures root { result.root ≡ 17 }
        ensures bits { result.bits ≡ 8 }
        ensures table { length result.table.now ≡ 128 }
    {
        Plan::over(&self.modulus, ZETA, &self.table)
    }

    /// Replaces w by its NTT: entries 2i and 2i + 1 become the remainder of w modulo X^2 - zeta^(2·BitRev7(i) + 1), the
    /// constant first, with residues as coefficients.
    ///
    /// Source: FIPS 203, section 4.3, algorithm 9.
    ///
    /// # Conditions
    ///
    /// - (debug) the coefficients are residues ([`are_residues`] tells)
    ///
    /// # Examples
    ///
    /// ```
    /// use num_modular::applications::lattice_rings::ml_kem::{Ring, ZETA};
    ///
    /// let mut w = [0; 256];
    /// w[2] = 1;
    /// Ring::new().ntt(&mut w);
    /// assert_eq!(w[..2], [ZETA, 0]); // X^2 modulo X^2 - zeta
    /// ```
    // rust: #[cfg_attr(debug_assertions, track_caller)]
    pub fn ntt(&self, w: &mut [u32; 256])
        requires { All (λ x. x < 3329) w.old }
        ensures residues { All (λ x. x < 3329) w.new }
        ensures remainders { IsKemTransform (slice_index w.old) (slice_index w.new) }
    {
        // rust: debug_assert!(are_residues(w), "the coefficients must be residues");
        self.plan().split(w, 1, 2);
    }

    /// Undoes `ntt`: the list becomes the only polynomial whose NTT it is; its coefficients are residues.
    ///
    /// Source: FIPS 203, section 4.3, algorithm 10.
    ///
    /// # Conditions
    ///
    /// - (debug) the entries are residues
    ///
    /// # Examples
    ///
    /// ```
    /// use num_modular::applications::lattice_rings::ml_kem::Ring;
    ///
    /// let ring = Ring::new();
    /// let mut w = [1; 256];
    /// ring.ntt(&mut w);
    /// ring.inverse(&mut w);
    /// assert_eq!(w, [1; 256]);
    /// ```
    // rust: #[cfg_attr(debug_assertions, track_caller)]
    pub fn inverse(&self, w: &mut [u32; 256])
        requires { All (λ x. x < 3329) w.old }
        ensures residues { All (λ x. x < 3329) w.new }
        ensures inverse { IsKemTransform (slice_index w.new) (slice_index w.old) }
        ensures unique { (x : ℕ → ℕ) → IsKemTransform x (slice_index w.old) →
            (i : ℕ) → i < 256 → slice_index w.new i ≡ x i % 3329 }
    {
        // rust: debug_assert!(are_residues(w), "the entries must be residues");
        transform_laws();
        self.plan().join(w, 1, 2);
    }

    /// Replaces xs by xs·ys modulo X^256 + 1 and q: its coefficients are residues, and ys becomes NTT(ys).
    ///
    /// Source: FIPS 203, section 4.3, algorithms 11 and 12: the products of the remainders are joined.
    ///
    /// # Conditions
    ///
    /// - (debug) the coefficients are residues
    ///
    /// # Examples
    ///
    /// ```
    /// use num_modular::applications::lattice_rings::ml_kem::{Ring, MODULUS};
    ///
    /// let (mut xs, mut ys) = ([0; 256], [0; 256]);
    /// (xs[0], xs[255], ys[1]) = (5, 1, 1);
    /// Ring::new().product(&mut xs, &mut ys);
    /// assert_eq!((xs[0], xs[1]), (MODULUS - 1, 5)); // (5 + X^255) * X
    /// ```
    // rust: #[cfg_attr(debug_assertions, track_caller)]
    pub fn product(&self, xs: &mut [u32; 256], ys: &mut [u32; 256])
        requires xs { All (λ x. x < 3329) xs.old }
        requires ys { All (λ x. x < 3329) ys.old }
        ensures residues { All (λ x. x < 3329) xs.new }
        ensures product { IsRingProduct 3329 (slice_index xs.old) (slice_index ys.old) (slice_index xs.new) }
        ensures transform { IsKemTransform (slice_index ys.old) (slice_index ys.new) }
    {
        // rust: debug_assert!(are_residues(xs) && are_residues(ys), "the coefficients must be residues");
        self.ntt(xs);
        self.ntt(ys);
        self.multiply(xs, ys);
        self.inverse(xs);
    }

    /// Multiplies the transform xs by the transform ys: remainder by remainder, with residues as entries, it becomes
    /// the transform of the product of the two polynomials.
    ///
    /// Source: FIPS 203, section 4.3, algorithms 11 and 12.
    ///
    /// # Conditions
    ///
    /// - (debug) the entries are residues
    ///
    /// # Examples
    ///
    /// ```
    /// use num_modular::applications::lattice_rings::ml_kem::{Ring, ZETA};
    ///
    /// let ring = Ring::new();
    /// let mut w = [0; 256];
    /// w[1] = 1;
    /// ring.ntt(&mut w);
    /// let other = w;
    /// ring.multiply(&mut w, &other);
    /// assert_eq!(w[..2], [ZETA, 0]); // X * X modulo X^2 - zeta
    /// ```
    // rust: #[cfg_attr(debug_assertions, track_caller)]
    #[tactic(auto, using(crate::proofs::Remainders::written_pair_extends_products))]
    pub fn multiply(&self, xs: &mut [u32; 256], ys: &[u32; 256])
        requires xs { All (λ x. x < 3329) xs.old }
        requires ys { All (λ x. x < 3329) ys.now }
        ensures residues { All (λ x. x < 3329) xs.new }
        ensures products { IsKemProduct (slice_index xs.old) (slice_index ys.now) (slice_index xs.new) }
        ensures product { (x y p : ℕ → ℕ) → IsRingProduct 3329 x y p → IsKemTransform x (slice_index xs.old) →
            IsKemTransform y (slice_index ys.now) → IsKemTransform p (slice_index xs.new) }
    {
        // rust: debug_assert!(are_residues(xs) && are_residues(ys), "the entries must be residues");
        'remainders: for i in 0..128 {
            let (x, y) = ((xs[2 * i], xs[2 * i + 1]), (ys[2 * i], ys[2 * i + 1]));
            let (constant, linear) = multiply_remainders(x, y, self.square(i));
            xs[2 * i] = constant;
            xs[2 * i + 1] = linear;
        }
    }

    // The constant of remainder i, which is congruent to X^2 there: zeta^(2·BitRev7(i) + 1), at most q. It is an
    // entry of the table, or minus one.
    fn square(&self, i: usize) -> u32
        requires { i < 128 }
        ensures few { result ≤ 3329 }
        ensures value { Congruent 3329 result (17 ^ (2 * bits_reversed 7 i + 1)) }
    {
        let power = self.table[64 + i / 2].value;
        if i % 2 == 0 { power } else { MODULUS - power }
    }
}
