//! The ring of FIPS 204 (ML-DSA): polynomials modulo X^256 + 1 over the residues of q = 8380417.

ghost use Rattle.std.specs.Prelude.{◌≡◌, ℕ, ◌*◌, ◌%◌, ◌^◌, ◌<◌, ◌↔◌, IsTrue, All, length, slice_index};
ghost use Rattle.num_modular.specs.Factors.{IsFactor};
ghost use Rattle.num_modular.specs.Plans.{numbers};
ghost use Rattle.num_modular.specs.Orders.{bits_reversed};
ghost use Rattle.lattice_rings.specs.Rings.{IsDsaTransform, IsDsaProduct, IsRingProduct};

use num_modular::laws::transform_laws;
use num_modular::plans::{Factor, Plan, PlannedModulus, fill_table};

/// The modulus q.
pub const MODULUS: u32 = 8380417;

/// The standard's zeta: a root of unity of order 512.
pub const ZETA: u32 = 1753;

/// The ring with its table: it takes 2 KB, zeta^BitRev8(k) modulo q for k from 0 to 255, each with its quotient.
///
/// For k from 1 on these are the numbers of the standard's appendix B.
///
/// The table is that of zeta, which suits 512 entries. In block 1, modulo X^256 + 1, the constants are the odd
/// powers zeta^(2·BitRev8(i) + 1), in the standard's order.
///
/// # Examples
///
/// ```
/// use num_modular::applications::lattice_rings::ml_dsa::{Ring, MODULUS};
///
/// let (mut xs, mut ys) = ([0; 256], [0; 256]);
/// (xs[255], ys[1]) = (1, 1);
/// Ring::new().product(&mut xs, &mut ys);
/// assert_eq!(xs[0], MODULUS - 1); // X^255 * X is -1
/// ```
// rust instead: #[derive(Clone)]
#[derive(Drop)]
// rust: #[must_use]
pub struct Ring {
    modulus: PlannedModulus<u32>,
    table: [Factor<u32>; 256],
    ghost modulus_is: { modulus.modulus ≡ 8380417 },
    ghost factors: { All (λ f. IsFactor (2 ^ 32) 8380417 f.value f.quotient) table },
    ghost powers: { (k : ℕ) → k < 256
        → numbers (λ f. f.value) table k ≡ 1753 ^ bits_reversed 8 k % 8380417 },
}

/// Whether each is below q: the coefficients are residues.
///
/// Not for secrets.
///
/// # Examples
///
/// ```
/// use num_modular::applications::lattice_rings::ml_dsa::{are_residues, MODULUS};
///
/// assert!(are_residues(&[MODULUS - 1; 256]));
/// assert!(!are_residues(&[MODULUS; 256]));
/// ```
pub fn are_residues(w: &[u32; 256]) -> bool
    ensures { IsTrue result ↔ All (λ x. x < 8380417) w.now }
{
    w.iter().all(|x| *x < MODULUS)
}

impl Ring {
    /// The ring.
    ///
    /// # Examples
    ///
    /// ```
    /// use num_modular::applications::lattice_rings::ml_dsa::Ring;
    ///
    /// let ring = Ring::new();
    /// let mut w = [0; 256];
    /// w[0] = 7;
    /// ring.ntt(&mut w);
    /// assert_eq!(w, [7; 256]); // a constant has the same value everywhere
    /// ```
    pub fn new() -> Self {
        let modulus = PlannedModulus::new(MODULUS);
        let one = modulus.factor(1);
        let mut table = [one; 256];
        fill_table(&modulus, ZETA, &mut table);
        Ring { modulus, table }
    }

    // The plan of zeta, over the table.
    fn plan(&self) -> Plan<'_, u32, Factor<u32>>
        ensures modulus { result.modulus.modulus ≡ 8380417 }
        ensures root { result.root ≡ 1753 }
        ensures bits { result.bits ≡ 9 }
        ensures table { length result.table.now ≡ 256 }
    {
        Plan::over(&self.modulus, ZETA, &self.table)
    }

    /// Replaces w by its NTT: entry i becomes the value w(zeta^(2·BitRev8(i) + 1)), a residue.
    ///
    /// Source: FIPS 204, section 7.5, algorithm 41.
    ///
    /// # Conditions
    ///
    /// - (debug) the coefficients are residues ([`are_residues`] tells)
    ///
    /// # Examples
    ///
    /// ```
    /// use num_modular::applications::lattice_rings::ml_dsa::{Ring, ZETA};
    ///
    /// let mut w = [0; 256];
    /// w[1] = 1;
    /// Ring::new().ntt(&mut w);
    /// assert_eq!(w[0], ZETA); // the value of X at zeta
    /// ```
    // rust: #[cfg_attr(debug_assertions, track_caller)]
    pub fn ntt(&self, w: &mut [u32; 256])
        requires { All (λ x. x < 8380417) w.old }
        ensures residues { All (λ x. x < 8380417) w.new }
        ensures values { IsDsaTransform (slice_index w.old) (slice_index w.new) }
    {
        // rust: debug_assert!(are_residues(w), "the coefficients must be residues");
        self.plan().split(w, 1, 1);
    }

    /// Undoes `ntt`: the list becomes the only polynomial whose NTT it is; its coefficients are residues.
    ///
    /// Source: FIPS 204, section 7.5, algorithm 42.
    ///
    /// # Conditions
    ///
    /// - (debug) the entries are residues
    ///
    /// # Examples
    ///
    /// ```
    /// use num_modular::applications::lattice_rings::ml_dsa::Ring;
    ///
    /// let mut w = [7; 256];
    /// Ring::new().inverse(&mut w);
    /// assert_eq!((w[0], w[1]), (7, 0)); // the constant 7
    /// ```
    // rust: #[cfg_attr(debug_assertions, track_caller)]
    pub fn inverse(&self, w: &mut [u32; 256])
        requires { All (λ x. x < 8380417) w.old }
        ensures residues { All (λ x. x < 8380417) w.new }
        ensures inverse { IsDsaTransform (slice_index w.new) (slice_index w.old) }
        ensures unique { (x : ℕ → ℕ) → IsDsaTransform x (slice_index w.old) →
            (i : ℕ) → i < 256 → slice_index w.new i ≡ x i % 8380417 }
    {
        // rust: debug_assert!(are_residues(w), "the entries must be residues");
        transform_laws();
        self.plan().join(w, 1, 1);
    }

    /// Replaces xs by xs·ys modulo X^256 + 1 and q: its coefficients are residues, and ys becomes NTT(ys).
    ///
    /// Source: FIPS 204, section 2.5: the entrywise product of NTT(xs) and NTT(ys) is transformed back.
    ///
    /// # Conditions
    ///
    /// - (debug) the coefficients are residues
    ///
    /// # Examples
    ///
    /// ```
    /// use num_modular::applications::lattice_rings::ml_dsa::{Ring, MODULUS};
    ///
    /// let (mut xs, mut ys) = ([0; 256], [0; 256]);
    /// (xs[0], xs[255], ys[1]) = (5, 1, 1);
    /// Ring::new().product(&mut xs, &mut ys);
    /// assert_eq!((xs[0], xs[1]), (MODULUS - 1, 5)); // (5 + X^255) * X
    /// ```
    // rust: #[cfg_attr(debug_assertions, track_caller)]
    pub fn product(&self, xs: &mut [u32; 256], ys: &mut [u32; 256])
        requires xs { All (λ x. x < 8380417) xs.old }
        requires ys { All (λ x. x < 8380417) ys.old }
        ensures residues { All (λ x. x < 8380417) xs.new }
        ensures product { IsRingProduct 8380417 (slice_index xs.old) (slice_index ys.old) (slice_index xs.new) }
        ensures transform { IsDsaTransform (slice_index ys.old) (slice_index ys.new) }
    {
        // rust: debug_assert!(are_residues(xs) && are_residues(ys), "the coefficients must be residues");
        self.ntt(xs);
        self.ntt(ys);
        self.multiply(xs, ys);
        self.inverse(xs);
    }

    /// Multiplies the transform xs by the transform ys: remainder by remainder, with residues as entries, it becomes
    /// the transform of the product of the two polynomials.
    ///
    /// Source: FIPS 204, section 7.6, algorithm 45.
    ///
    /// # Conditions
    ///
    /// - (debug) the entries are residues
    ///
    /// # Examples
    ///
    /// ```
    /// use num_modular::applications::lattice_rings::ml_dsa::{Ring, ZETA};
    ///
    /// let ring = Ring::new();
    /// let mut w = [0; 256];
    /// w[1] = 1;
    /// ring.ntt(&mut w);
    /// let other = w;
    /// ring.multiply(&mut w, &other);
    /// assert_eq!(w[0], ZETA * ZETA); // the value of X^2 at zeta, below q
    /// ```
    // rust: #[cfg_attr(debug_assertions, track_caller)]
    pub fn multiply(&self, xs: &mut [u32; 256], ys: &[u32; 256])
        requires xs { All (λ x. x < 8380417) xs.old }
        requires ys { All (λ x. x < 8380417) ys.now }
        ensures residues { All (λ x. x < 8380417) xs.new }
        ensures products { IsDsaProduct (slice_index xs.old) (slice_index ys.now) (slice_index xs.new) }
        ensures product { (x y p : ℕ → ℕ) → IsRingProduct 8380417 x y p → IsDsaTransform x (slice_index xs.old) →
            IsDsaTransform y (slice_index ys.now) → IsDsaTransform p (slice_index xs.new) }
    {
        // rust: debug_assert!(are_residues(xs) && are_residues(ys), "the entries must be residues");
        self.plan().multiply(xs, ys);
    }
}
