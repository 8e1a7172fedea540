//! Reducers by Montgomery's representation whose modulus is a parameter of the type.

ghost use Rattle.std.specs.Prelude.{◌≡◌, ℕ, ◌*◌, ◌%◌, ◌^◌};
ghost use Rattle.std.proofs.Common.{refl};
ghost use Rattle.modular_monty.specs.Montgomery.{montgomery_form, montgomery_value, negated_inverse_of};
ghost use Rattle.modular_monty.specs.Montgomery.{IsOddModulus, IsOddRing};
ghost use Rattle.modular_monty.specs.MontgomeryLaws.{montgomery_canonical};

use crate::computed::computed_once;
use crate::known::{redc_known, sum_known};
use crate::odd_ring::{OddModulus, OddRing, redc_below, unless_unit_base};
// rattle: line
use modular_reduced::reducer::Reducer;

// What is precomputed of P. It is a type because proofs use what the type of a constant guarantees, not its value.
#[derive(Clone, Copy)]
struct Computed32<const P: u32> {
    negated_inverse: u32,
    square: u32,
    ghost ring: { P % 2 ≡ 1 → IsOddRing 32 (2 ^ 32) P negated_inverse square },
}

/// The odd number P as a modulus for words of 32 bits, known at compile time.
// rust instead: #[derive(Clone, Copy)]
#[derive(Debug, Clone, Copy)]
// rust: #[must_use]
pub struct OddNumber32<const P: u32> {
    // Private, so that a value exists only for an odd P; the numbers come from the parameter.
    // rust instead: pub(crate) _made: (),
    made: (),
    ghost ring: { IsOddModulus 32 (2 ^ 32) P },
}

impl<const P: u32> OddNumber32<P> {
    const COMPUTED: Computed32<P> = {
        let (negated_inverse, square) = computed_once(P as u64, 32);
        Computed32 {
            negated_inverse: negated_inverse as u32,
            square: square as u32,
        }
    };
}

/// The reducer of the odd P: Montgomery's representation in words of 32 bits, where the form of v is v * 2^32 modulo P.
///
/// `new` accepts only P.
///
/// Source: Handbook of Applied Cryptography, section 14.3.2.
///
/// # Examples
///
/// ```
/// use num_modular::{FixedMontgomery32, Reducer};
///
/// const RING: FixedMontgomery32<97> = FixedMontgomery32::RING;
/// assert_eq!(RING.residue(RING.sqr(RING.transform(10))), 3); // 100 - 97
/// ```
pub type FixedMontgomery32<const P: u32> = OddRing<u32, OddNumber32<P>>;

impl<const P: u32> OddRing<u32, OddNumber32<P>> {
    /// The modulus P.
    ///
    /// # Conditions
    ///
    /// - the parameter P is odd
    ///
    /// # Examples
    ///
    /// ```
    /// use num_modular::FixedMontgomery32;
    ///
    /// assert_eq!(FixedMontgomery32::<97>::fixed_modulus(), 97);
    /// ```
    // rust: #[track_caller]
    // rust instead: pub const fn fixed_modulus() -> u32
    pub fn fixed_modulus() -> u32
        requires { P % 2 ≡ 1 }
        ensures { result ≡ P }
    {
        prove!(P % 2 == 1);
        // rust: assert!(P % 2 == 1, "the parameter P must be odd");
        P
    }
}

impl<const P: u32> OddModulus<u32> for OddNumber32<P> {
    ghost admits = { λ m. (P % 2 ≡ 1) × (m ≡ P) };

    ghost modulus = { λ _. P };

    ghost negated_inverse = { λ _. negated_inverse_of (2 ^ 32) P };

    ghost square = { λ _. (2 ^ 32 * 2 ^ 32) % P };

    // Condition: the modulus is that of the parameters.
    // rust: #[track_caller]
    fn keep(m: u32) -> Self {
        prove!(m == FixedMontgomery32::<P>::fixed_modulus());
        // rust: assert!(m == FixedMontgomery32::<P>::MODULUS, "the modulus must be that of the parameters: {} and {}",
        // rust:     m, FixedMontgomery32::<P>::MODULUS);
        // rust instead: OddNumber32 { _made: () }
        OddNumber32 { made: () }
    }

    fn modulus(&self) -> u32 {
        P
    }

    fn square_of_base(&self) -> u32 {
        Self::COMPUTED.square
    }

    fn sum(&self, a: u32, b: u32) -> u32 {
        sum_known(a, b, P)
    }

    fn redc(&self, t: u64) -> u32 {
        redc_known(P, Self::COMPUTED.negated_inverse, t)
    }

    fn redc_below(&self, t: u64) -> u32 {
        let inverse = Self::COMPUTED.negated_inverse;
        unless_unit_base(P, inverse, t, redc_below(P, inverse, t))
    }

    ghost admitted = { λ m. (m.ring.odd, refl) };

    ghost is_odd_ring = { λ m. m.ring };
}

// What is precomputed of P. It is a type because proofs use what the type of a constant guarantees, not its value.
#[derive(Clone, Copy)]
struct Computed64<const P: u64> {
    negated_inverse: u64,
    square: u64,
    ghost ring: { P % 2 ≡ 1 → IsOddRing 64 (2 ^ 64) P negated_inverse square },
}

/// The odd number P as a modulus for words of 64 bits, known at compile time.
// rust instead: #[derive(Clone, Copy)]
#[derive(Debug, Clone, Copy)]
// rust: #[must_use]
pub struct OddNumber64<const P: u64> {
    // Private, so that a value exists only for an odd P; the numbers come from the parameter.
    // rust instead: pub(crate) _made: (),
    made: (),
    ghost ring: { IsOddModulus 64 (2 ^ 64) P },
}

impl<const P: u64> OddNumber64<P> {
    const COMPUTED: Computed64<P> = {
        let (negated_inverse, square) = computed_once(P, 64);
        Computed64 {
            negated_inverse,
            square,
        }
    };
}

/// The reducer of the odd P: Montgomery's representation in words of 64 bits, where the form of v is v * 2^64 modulo P.
///
/// `new` accepts only P.
///
/// Source: Handbook of Applied Cryptography, section 14.3.2.
///
/// # Examples
///
/// ```
/// use num_modular::{FixedMontgomery64, Reducer};
///
/// const RING: FixedMontgomery64<1_000_000_007> = FixedMontgomery64::RING;
/// let x = RING.transform(2);
/// assert_eq!(RING.residue(RING.pow(x, &30)), 73_741_817); // 2^30 - 1000000007
/// ```
pub type FixedMontgomery64<const P: u64> = OddRing<u64, OddNumber64<P>>;

impl<const P: u64> OddRing<u64, OddNumber64<P>> {
    /// The modulus P.
    ///
    /// # Conditions
    ///
    /// - the parameter P is odd
    ///
    /// # Examples
    ///
    /// ```
    /// use num_modular::FixedMontgomery64;
    ///
    /// assert_eq!(FixedMontgomery64::<97>::fixed_modulus(), 97);
    /// ```
    // rust: #[track_caller]
    // rust instead: pub const fn fixed_modulus() -> u64
    pub fn fixed_modulus() -> u64
        requires { P % 2 ≡ 1 }
        ensures { result ≡ P }
    {
        prove!(P % 2 == 1);
        // rust: assert!(P % 2 == 1, "the parameter P must be odd");
        P
    }
}

impl<const P: u64> OddModulus<u64> for OddNumber64<P> {
    ghost admits = { λ m. (P % 2 ≡ 1) × (m ≡ P) };

    ghost modulus = { λ _. P };

    ghost negated_inverse = { λ _. negated_inverse_of (2 ^ 64) P };

    ghost square = { λ _. (2 ^ 64 * 2 ^ 64) % P };

    // Condition: the modulus is that of the parameters.
    // rust: #[track_caller]
    fn keep(m: u64) -> Self {
        prove!(m == FixedMontgomery64::<P>::fixed_modulus());
        // rust: assert!(m == FixedMontgomery64::<P>::MODULUS, "the modulus must be that of the parameters: {} and {}",
        // rust:     m, FixedMontgomery64::<P>::MODULUS);
        // rust instead: OddNumber64 { _made: () }
        OddNumber64 { made: () }
    }

    fn modulus(&self) -> u64 {
        P
    }

    fn square_of_base(&self) -> u64 {
        Self::COMPUTED.square
    }

    fn sum(&self, a: u64, b: u64) -> u64 {
        sum_known(a, b, P)
    }

    fn redc(&self, t: u128) -> u64 {
        redc_known(P, Self::COMPUTED.negated_inverse, t)
    }

    fn redc_below(&self, t: u128) -> u64 {
        let inverse = Self::COMPUTED.negated_inverse;
        unless_unit_base(P, inverse, t, redc_below(P, inverse, t))
    }

    ghost admitted = { λ m. (m.ring.odd, refl) };

    ghost is_odd_ring = { λ m. m.ring };
}
