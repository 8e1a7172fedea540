//! The reducers of the moduli 2^P - K.

ghost use Rattle.std.specs.Prelude.{◌≡◌, ℕ, ◌*◌, ◌%◌, ◌<◌};
ghost use Rattle.modular_reduced.specs.Plain.{plain_form, plain_value};
ghost use Rattle.modular_folds.specs.Folds.{folds, IsFewFolds};
ghost use Rattle.modular_folds.specs.Mersenne.{IsMersenneRange, IsMersenne, mersenne};
ghost use Rattle.modular_folds.specs.MersenneLaws.{mersenne_canonical};
ghost use Rattle.std.proofs.Common.{lit≤, refl};

use crate::folds::{reduce_by_folds, reduce_double_word};
use crate::products::{reduce_product, reduce_word};
use crate::rings::{FoldModulus, FoldRing};
use modular_reduced::reducer::Reducer;

/// The modulus 2^P - K: it has at most 32 bits.
///
/// # Examples
///
/// ```
/// use num_modular::families::{FoldRing, Mersenne32};
/// use num_modular::Reducer;
///
/// const RING: FoldRing<u32, Mersenne32<8, 5>> = FoldRing::<u32, Mersenne32<8, 5>>::RING;
/// assert_eq!(RING.modulus(), 251); // 2^8 - 5
/// ```
// rust instead: #[derive(Clone, Copy)]
#[derive(Debug, Clone, Copy)]
// rust: #[must_use]
pub struct Mersenne32<const P: u8, const K: u32> {
    // Private, so that a value exists only for parameters in range; the modulus comes from the parameters.
    // rust instead: pub(crate) _made: (),
    made: (),
    ghost range: { IsMersenneRange 32 P K },
}

/// The reducer of 2^P - K: the modulus has at most 32 bits, and the form of a value is the value itself.
///
/// The parameters are in range where P is at most 32 and K is odd and less than half of 2^P. Only `inv` divides;
/// words and products are reduced by folds.
///
/// Source: Handbook of Applied Cryptography, algorithm 14.47.
///
/// # Examples
///
/// ```
/// use num_modular::{FixedMersenne32, Reducer};
///
/// const RING: FixedMersenne32<31, 1> = FixedMersenne32::RING;
/// assert_eq!(RING.mul(&(1 << 30), &6), 3); // 6 * 2^30 = 3 * 2^31
/// ```
pub type FixedMersenne32<const P: u8, const K: u32> = FoldRing<u32, Mersenne32<P, K>>;

impl<const P: u8, const K: u32> FoldRing<u32, Mersenne32<P, K>> {
    /// The modulus.
    ///
    /// # Conditions
    ///
    /// - P is at most 32, K is odd, and 2·K is below 2^P
    ///
    /// # Examples
    ///
    /// ```
    /// use num_modular::FixedMersenne32;
    ///
    /// assert_eq!(FixedMersenne32::<8, 5>::fixed_modulus(), 251); // 2^8 - 5
    /// ```
    // rust: #[track_caller]
    // rust instead: pub const fn fixed_modulus() -> u32
    pub fn fixed_modulus() -> u32
        requires { IsMersenneRange 32 P K }
        ensures { result ≡ mersenne P K }
    {
        prove!(P <= 32 && K % 2 == 1 && 2 * (K as u64) < 1 << P);
        // rust: assert!(P <= 32 && K % 2 == 1 && 2 * (K as u64) < 1 << P,
        // rust:     "P must be at most 32, K must be odd, and 2·K must be below 2^P");
        ((1u64 << P) - K as u64) as u32
    }

    // rattle: item
    /// The residue of a word.
    ///
    /// # Preconditions
    ///
    /// - the parameters are in range
    ///
    /// # Examples
    ///
    /// ```
    /// use num_modular::FixedMersenne32;
    ///
    /// assert_eq!(FixedMersenne32::<31, 1>::reduce_single(1 << 31), 1);
    /// assert_eq!(FixedMersenne32::<8, 5>::reduce_single(1000), 247); // 1000 - 3 * 251
    /// ```
    pub fn reduce_single(v: u32) -> u32
        requires { IsMersenneRange 32 P K }
        ensures { result ≡ v % mersenne P K }
    {
        Self::reduce_counted(v as u64).0
    }

    /// The residue of a double word.
    ///
    /// # Conditions
    ///
    /// - the parameters are in range
    ///
    /// # Examples
    ///
    /// ```
    /// use num_modular::FixedMersenne32;
    ///
    /// assert_eq!(FixedMersenne32::<31, 1>::reduce_double(1 << 40), 1 << 9);
    /// ```
    // rust: #[track_caller]
    pub fn reduce_double(v: u64) -> u32
        requires { IsMersenneRange 32 P K }
        ensures { result ≡ v % mersenne P K }
    {
        Self::reduce_counted(v).0
    }

    /// The residue of a double word, as `reduce_double` returns it, by folds that nothing counts: in straight-line code
    /// for a product of two residues, and at bits above P first for a K near 2^P.
    ///
    /// That takes less time.
    ///
    /// # Conditions
    ///
    /// - the parameters are in range
    ///
    /// # Examples
    ///
    /// ```
    /// use num_modular::FixedMersenne32;
    ///
    /// assert_eq!(FixedMersenne32::<8, 5>::reduce_uncounted(1000), 247); // 1000 - 3 * 251
    /// ```
    // rust: #[track_caller]
    pub fn reduce_uncounted(v: u64) -> u32
        requires { IsMersenneRange 32 P K }
        ensures { result ≡ v % mersenne P K }
    {
        reduce_double_word(v, P as u32, K, Self::fixed_modulus())
    }

    /// The residue of a double word and the number of folds: how many make it less than 2^P.
    ///
    /// # Conditions
    ///
    /// - the parameters are in range
    ///
    /// # Examples
    ///
    /// ```
    /// use num_modular::FixedMersenne32;
    ///
    /// // 1000 = 3 * 256 + 232, which folds to 3 * 5 + 232
    /// assert_eq!(FixedMersenne32::<8, 5>::reduce_counted(1000), (247, 1));
    /// assert_eq!(FixedMersenne32::<8, 5>::reduce_counted(251), (0, 0));
    /// ```
    // rust: #[track_caller]
    pub fn reduce_counted(v: u64) -> (u32, u32)
        requires { IsMersenneRange 32 P K }
        ensures value { result.0 ≡ v % mersenne P K }
        ensures count { result.1 ≡ folds P K v }
        ensures few { IsFewFolds P K v result.1 }
    {
        reduce_by_folds::<u32>(v, P as u32, K, Self::fixed_modulus())
    }
}

impl<const P: u8, const K: u32> FoldModulus<u32> for Mersenne32<P, K> {
    ghost admits = { IsMersenne 32 P K };

    ghost modulus = { λ m. mersenne P K };

    // Condition: the modulus is that of the parameters.
    // rust: #[track_caller]
    fn keep(m: u32) -> Self {
        prove!(m == FixedMersenne32::<P, K>::fixed_modulus());
        // rust: assert!(m == FixedMersenne32::<P, K>::MODULUS, "the modulus must be that of the parameters: {} and {}",
        // rust:     m, FixedMersenne32::<P, K>::MODULUS);
        // rust instead: Mersenne32 { _made: () }
        Mersenne32 { made: () }
    }

    fn modulus(&self) -> u32 {
        FixedMersenne32::<P, K>::fixed_modulus()
    }

    fn reduced(&self, n: u32) -> u32 {
        reduce_word(n, P as u32, K, self.modulus())
    }

    fn product(&self, a: u32, b: u32) -> u32 {
        reduce_product(a, b, P as u32, K, self.modulus())
    }

    ghost admitted = { λ m. record { range = m.range; same = refl } };

    ghost canonical = { λ m. mersenne_canonical 32 (lit≤ tt) m.range };
}

/// The modulus 2^P - K: it has at most 64 bits.
///
/// # Examples
///
/// ```
/// use num_modular::families::{FoldRing, Mersenne64};
/// use num_modular::Reducer;
///
/// const RING: FoldRing<u64, Mersenne64<61, 1>> = FoldRing::<u64, Mersenne64<61, 1>>::RING;
/// assert_eq!(RING.modulus(), (1 << 61) - 1);
/// ```
// rust instead: #[derive(Clone, Copy)]
#[derive(Debug, Clone, Copy)]
// rust: #[must_use]
pub struct Mersenne64<const P: u8, const K: u64> {
    // Private, so that a value exists only for parameters in range; the modulus comes from the parameters.
    // rust instead: pub(crate) _made: (),
    made: (),
    ghost range: { IsMersenneRange 64 P K },
}

/// The reducer of 2^P - K: the modulus has at most 64 bits, and the form of a value is the value itself.
///
/// The parameters are in range where P is at most 64 and K is odd and less than half of 2^P. Only `inv` divides;
/// words and products are reduced by folds.
///
/// Source: Handbook of Applied Cryptography, algorithm 14.47.
///
/// # Examples
///
/// ```
/// use num_modular::{FixedMersenne64, Reducer};
///
/// type Ring = FixedMersenne64<61, 1>;
/// let ring = Ring::new(&Ring::MODULUS);
/// assert_eq!(ring.mul(&(1 << 60), &4), 2);
/// ```
pub type FixedMersenne64<const P: u8, const K: u64> = FoldRing<u64, Mersenne64<P, K>>;

impl<const P: u8, const K: u64> FoldRing<u64, Mersenne64<P, K>> {
    /// The modulus.
    ///
    /// # Conditions
    ///
    /// - P is at most 64, K is odd, and 2·K is below 2^P
    ///
    /// # Examples
    ///
    /// ```
    /// use num_modular::FixedMersenne64;
    ///
    /// assert_eq!(FixedMersenne64::<61, 1>::fixed_modulus(), (1 << 61) - 1);
    /// ```
    // rust: #[track_caller]
    // rust instead: pub const fn fixed_modulus() -> u64
    pub fn fixed_modulus() -> u64
        requires { IsMersenneRange 64 P K }
        ensures { result ≡ mersenne P K }
    {
        prove!(P <= 64 && K % 2 == 1 && 2 * (K as u128) < 1 << P);
        // rust: assert!(P <= 64 && K % 2 == 1 && 2 * (K as u128) < 1 << P,
        // rust:     "P must be at most 64, K must be odd, and 2·K must be below 2^P");
        ((1u128 << P) - K as u128) as u64
    }

    // rattle: item
    /// The residue of a word.
    ///
    /// # Preconditions
    ///
    /// - the parameters are in range
    ///
    /// # Examples
    ///
    /// ```
    /// use num_modular::FixedMersenne64;
    ///
    /// assert_eq!(FixedMersenne64::<61, 1>::reduce_single(1 << 63), 1 << 2);
    /// ```
    pub fn reduce_single(v: u64) -> u64
        requires { IsMersenneRange 64 P K }
        ensures { result ≡ v % mersenne P K }
    {
        Self::reduce_counted(v as u128).0
    }

    /// The residue of a double word.
    ///
    /// # Conditions
    ///
    /// - the parameters are in range
    ///
    /// # Examples
    ///
    /// ```
    /// use num_modular::FixedMersenne64;
    ///
    /// assert_eq!(FixedMersenne64::<61, 1>::reduce_double(1 << 100), 1 << 39);
    /// ```
    // rust: #[track_caller]
    pub fn reduce_double(v: u128) -> u64
        requires { IsMersenneRange 64 P K }
        ensures { result ≡ v % mersenne P K }
    {
        Self::reduce_counted(v).0
    }

    /// The residue of a double word, as `reduce_double` returns it, by folds that nothing counts: in straight-line code
    /// for a product of two residues, and at bits above P first for a K near 2^P.
    ///
    /// That takes less time.
    ///
    /// # Conditions
    ///
    /// - the parameters are in range
    ///
    /// # Examples
    ///
    /// ```
    /// use num_modular::FixedMersenne64;
    ///
    /// assert_eq!(FixedMersenne64::<61, 1>::reduce_uncounted(1 << 100), 1 << 39);
    /// ```
    // rust: #[track_caller]
    pub fn reduce_uncounted(v: u128) -> u64
        requires { IsMersenneRange 64 P K }
        ensures { result ≡ v % mersenne P K }
    {
        reduce_double_word(v, P as u32, K, Self::fixed_modulus())
    }

    /// The residue of a double word and the number of folds: how many make it less than 2^P.
    ///
    /// # Conditions
    ///
    /// - the parameters are in range
    ///
    /// # Examples
    ///
    /// ```
    /// use num_modular::FixedMersenne64;
    ///
    /// assert_eq!(FixedMersenne64::<61, 1>::reduce_counted(1 << 100), (1 << 39, 1));
    /// ```
    // rust: #[track_caller]
    pub fn reduce_counted(v: u128) -> (u64, u32)
        requires { IsMersenneRange 64 P K }
        ensures value { result.0 ≡ v % mersenne P K }
        ensures count { result.1 ≡ folds P K v }
        ensures few { IsFewFolds P K v result.1 }
    {
        reduce_by_folds::<u64>(v, P as u32, K, Self::fixed_modulus())
    }
}

impl<const P: u8, const K: u64> FoldModulus<u64> for Mersenne64<P, K> {
    ghost admits = { IsMersenne 64 P K };

    ghost modulus = { λ m. mersenne P K };

    // Condition: the modulus is that of the parameters.
    // rust: #[track_caller]
    fn keep(m: u64) -> Self {
        prove!(m == FixedMersenne64::<P, K>::fixed_modulus());
        // rust: assert!(m == FixedMersenne64::<P, K>::MODULUS, "the modulus must be that of the parameters: {} and {}",
        // rust:     m, FixedMersenne64::<P, K>::MODULUS);
        // rust instead: Mersenne64 { _made: () }
        Mersenne64 { made: () }
    }

    fn modulus(&self) -> u64 {
        FixedMersenne64::<P, K>::fixed_modulus()
    }

    fn reduced(&self, n: u64) -> u64 {
        reduce_word(n, P as u32, K, self.modulus())
    }

    fn product(&self, a: u64, b: u64) -> u64 {
        reduce_product(a, b, P as u32, K, self.modulus())
    }

    ghost admitted = { λ m. record { range = m.range; same = refl } };

    ghost canonical = { λ m. mersenne_canonical 64 (lit≤ tt) m.range };
}

/// The reducer of 2^P - K, in words of 128 bits: the modulus has at most 64 bits, and the form of a value is the value
/// itself.
///
/// The parameters are in range where P is at most 64 and K is odd and less than half of 2^P. Forms are below 2^64,
/// so a product of two of them fits a word. [`FixedMersenne64`] computes sums, differences and inverses.
///
/// # Examples
///
/// ```
/// use num_modular::{FixedMersenne, Reducer};
///
/// const RING: FixedMersenne<61, 1> = FixedMersenne::RING;
/// assert_eq!(RING.mul(&(1 << 60), &6), 3); // 6 * 2^60 = 3 * 2^61
/// ```
// rust instead: #[derive(Clone, Copy, PartialEq, Eq, Hash)]
#[derive(Debug, Clone, Copy)]
// rust: #[must_use]
pub struct FixedMersenne<const P: u8, const K: u64> {
    // rust instead: pub(crate) ring: FixedMersenne64<P, K>,
    ring: FixedMersenne64<P, K>,
}

impl<const P: u8, const K: u64> FixedMersenne<P, K> {
    /// The modulus.
    ///
    /// # Conditions
    ///
    /// - the parameters are in range
    ///
    /// # Examples
    ///
    /// ```
    /// use num_modular::FixedMersenne;
    ///
    /// assert_eq!(FixedMersenne::<61, 1>::fixed_modulus(), (1 << 61) - 1);
    /// ```
    // rust: #[track_caller]
    // rust instead: pub const fn fixed_modulus() -> u128
    pub fn fixed_modulus() -> u128
        requires { IsMersenneRange 64 P K }
        ensures { result ≡ mersenne P K }
    {
        FixedMersenne64::<P, K>::fixed_modulus() as u128
    }

    /// The residue of a word.
    ///
    /// # Preconditions
    ///
    /// - the parameters are in range
    ///
    /// # Examples
    ///
    /// ```
    /// use num_modular::FixedMersenne;
    ///
    /// assert_eq!(FixedMersenne::<61, 1>::reduce_single(1 << 100), 1 << 39);
    /// ```
    // rust: #[track_caller]
    // rust instead: pub(crate) fn reduced_word(v: u128) -> u128
    pub fn reduce_single(v: u128) -> u128
        requires { IsMersenneRange 64 P K }
        ensures { result ≡ v % mersenne P K }
    {
        Self::reduce_counted(v).0
    }

    /// The residue of a word and the number of folds: how many make it less than 2^P.
    ///
    /// # Conditions
    ///
    /// - the parameters are in range
    ///
    /// # Examples
    ///
    /// ```
    /// use num_modular::FixedMersenne;
    ///
    /// assert_eq!(FixedMersenne::<61, 1>::reduce_counted(1 << 100), (1 << 39, 1));
    /// ```
    // rust: #[track_caller]
    pub fn reduce_counted(v: u128) -> (u128, u32)
        requires { IsMersenneRange 64 P K }
        ensures value { result.0 ≡ v % mersenne P K }
        ensures count { result.1 ≡ folds P K v }
        ensures few { IsFewFolds P K v result.1 }
    {
        let (rest, count) = FixedMersenne64::<P, K>::reduce_counted(v);
        (rest as u128, count)
    }

    // The residue of a product of two forms, which fits a word.
    fn product(a: u128, b: u128) -> u128
        requires range { IsMersenneRange 64 P K }
        requires left { a < mersenne P K }
        requires right { b < mersenne P K }
        ensures { result ≡ (a * b) % mersenne P K }
    {
        // rust instead: Self::reduced_word(a * b)
        Self::reduce_single(a * b)
    }

    // A form as a word of 64 bits.
    fn narrow(f: u128) -> u64
        requires range { IsMersenneRange 64 P K }
        requires below { f < mersenne P K }
        ensures { result ≡ f }
    {
        f as u64
    }
}

impl<const P: u8, const K: u64> Reducer<u128> for FixedMersenne<P, K> {
    ghost admits = { IsMersenne 64 P K };

    ghost form = { plain_form };

    ghost value = { plain_value };

    ghost modulus = { λ r. mersenne P K };

    ghost admitted = { λ r. record { range = r.ring.kept.range; same = refl } };

    ghost canonical = { λ r. mersenne_canonical 128 (lit≤ tt) r.ring.kept.range };

    // Condition: the modulus is that of the parameters.
    // rust: #[track_caller]
    fn new(m: &u128) -> Self {
        prove!(*m == Self::fixed_modulus());
        // rust: assert!(*m == Self::MODULUS, "the modulus must be that of the parameters: {} and {}", m, Self::MODULUS);
        FixedMersenne {
            ring: FixedMersenne64::<P, K>::new(&FixedMersenne64::<P, K>::fixed_modulus()),
        }
    }

    fn transform(&self, n: u128) -> u128 {
        // rust instead: Self::reduced_word(n)
        Self::reduce_single(n)
    }

    fn check(&self, f: &u128) -> bool {
        *f < Self::fixed_modulus()
    }

    fn modulus(&self) -> u128 {
        Self::fixed_modulus()
    }

    fn residue(&self, f: u128) -> u128 {
        f
    }

    fn is_zero(&self, f: &u128) -> bool {
        *f == 0
    }

    fn add(&self, a: &u128, b: &u128) -> u128 {
        self.ring.add(&Self::narrow(*a), &Self::narrow(*b)) as u128
    }

    fn dbl(&self, f: u128) -> u128 {
        self.ring.dbl(Self::narrow(f)) as u128
    }

    fn sub(&self, a: &u128, b: &u128) -> u128 {
        self.ring.sub(&Self::narrow(*a), &Self::narrow(*b)) as u128
    }

    fn neg(&self, f: u128) -> u128 {
        self.ring.neg(Self::narrow(f)) as u128
    }

    fn mul(&self, a: &u128, b: &u128) -> u128 {
        Self::product(*a, *b)
    }

    fn inv(&self, f: u128) -> Option<u128> {
        match self.ring.inv(Self::narrow(f)) {
            Some(x) => Some(x as u128),
            None => None,
        }
    }

    fn sqr(&self, f: u128) -> u128 {
        Self::product(f, f)
    }
    // rust: crate::additions::reducer_members!(u128);
}
