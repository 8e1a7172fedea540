//! Powers of forms to secret exponents, with the number of products, and inverses of secret forms, over any reducer.

ghost use Rattle.std.specs.Prelude.{◌≡◌, ◌*◌, ◌%◌, ◌^◌, ◌<◌, ◌≤◌, IfSome};
ghost use Rattle.modular_word.specs.Inverses.{IsInversion};
ghost use Rattle.modular_reduced.specs.Checked.{IsChecked};
ghost use Rattle.modular_reduced.specs.Forms.{Represents, IsInverseForm};

use crate::inverse::invm_secret;
use crate::secret_word::{SecretWord, chosen, odd_mask};
use modular_reduced::reducer::Reducer;
// rattle: line
use modular_word::path_word::PathWord;
// rattle: line
use modular_word::ring_word::RingWord;

/// The power and the number of products: two for each of the `bits` binary digits.
///
/// The power is that of [`pow_secret`].
///
/// # Conditions
///
/// - `bits` is at most w
/// - (debug) the base is a checked form, and the exponent is below 2^`bits`
///
/// # Examples
///
/// ```
/// use num_modular::secrets::pow_secret_counted;
/// use num_modular::{Reducer, Vanilla};
///
/// let ring = Vanilla::<u64>::new(&97);
/// // 3^5 = 243 = 2 * 97 + 49, for exponents of 4 binary digits
/// assert_eq!(pow_secret_counted(&ring, 3, &5, 4), (49, 8));
/// assert_eq!(pow_secret_counted(&ring, 3, &0, 4), (1, 8));
/// ```
// rust: #[track_caller]
pub fn pow_secret_counted<T: SecretWord, R: Reducer<T>>(
    reducer: &R,
    base: T,
    exp: &T,
    bits: u32,
) -> (T, u32)
    requires form { IsChecked R.Reducer T.number reducer.now base }
    requires bits { bits ≤ T.width }
    requires fits { T.number exp.now < 2 ^ bits }
    ensures form { let m = R.modulus reducer.now in
        Represents R.form m (T.number result.0) (R.value m (T.number base) ^ T.number exp.now % m) }
    ensures checked { IsChecked R.Reducer T.number reducer.now result.0 }
    ensures value { let m = R.modulus reducer.now in
        R.value m (T.number result.0) ≡ R.value m (T.number base) ^ T.number exp.now % m }
    ensures count { result.1 ≡ 2 * bits }
{
    // rust: assert!(bits <= T::bits(), "`bits` must be at most {}: {bits}", T::bits());
    // rust: debug_assert!(reducer.check(&base), "the base must be a checked form");
    // rust: debug_assert!(bits == T::bits() || exp.shift_right(bits).is_zero_word(), "the exponent must be below 2^{bits}");
    let mut rest = *exp;
    let mut power = base;
    let mut product = reducer.transform(T::one());
    let mut count = 0;
    'digits: for _done in 0..bits {
        let longer = reducer.mul(&product, &power);
        product = chosen(product, longer, odd_mask(rest));
        power = reducer.sqr(power);
        rest = rest.half();
        count += 2;
    }
    (product, count)
}

/// The form of the power: what `pow` of the reducer returns, for a secret exponent.
///
/// Every exponent below 2^`bits` takes the same products; `bits` is public. That no branch and no address depends on
/// the base or the exponent is only tested, on the machine code; and it needs `mul` and `sqr` of the reducer to have
/// none. Over words, it is the `powm` of a secret exponent: `transform` the base, and take the `residue` of the power.
///
/// Source: Coron, "Resistance against differential power analysis for elliptic curve cryptosystems", CHES 1999, here
/// from the lowest digit: each digit takes a square and a product, which a mask keeps or drops.
///
/// # Conditions
///
/// - `bits` is at most w
/// - (debug) the base is a checked form, and the exponent is below 2^`bits`
///
/// # Examples
///
/// ```
/// use num_modular::secrets::pow_secret;
/// use num_modular::{Montgomery, Reducer};
///
/// let ring = Montgomery::<u64>::new(101);
/// let secret = 77; // one of seven binary digits
/// let power = pow_secret(&ring, ring.transform(2), &secret, 7);
/// assert_eq!(power, ring.pow(ring.transform(2), &secret));
/// ```
// rust: #[track_caller]
pub fn pow_secret<T: SecretWord, R: Reducer<T>>(reducer: &R, base: T, exp: &T, bits: u32) -> T
    requires form { IsChecked R.Reducer T.number reducer.now base }
    requires bits { bits ≤ T.width }
    requires fits { T.number exp.now < 2 ^ bits }
    ensures form { let m = R.modulus reducer.now in
        Represents R.form m (T.number result) (R.value m (T.number base) ^ T.number exp.now % m) }
    ensures checked { IsChecked R.Reducer T.number reducer.now result }
    ensures value { let m = R.modulus reducer.now in
        R.value m (T.number result) ≡ R.value m (T.number base) ^ T.number exp.now % m }
{
    pow_secret_counted(reducer, base, exp, bits).0
}

/// The form of the inverse; `None` exactly where there is none.
///
/// It is what `inv` of the reducer returns for an odd m, by the steps of [`invm_secret`].
///
/// It has no more branches than that if `residue` and `transform` of the reducer have none.
///
/// # Conditions
///
/// - m is odd
/// - (debug) `f` is a checked form
///
/// # Examples
///
/// ```
/// use num_modular::secrets::inv_secret;
/// use num_modular::{Montgomery, Reducer};
///
/// let ring = Montgomery::<u64>::new(101);
/// let secret = ring.transform(77);
/// assert_eq!(inv_secret(&ring, secret), ring.inv(secret));
/// ```
// rust: #[track_caller]
pub fn inv_secret<T: SecretWord, R: Reducer<T>>(reducer: &R, f: T) -> Option<T>
    requires odd { R.modulus reducer.now % 2 ≡ 1 }
    requires form { IsChecked R.Reducer T.number reducer.now f }
    ensures form { let m = R.modulus reducer.now in IsInverseForm T.number R.form m (R.value m (T.number f)) result }
    ensures checked { IfSome result (λ x. IsChecked R.Reducer T.number reducer.now x) }
    ensures value { let m = R.modulus reducer.now in
        IsInversion (λ x. R.value m (T.number x)) m (R.value m (T.number f)) result }
{
    // rust: debug_assert!(reducer.check(&f), "`f` must be a checked form");
    match invm_secret(reducer.residue(f), &reducer.modulus()) {
        Some(x) => Some(reducer.transform(x)),
        None => None,
    }
}
