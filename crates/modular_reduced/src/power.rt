//! Powers of forms by binary digits, with the number of products.

ghost use Rattle.std.specs.Prelude.{◌≡◌, ℕ, ◌+◌, ◌*◌, ◌%◌, ◌^◌, ◌<◌, ◌≤◌, count_ones};
ghost use Rattle.modular_reduced.specs.Checked.{IsChecked};
ghost use Rattle.modular_reduced.specs.Forms.{Represents};
ghost use Rattle.modular_reduced.specs.Powers.{digits, products};

use crate::reducer::Reducer;
use modular_word::ring_word::RingWord;

// The power, by a square for each digit and a product for each digit 1, and the number of these.
fn binary_power<T: RingWord, R: Reducer<T>>(reducer: &R, base: T, exp: T) -> (T, u32)
    requires form { IsChecked R.Reducer T.number reducer.now base }
    requires fits { T.number exp < 2 ^ T.width }
    ensures power { let m = R.modulus reducer.now in
        Represents R.form m (T.number result.0) (R.value m (T.number base) ^ T.number exp % m) }
    ensures count { result.1 ≡ digits (T.number exp) + count_ones (T.number exp) }
{
    let mut rest = exp;
    let mut power = base;
    let mut product = reducer.transform(T::one());
    let mut count = 0;
    'digits: while !rest.is_zero_word() {
        if rest.is_odd() {
            product = reducer.mul(&product, &power);
            count += 1;
        }
        power = reducer.sqr(power);
        count += 1;
        rest = rest.half();
    }
    (product, count)
}

/// The power, and how many products it took: those of the reducer for the power of a form.
///
/// The exponent 1 takes none, since the power is the base, and the exponent 2 takes one. Any other exponent takes a
/// square for each binary digit and a product for each digit 1, starting from the form of 1; so the power to the
/// exponent 0 is the form of 1 mod m.
///
/// Source: Knuth, The Art of Computer Programming, volume 2, section 4.6.3, algorithm A, with a square at the last
/// digit too.
///
/// # Preconditions
///
/// - the base is a checked form
///
/// # Examples
///
/// ```
/// use num_modular::reduced::pow_counted;
/// use num_modular::{Reducer, Vanilla};
///
/// let ring = Vanilla::<u64>::new(&97);
/// // 3^5 = 243 = 2 * 97 + 49; 5 has three binary digits, two of which are 1
/// assert_eq!(pow_counted(&ring, 3, &5), (49, 3 + 2));
/// ```
pub fn pow_counted<T: RingWord, R: Reducer<T>>(reducer: &R, base: T, exp: &T) -> (T, u32)
    requires { IsChecked R.Reducer T.number reducer.now base }
    ensures power { let m = R.modulus reducer.now in
        Represents R.form m (T.number result.0) (R.value m (T.number base) ^ T.number exp.now % m) }
    ensures checked { IsChecked R.Reducer T.number reducer.now result.0 }
    ensures value { let m = R.modulus reducer.now in
        R.value m (T.number result.0) ≡ R.value m (T.number base) ^ T.number exp.now % m }
    ensures count { result.1 ≡ products (T.number exp.now) }
    ensures at_most { result.1 ≤ 2 * digits (T.number exp.now) }
{
    if *exp == T::one() {
        return (base, 0);
    }
    if exp.half() == T::one() {
        if !exp.is_odd() {
            return (reducer.sqr(base), 1);
        }
    }
    binary_power(reducer, base, *exp)
}

/// Binary digits: the number of those of e is the least k with e below 2^k.
pub fn digit_laws()
    ensures above { (e : ℕ) → e < 2 ^ digits e }
    ensures least { (e k : ℕ) → e < 2 ^ k → digits e ≤ k }
{}
