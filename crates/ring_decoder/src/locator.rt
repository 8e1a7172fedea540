//! The locator of a list of moments: a polynomial that is 0 at the points whose weights aren't.

ghost use Rattle.std.specs.Prelude.{◌≡◌, ◌≢◌, ℕ, ◌+◌, ◌*◌, ◌/◌, ◌%◌, ◌<◌, ◌≤◌, IfSome, MatchOption, length};
ghost use Rattle.std.specs.Prelude.{if◌then◌else◌};
ghost use Rattle.num_modular.specs.Entries.{entry};
ghost use Rattle.num_modular.specs.Checked.{AreChecked, IsChecked};
ghost use Rattle.num_modular.specs.Inverses.{HasInverse};
ghost use Rattle.num_modular.specs.Sums.{sum_below};
ghost use Rattle.ring_decoder.specs.LocatorSteps.{IsSearch, IsCombined};
ghost use Rattle.ring_decoder.specs.Locators.{IsLocator, IsGeometric, IsLinear, NeedManyWeights};

use num_modular::ring::dot_product;
use num_modular::{Reducer, RingWord};

// The sum of the first coefficients of a polynomial, each times its number, from an index of the numbers on.
pub(crate) fn apply<T: RingWord, R: Reducer<T>>(
    r: &R,
    polynomial: &[T],
    count: usize,
    numbers: &[T],
    from: usize,
) -> T
    requires polynomial { AreChecked R.Reducer T.number r.now polynomial.now }
    requires numbers { AreChecked R.Reducer T.number r.now numbers.now }
    requires within { count ≤ length polynomial.now }
    requires numbers_within { from + count ≤ length numbers.now }
    ensures checked { IsChecked R.Reducer T.number r.now result }
    ensures value { let m = R.modulus r.now in R.value m (T.number result)
        ≡ sum_below count (λ l. entry T.number R.value m polynomial.now l
        * entry T.number R.value m numbers.now (from + l)) % m }
{
    dot_product(r, &polynomial[..count], &numbers[from..from + count])
}

// Replaces the first coefficients of a polynomial f by those of a·f - b·X^q·g: by q products less than two for each.
#[tactic(auto, using(num_modular::specs::Callers::form_read))]
fn combine<T: RingWord, R: Reducer<T>>(
    r: &R,
    a: &T,
    polynomial: &mut [T],
    count: usize,
    b: &T,
    q: usize,
    other: &[T],
)
    requires a { IsChecked R.Reducer T.number r.now a.now }
    requires polynomial { AreChecked R.Reducer T.number r.now polynomial.old }
    requires b { IsChecked R.Reducer T.number r.now b.now }
    requires other { AreChecked R.Reducer T.number r.now other.now }
    requires within { count ≤ length polynomial.old }
    requires low { q ≤ count }
    requires other_within { count ≤ q + length other.now }
    ensures checked { AreChecked R.Reducer T.number r.now polynomial.new }
    ensures combined { let m = R.modulus r.now in (k : ℕ) → k < count →
        IsCombined m (R.value m (T.number a.now)) (R.value m (T.number b.now)) q k
        (entry T.number R.value m polynomial.old k) (entry T.number R.value m polynomial.new k)
        (entry T.number R.value m other.now) }
    ensures kept { let m = R.modulus r.now in (k : ℕ) → count ≤ k →
        entry T.number R.value m polynomial.new k ≡ entry T.number R.value m polynomial.old k }
{
    'low: for i in 0..q {
        let scaled = r.mul(a, &polynomial[i]);
        polynomial[i] = scaled;
    }
    'high: for k in q..count {
        let place = k - q;
        let own = r.mul(a, &polynomial[k]);
        let product = r.mul(b, &other[place]);
        polynomial[k] = r.sub(&own, &product);
    }
}

// The product of the witness and a number that isn't 0; the witness itself, where the product is 0: then it has no inverse.
fn extend_witness<T: RingWord, R: Reducer<T>>(r: &R, witness: T, met: &T) -> T
    requires witness { IsChecked R.Reducer T.number r.now witness }
    requires met { IsChecked R.Reducer T.number r.now met.now }
    requires some { R.value (R.modulus r.now) (T.number met.now) ≢ 0 }
    ensures checked { IsChecked R.Reducer T.number r.now result }
    ensures units { let m = R.modulus r.now in HasInverse m (R.value m (T.number result)) →
        HasInverse m (R.value m (T.number witness)) × HasInverse m (R.value m (T.number met.now)) }
    ensures nonzero { let m = R.modulus r.now in
        R.value m (T.number witness) ≢ 0 → R.value m (T.number result) ≢ 0 }
{
    let product = r.mul(&witness, met);
    if r.is_zero(&product) {
        witness
    } else {
        product
    }
}

// Takes one moment more into account: returns the order of the recurrence, whether the two polynomials have changed places,
// the pivot and the witness; `None` where the order would be more than half the number of moments. The number of products
// is added.
fn advance<T: RingWord, R: Reducer<T>>(
    r: &R,
    moments: &[T],
    i: usize,
    locator: &mut [T],
    other: &mut [T],
    degree: usize,
    pivot: T,
    witness: T,
    products: &mut u128,
) -> Option<(usize, bool, T, T)>
    requires moments { AreChecked R.Reducer T.number r.now moments.now }
    requires inside { i < length moments.now }
    requires locator { AreChecked R.Reducer T.number r.now locator.old }
    requires other { AreChecked R.Reducer T.number r.now other.old }
    requires locator_places { length locator.old ≡ length moments.now / 2 + 1 }
    requires other_places { length other.old ≡ length moments.now / 2 + 1 }
    requires pivot { IsChecked R.Reducer T.number r.now pivot }
    requires witness { IsChecked R.Reducer T.number r.now witness }
    requires search { let m = R.modulus r.now in
        IsSearch m (length moments.now) i degree (R.value m (T.number pivot)) (R.value m (T.number witness))
        (entry T.number R.value m locator.old) (entry T.number R.value m other.old) (entry T.number R.value m moments.now) }
    ensures checked_locator { AreChecked R.Reducer T.number r.now locator.new }
    ensures checked_other { AreChecked R.Reducer T.number r.now other.new }
    ensures forms { IfSome result (λ f. IsChecked R.Reducer T.number r.now f.2 × IsChecked R.Reducer T.number r.now f.3) }
    ensures advanced { let m = R.modulus r.now in let t = entry T.number R.value m moments.now in
        MatchOption result (NeedManyWeights m (length moments.now) t)
        (λ f. IsSearch m (length moments.now) (i + 1) f.0 (R.value m (T.number f.2)) (R.value m (T.number f.3))
        (entry T.number R.value m (if f.1 then other.new else locator.new))
        (entry T.number R.value m (if f.1 then locator.new else other.new)) t) }
    ensures counted { products.new ≤ products.old + 3 * (length moments.now / 2 + 1) }
    ensures grown { products.old ≤ products.new }
{
    let from = i - degree;
    let discrepancy = apply(r, locator, degree + 1, moments, from);
    *products = products.saturating_add(degree as u128 + 1);
    if from < degree {
        let q = degree - 1 - from;
        combine(r, &pivot, locator, degree + 1, &discrepancy, q, other);
        *products = products.saturating_add(2 * (degree as u128 + 1) - q as u128);
        return Some((degree, false, pivot, witness));
    }
    if r.is_zero(&discrepancy) {
        return Some((degree, false, pivot, witness));
    }
    if from + 1 > moments.len() / 2 {
        return None;
    }
    let q = from + 1 - degree;
    combine(r, &discrepancy, other, from + 2, &pivot, q, locator);
    let next = extend_witness(r, witness, &discrepancy);
    *products = products.saturating_add(2 * (from as u128 + 2) - q as u128 + 1);
    Some((from + 1, true, discrepancy, next))
}

// Writes a polynomial without other coefficients than the constant one.
#[tactic(auto, using(num_modular::specs::Callers::entry_kept, num_modular::specs::Callers::entry_past, num_modular::specs::Callers::entry_written, num_modular::specs::Callers::forms_written, num_modular::specs::Callers::held_entry, num_modular::specs::Callers::held_forms, num_modular::specs::Callers::hold_more, ring_codes::proofs::Counts::zero_mod))]
fn set_constant<T: RingWord, R: Reducer<T>>(r: &R, constant: &T, polynomial: &mut [T])
    requires constant { IsChecked R.Reducer T.number r.now constant.now }
    requires some { 0 < length polynomial.old }
    ensures checked { AreChecked R.Reducer T.number r.now polynomial.new }
    ensures constant { let m = R.modulus r.now in
        entry T.number R.value m polynomial.new 0 ≡ R.value m (T.number constant.now) }
    ensures others { let m = R.modulus r.now in (l : ℕ) → l ≢ 0 → entry T.number R.value m polynomial.new l ≡ 0 }
{
    let zero = r.transform(T::zero());
    'coefficients: for i in 0..polynomial.len() {
        polynomial[i] = zero;
    }
    polynomial[0] = *constant;
}

// Takes one moment more into account, for the locator in the first or in the second list.
fn step<T: RingWord, R: Reducer<T>>(
    r: &R,
    moments: &[T],
    i: usize,
    first: &mut [T],
    second: &mut [T],
    state: (usize, bool, T, T),
    products: &mut u128,
) -> Option<(usize, bool, T, T)>
    requires moments { AreChecked R.Reducer T.number r.now moments.now }
    requires inside { i < length moments.now }
    requires first { AreChecked R.Reducer T.number r.now first.old }
    requires second { AreChecked R.Reducer T.number r.now second.old }
    requires first_places { length first.old ≡ length moments.now / 2 + 1 }
    requires second_places { length second.old ≡ length moments.now / 2 + 1 }
    requires pivot { IsChecked R.Reducer T.number r.now state.2 }
    requires witness { IsChecked R.Reducer T.number r.now state.3 }
    requires search { let m = R.modulus r.now in
        IsSearch m (length moments.now) i state.0 (R.value m (T.number state.2)) (R.value m (T.number state.3))
        (entry T.number R.value m (if state.1 then first.old else second.old))
        (entry T.number R.value m (if state.1 then second.old else first.old)) (entry T.number R.value m moments.now) }
    ensures checked_first { AreChecked R.Reducer T.number r.now first.new }
    ensures checked_second { AreChecked R.Reducer T.number r.now second.new }
    ensures forms { IfSome result (λ f. IsChecked R.Reducer T.number r.now f.2 × IsChecked R.Reducer T.number r.now f.3) }
    ensures advanced { let m = R.modulus r.now in let t = entry T.number R.value m moments.now in
        MatchOption result (NeedManyWeights m (length moments.now) t)
        (λ f. IsSearch m (length moments.now) (i + 1) f.0 (R.value m (T.number f.2)) (R.value m (T.number f.3))
        (entry T.number R.value m (if f.1 then first.new else second.new))
        (entry T.number R.value m (if f.1 then second.new else first.new)) t) }
    ensures counted { products.new ≤ products.old + 3 * (length moments.now / 2 + 1) }
    ensures grown { products.old ≤ products.new }
{
    if state.1 {
        match advance(
            r, moments, i, first, second, state.0, state.2, state.3, products,
        ) {
            None => None,
            Some(next) => Some((next.0, !next.1, next.2, next.3)),
        }
    } else {
        advance(
            r, moments, i, second, first, state.0, state.2, state.3, products,
        )
    }
}

/// Finds the locator of N moments: a polynomial s of small degree L for which the sum of s_l·moments_(h + l) over all l is
/// 0, for each h below N - L.
///
/// Returns L, which is at most N/2; whether `first` holds the coefficients of the locator, the constant first (else `second`
/// does); and a witness: if it has an inverse modulo m, so has s_L. It isn't 0, unless m is 1.
///
/// Moments are power sums of weights w at points x: the one at h is the sum of w_i·x_i^h. Of all weights that have these
/// moments at least L aren't 0. If so few aren't 0 that their number and L add up to at most N, and the differences of the
/// points have inverses, then each w_i·s(x_i) is 0. If all moments are u·x^h, where u isn't 0 and N is at least 2, then s is
/// u·(x - X).
///
/// `None` only if of all weights that have these moments more than N/2 aren't 0. What the lists hold before is ignored.
/// The number of products is added to `products`: at most 3·N·(N/2 + 1).
///
/// Source: the algorithm of Berlekamp and Massey ("Shift-register synthesis and BCH decoding"); without division, as
/// Burton, "Inversionless decoding of binary BCH codes".
///
/// # Preconditions
///
/// - the moments are checked forms
/// - each list has N/2 + 1 places
pub fn find_locator<T: RingWord, R: Reducer<T>>(
    r: &R,
    moments: &[T],
    first: &mut [T],
    second: &mut [T],
    products: &mut u128,
) -> Option<(usize, bool, T)>
    requires moments { AreChecked R.Reducer T.number r.now moments.now }
    requires first_places { length first.old ≡ length moments.now / 2 + 1 }
    requires second_places { length second.old ≡ length moments.now / 2 + 1 }
    ensures checked_first { AreChecked R.Reducer T.number r.now first.new }
    ensures checked_second { AreChecked R.Reducer T.number r.now second.new }
    ensures located { let m = R.modulus r.now in let t = entry T.number R.value m moments.now in
        MatchOption result (NeedManyWeights m (length moments.now) t) (λ f. IsLocator m (length moments.now) f.0
        (entry T.number R.value m (if f.1 then first.new else second.new)) t) }
    ensures witness { IfSome result (λ f. IsChecked R.Reducer T.number r.now f.2) }
    ensures nonzero { let m = R.modulus r.now in IfSome result (λ f. m ≢ 1 → R.value m (T.number f.2) ≢ 0) }
    ensures unit { let m = R.modulus r.now in IfSome result (λ f. HasInverse m (R.value m (T.number f.2)) →
        HasInverse m (entry T.number R.value m (if f.1 then first.new else second.new) f.0)) }
    ensures one { let m = R.modulus r.now in IfSome result (λ f. (u x : ℕ) → 2 ≤ length moments.now →
        IsGeometric m (length moments.now) u x (entry T.number R.value m moments.now) →
        IsLinear m u x f.0 (entry T.number R.value m (if f.1 then first.new else second.new))) }
    ensures counted { products.new ≤ products.old + 3 * length moments.now * (length moments.now / 2 + 1) }
    ensures grown { products.old ≤ products.new }
{
    let one = r.transform(T::one());
    let zero = r.transform(T::zero());
    set_constant(r, &one, first);
    set_constant(r, &zero, second);
    let mut state = (0, true, one, one);
    'moments: for i in 0..moments.len() {
        match step(r, moments, i, first, second, state, products) {
            None => return None,
            Some(next) => state = next,
        }
    }
    Some((state.0, state.1, state.3))
}
