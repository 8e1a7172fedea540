//! The ring laws, for the checked forms of any reducer.
//!
//! Each function computes both sides of a law and returns them; its contract says that they are equal. Also the laws of
//! forms and values, by functions with an empty body, and that `==` of integers is an equivalence.

ghost use Rattle.std.specs.Prelude.{◌≡◌, ℕ, ◌+◌, ◌*◌, ◌%◌, ◌^◌, ◌<◌, ◌↔◌, IsTrue, pos, neg_ℤ};
ghost use Rattle.modular_word.specs.Residues.{residue};
ghost use Rattle.modular_reduced.specs.Checked.{IsChecked};
ghost use Rattle.modular_reduced.specs.Forms.{Represents, IsForm};

use crate::modular_integer::ModularInteger;
use crate::reducer::Reducer;
use modular_word::ring_word::RingWord;

/// Both sides of this law: addition is commutative, a + b and b + a.
///
/// # Preconditions
///
/// - a and b are checked forms
#[tactic(auto, using(crate::proofs::RingLaws::same_form))]
pub fn sums_commute<T: RingWord, R: Reducer<T>>(reducer: &R, a: T, b: T) -> (T, T)
    requires a { IsChecked R.Reducer T.number reducer.now a }
    requires b { IsChecked R.Reducer T.number reducer.now b }
    ensures same { result.0 ≡ result.1 }
    ensures left { let m = R.modulus reducer.now in
        Represents R.form m (T.number result.0) ((R.value m (T.number a) + R.value m (T.number b)) % m) }
    ensures right { let m = R.modulus reducer.now in
        Represents R.form m (T.number result.1) ((R.value m (T.number b) + R.value m (T.number a)) % m) }
{
    (reducer.add(&a, &b), reducer.add(&b, &a))
}

/// Both sides of this law: addition is associative, (a + b) + c and a + (b + c).
///
/// # Preconditions
///
/// - a, b and c are checked forms
pub fn sums_associate<T: RingWord, R: Reducer<T>>(reducer: &R, a: T, b: T, c: T) -> (T, T)
    requires a { IsChecked R.Reducer T.number reducer.now a }
    requires b { IsChecked R.Reducer T.number reducer.now b }
    requires c { IsChecked R.Reducer T.number reducer.now c }
    ensures same { result.0 ≡ result.1 }
    ensures left { let m = R.modulus reducer.now in let v = R.value m in
        Represents R.form m (T.number result.0) (((v (T.number a) + v (T.number b)) % m + v (T.number c)) % m) }
    ensures right { let m = R.modulus reducer.now in let v = R.value m in
        Represents R.form m (T.number result.1) ((v (T.number a) + (v (T.number b) + v (T.number c)) % m) % m) }
{
    let left = reducer.add(&reducer.add(&a, &b), &c);
    let right = reducer.add(&a, &reducer.add(&b, &c));
    (left, right)
}

/// Both sides of this law: multiplication is commutative, a b and b a.
///
/// # Preconditions
///
/// - a and b are checked forms
#[tactic(auto, using(crate::proofs::RingLaws::same_form))]
pub fn products_commute<T: RingWord, R: Reducer<T>>(reducer: &R, a: T, b: T) -> (T, T)
    requires a { IsChecked R.Reducer T.number reducer.now a }
    requires b { IsChecked R.Reducer T.number reducer.now b }
    ensures same { result.0 ≡ result.1 }
    ensures left { let m = R.modulus reducer.now in
        Represents R.form m (T.number result.0) ((R.value m (T.number a) * R.value m (T.number b)) % m) }
    ensures right { let m = R.modulus reducer.now in
        Represents R.form m (T.number result.1) ((R.value m (T.number b) * R.value m (T.number a)) % m) }
{
    (reducer.mul(&a, &b), reducer.mul(&b, &a))
}

/// Both sides of this law: multiplication is associative, (a b) c and a (b c).
///
/// # Preconditions
///
/// - a, b and c are checked forms
pub fn products_associate<T: RingWord, R: Reducer<T>>(reducer: &R, a: T, b: T, c: T) -> (T, T)
    requires a { IsChecked R.Reducer T.number reducer.now a }
    requires b { IsChecked R.Reducer T.number reducer.now b }
    requires c { IsChecked R.Reducer T.number reducer.now c }
    ensures same { result.0 ≡ result.1 }
    ensures left { let m = R.modulus reducer.now in let v = R.value m in
        Represents R.form m (T.number result.0) (((v (T.number a) * v (T.number b)) % m * v (T.number c)) % m) }
    ensures right { let m = R.modulus reducer.now in let v = R.value m in
        Represents R.form m (T.number result.1) ((v (T.number a) * ((v (T.number b) * v (T.number c)) % m)) % m) }
{
    let left = reducer.mul(&reducer.mul(&a, &b), &c);
    let right = reducer.mul(&a, &reducer.mul(&b, &c));
    (left, right)
}

/// Both sides of this law: multiplication distributes over addition, a (b + c) and a b + a c.
///
/// # Preconditions
///
/// - a, b and c are checked forms
pub fn products_distribute<T: RingWord, R: Reducer<T>>(reducer: &R, a: T, b: T, c: T) -> (T, T)
    requires a { IsChecked R.Reducer T.number reducer.now a }
    requires b { IsChecked R.Reducer T.number reducer.now b }
    requires c { IsChecked R.Reducer T.number reducer.now c }
    ensures same { result.0 ≡ result.1 }
    ensures left { let m = R.modulus reducer.now in let v = R.value m in
        Represents R.form m (T.number result.0) ((v (T.number a) * ((v (T.number b) + v (T.number c)) % m)) % m) }
    ensures right { let m = R.modulus reducer.now in let v = R.value m in
        Represents R.form m (T.number result.1)
        (((v (T.number a) * v (T.number b)) % m + (v (T.number a) * v (T.number c)) % m) % m) }
{
    let left = reducer.mul(&a, &reducer.add(&b, &c));
    let right = reducer.add(&reducer.mul(&a, &b), &reducer.mul(&a, &c));
    (left, right)
}

/// The negative, and its sum with a: returns -a, and a + (-a), which is the form of 0.
///
/// # Preconditions
///
/// - a is a checked form
pub fn negative_cancels<T: RingWord, R: Reducer<T>>(reducer: &R, a: T) -> (T, T)
    requires { IsChecked R.Reducer T.number reducer.now a }
    ensures negative { let m = R.modulus reducer.now in
        Represents R.form m (T.number result.0) (residue m (neg_ℤ (pos (R.value m (T.number a))))) }
    ensures zero { Represents R.form (R.modulus reducer.now) (T.number result.1) 0 }
{
    let negative = reducer.neg(a);
    (negative, reducer.add(&a, &negative))
}

/// n mod m, by its form.
pub fn residue_by_form<T: RingWord, R: Reducer<T>>(reducer: &R, n: T) -> T
    ensures { T.number result ≡ T.number n % R.modulus reducer.now }
{
    reducer.residue(reducer.transform(n))
}

/// Whether two forms are of equal values: that is exactly where the forms are equal.
///
/// # Preconditions
///
/// - a and b are checked forms
pub fn same_value<T: RingWord, R: Reducer<T>>(reducer: &R, a: T, b: T) -> bool
    requires a { IsChecked R.Reducer T.number reducer.now a }
    requires b { IsChecked R.Reducer T.number reducer.now b }
    ensures value { let m = R.modulus reducer.now in
        IsTrue result ↔ (R.value m (T.number a) ≡ R.value m (T.number b)) }
    ensures word { IsTrue result ↔ (a ≡ b) }
{
    reducer.residue(a) == reducer.residue(b)
}

/// Whether `==` is an equivalence: it always is.
pub fn is_equivalence<I: ModularInteger>(a: &I, b: &I, c: &I) -> bool
    ensures { IsTrue result }
{
    // A second name, because linters report `*a == *a`.
    let same = a;
    let reflexive = *a == *same;
    let forth = *a == *b;
    let back = *b == *a;
    let transitive = !(forth && *b == *c) || *a == *c;
    reflexive && forth == back && transitive
}

/// Each value has one form: forms and values are one to one.
///
/// The form of a value v fits a word, is a checked form, and has the value v. A checked form is the form of its value,
/// so that forms of equal values are equal. A word that represents v is a checked form of value v.
pub fn canonical_laws<T: RingWord, R: Reducer<T>>(reducer: &R)
    ensures positive { 0 < R.modulus reducer.now }
    ensures value { let m = R.modulus reducer.now in (v : ℕ) → v < m → R.value m (R.form m v) ≡ v }
    ensures checked { let m = R.modulus reducer.now in (v : ℕ) → v < m → IsForm R.form R.value m (R.form m v) }
    ensures fits { let m = R.modulus reducer.now in (v : ℕ) → v < m → R.form m v < 2 ^ T.width }
    ensures same { let m = R.modulus reducer.now in (f g : ℕ) →
        IsForm R.form R.value m f → IsForm R.form R.value m g → R.value m f ≡ R.value m g → f ≡ g }
    ensures word { let m = R.modulus reducer.now in (a b : T) →
        IsForm R.form R.value m (T.number a) → IsForm R.form R.value m (T.number b) →
        R.value m (T.number a) ≡ R.value m (T.number b) → a ≡ b }
    ensures stands { let m = R.modulus reducer.now in (f v : ℕ) →
        Represents R.form m f v ↔ (IsForm R.form R.value m f × (R.value m f ≡ v)) }
{}
