//! Calls of a reducer that tests of several reducers share.

ghost use Rattle.modular_reduced.specs.Checked.{IsChecked};
ghost use Rattle.std.specs.Prelude.{◌≤◌};

use modular_reduced::reducer::Reducer;
use modular_word::ring_word::RingWord;

/// The residue of a word.
pub fn remainder<T: RingWord, R: Reducer<T>>(ring: &R, n: T) -> T {
    ring.residue(ring.transform(n))
}

// The residue of an inverse.
fn inverse_residue<T: RingWord, R: Reducer<T>>(ring: &R, x: T) -> Option<T> {
    match ring.inv(ring.transform(x)) {
        Some(form) => Some(ring.residue(form)),
        None => None,
    }
}

/// The residues of a sum, a difference, a product, a double, a negative and a square.
pub fn residues<T: RingWord, R: Reducer<T>>(ring: &R, x: T, y: T) -> [T; 6] {
    let a = ring.transform(x);
    let b = ring.transform(y);
    [
        ring.residue(ring.add(&a, &b)),
        ring.residue(ring.sub(&a, &b)),
        ring.residue(ring.mul(&a, &b)),
        ring.residue(ring.dbl(a)),
        ring.residue(ring.neg(a)),
        ring.residue(ring.sqr(a)),
    ]
}

/// A call of a reducer with the forms of two numbers. Some calls take the first alone.
pub enum Call {
    /// Only the form of the first.
    Load,
    Sum,
    Difference,
    Product,
    /// The double of the first.
    Double,
    /// The negative of the first.
    Negative,
    /// The square of the first.
    Square,
    /// The power of the first, to the second number as an exponent.
    Power,
    /// The difference times the first.
    DifferenceTimesFirst,
    SumInPlace,
    DifferenceInPlace,
    ProductInPlace,
}

// The form that a call leaves in place of a.
fn form_in_place<T: RingWord, R: Reducer<T>>(ring: &R, call: &Call, a: T, b: T) -> T
    requires a { IsChecked R.Reducer T.number ring.now a }
    requires b { IsChecked R.Reducer T.number ring.now b }
    ensures { IsChecked R.Reducer T.number ring.now result }
{
    let mut form = a;
    match call {
        Call::SumInPlace => {
            ring.add_in_place(&mut form, &b);
            form
        }
        Call::DifferenceInPlace => {
            ring.sub_in_place(&mut form, &b);
            form
        }
        Call::ProductInPlace => {
            ring.mul_in_place(&mut form, &b);
            form
        }
        _ => form,
    }
}

// The form that a call returns for two numbers.
fn form<T: RingWord, R: Reducer<T>>(ring: &R, call: &Call, numbers: &(T, T)) -> T
    ensures { IsChecked R.Reducer T.number ring.now result }
{
    let a = ring.transform(numbers.0);
    let b = ring.transform(numbers.1);
    match call {
        Call::Load => a,
        Call::Sum => ring.add(&a, &b),
        Call::Difference => ring.sub(&a, &b),
        Call::Product => ring.mul(&a, &b),
        Call::Double => ring.dbl(a),
        Call::Negative => ring.neg(a),
        Call::Square => ring.sqr(a),
        Call::Power => ring.pow(a, &numbers.1),
        Call::DifferenceTimesFirst => ring.mul_difference(&a, &b, &a),
        _ => form_in_place(ring, call, a, b),
    }
}

/// A question about a reducer, and what is right. No variant has an array of words, because a proof that its size is in
/// bounds takes long.
pub enum Row<T> {
    /// A call, its two numbers, and the form that it returns.
    Form(Call, (T, T), T),
    /// The same, and the residue of the form.
    Residue(Call, (T, T), T),
    /// The same, and whether the value of the form is 0.
    IsZero(Call, (T, T), bool),
    /// A word, and whether it is a form.
    Check(T, bool),
    /// A number, and the form of its inverse.
    Inverse(T, Option<T>),
    /// A number, and the residue of its inverse.
    InverseResidue(T, Option<T>),
}

// Whether the row is right of a reducer.
fn is_right<T: RingWord, R: Reducer<T>>(ring: &R, row: &Row<T>) -> bool {
    match row {
        Row::Form(call, numbers, want) => form(ring, call, numbers) == *want,
        Row::Residue(call, numbers, want) => ring.residue(form(ring, call, numbers)) == *want,
        Row::IsZero(call, numbers, want) => ring.is_zero(&form(ring, call, numbers)) == *want,
        Row::Check(f, want) => ring.check(f) == *want,
        Row::Inverse(n, want) => ring.inv(ring.transform(*n)) == *want,
        Row::InverseResidue(n, want) => inverse_residue(ring, *n) == *want,
    }
}

/// Whether a reducer has this modulus, and the row is right of it.
pub fn is_right_modulo<T: RingWord, R: Reducer<T>>(ring: &R, m: T, row: &Row<T>) -> bool {
    ring.modulus() == m && is_right(ring, row)
}

// A number modulo m.
fn byte(n: u16, m: u8) -> u8
    requires { 1 ≤ m }
{
    (n % m as u16) as u8
}

// The same by plain remainders.
fn remainders(m: u8, x: u8, y: u8) -> [u8; 6]
    requires { 1 ≤ m }
{
    let (n, a, b) = (m as u16, x as u16, y as u16);
    [
        byte(a + b, m),
        byte(a + (n - b % n), m),
        byte(a * b, m),
        byte(2 * a, m),
        byte(n - a % n, m),
        byte(a * a, m),
    ]
}

/// Whether the residues of two bytes are the plain remainders.
pub fn agree<R: Reducer<u8>>(ring: &R, m: u8, x: u8, y: u8) -> bool
    requires { 1 ≤ m }
{
    residues(ring, x, y) == remainders(m, x, y)
}
