//! Every kind of operand of the operators, known values computed by hand, and equality.

ghost use Rattle.modular_reduced.specs.Integers.{CanDivide, modulus_of};
ghost use Rattle.std.specs.Prelude.{◌≡◌};

use crate::tests::dividers::is_printed;
use crate::tests::modular_integer::{residue_of_sum, sum_in_ring};
use crate::tests::polynomial::{horner, value_by_forms, value_of_bytes};
use crate::tests::reduced_int::{are_equal, difference_modulo_21, five_modulo_21, quotient_if_any};
use modular_barrett::premul::PreMulInv2by1;
use modular_reduced::laws::is_equivalence;
use modular_reduced::modular_integer::ModularInteger;
use modular_reduced::reduced_int::ReducedInt;
use modular_reduced::reducer::Reducer;
use modular_reduced::vanilla::Vanilla;
use modular_word::ring_word::RingWord;
use std::alloc::Global;
use std::fmt::Debug;
use std::process::Abort;
use std::test::Fail;
use test_callers::reduced_int::{quotient_modulo_21, sum_modulo_21};

// n modulo m.
fn integer<T: RingWord, R: Reducer<T> + Copy>(n: T, m: T) -> ReducedInt<T, R>
    requires { R.admits (T.number m) }
    ensures { modulus_of result ≡ T.number m }
{
    ReducedInt::<T, R>::new(n, &m)
}

// Its residue, by value, so that a result of an operator needs no place of its own.
fn residue<T: RingWord, R: Reducer<T> + Copy>(a: ReducedInt<T, R>) -> T {
    a.residue()
}

// The residues of the sums of two integers, for each kind of operands, and after each of two in place.
fn sums_of_two<T: RingWord, R: Reducer<T> + Copy>(
    a: &ReducedInt<T, R>,
    b: &ReducedInt<T, R>,
) -> [T; 6]
    requires { modulus_of a.now ≡ modulus_of b.now }
{
    let mut z = *a;
    z += *b;
    let once = residue(z);
    z += b;
    [
        residue(*a + *b),
        residue(*a + b),
        residue(a + *b),
        residue(a + b),
        once,
        residue(z),
    ]
}

// The residues of the sums of an integer and a word.
fn sums_with_a_word<T: RingWord, R: Reducer<T> + Copy>(a: &ReducedInt<T, R>, n: &T) -> [T; 4] {
    [
        residue(*a + *n),
        residue(*a + n),
        residue(a + *n),
        residue(a + n),
    ]
}

// The residue after a sum with each of two words, in place.
fn sums_with_words_in_place<T: RingWord, R: Reducer<T> + Copy>(
    a: ReducedInt<T, R>,
    first: T,
    second: &T,
) -> [T; 2] {
    let mut z = a;
    z += first;
    let once = residue(z);
    z += second;
    [once, residue(z)]
}

fn assert_sums<R: Reducer<u8> + Copy>(rt: &impl Abort)
    requires { R.admits 21 }
{
    let (a, b) = (&integer::<u8, R>(20, 21), &integer::<u8, R>(5, 21));
    check!(rt, 1; sums_of_two(a, b) == [4, 4, 4, 4, 4, 9]);
    check!(rt, 2; sums_with_a_word(a, &5) == [4; 4]);
    check!(rt, 3; sums_with_words_in_place(integer::<u8, R>(9, 21), 255, &5) == [12, 17]);
}

// The residues of the differences of two integers, for each kind of operands, and after each of two in place.
fn differences_of_two<T: RingWord, R: Reducer<T> + Copy>(
    a: &ReducedInt<T, R>,
    b: &ReducedInt<T, R>,
) -> [T; 6]
    requires { modulus_of a.now ≡ modulus_of b.now }
{
    let mut z = *a;
    z -= *b;
    let once = residue(z);
    z -= b;
    [
        residue(*a - *b),
        residue(*a - b),
        residue(a - *b),
        residue(a - b),
        once,
        residue(z),
    ]
}

// The residues of the differences of an integer and a word.
fn differences_with_a_word<T: RingWord, R: Reducer<T> + Copy>(
    a: &ReducedInt<T, R>,
    n: &T,
) -> [T; 4] {
    [
        residue(*a - *n),
        residue(*a - n),
        residue(a - *n),
        residue(a - n),
    ]
}

// The residue after a difference with each of two words, in place.
fn differences_with_words_in_place<T: RingWord, R: Reducer<T> + Copy>(
    a: ReducedInt<T, R>,
    first: T,
    second: &T,
) -> [T; 2] {
    let mut z = a;
    z -= first;
    let once = residue(z);
    z -= second;
    [once, residue(z)]
}

fn assert_differences<R: Reducer<u8> + Copy>(rt: &impl Abort)
    requires { R.admits 21 }
{
    let (a, b) = (&integer::<u8, R>(3, 21), &integer::<u8, R>(5, 21));
    check!(rt, 4; differences_of_two(a, b) == [19, 19, 19, 19, 19, 14]);
    check!(rt, 5; differences_with_a_word(a, &5) == [19; 4]);
    check!(rt, 6; differences_with_words_in_place(integer::<u8, R>(14, 21), 255, &5) == [11, 6]);
    check!(rt, 7; differences_with_a_word(b, &255) == [2; 4]);
}

// The residues of the products of two integers, for each kind of operands, and after each of two in place.
fn products_of_two<T: RingWord, R: Reducer<T> + Copy>(
    a: &ReducedInt<T, R>,
    b: &ReducedInt<T, R>,
) -> [T; 6]
    requires { modulus_of a.now ≡ modulus_of b.now }
{
    let mut z = *a;
    z *= *b;
    let once = residue(z);
    z *= b;
    [
        residue(*a * *b),
        residue(*a * b),
        residue(a * *b),
        residue(a * b),
        once,
        residue(z),
    ]
}

// The residues of the products of an integer and a word.
fn products_with_a_word<T: RingWord, R: Reducer<T> + Copy>(a: &ReducedInt<T, R>, n: &T) -> [T; 4] {
    [
        residue(*a * *n),
        residue(*a * n),
        residue(a * *n),
        residue(a * n),
    ]
}

// The residue after a product with each of two words, in place.
fn products_with_words_in_place<T: RingWord, R: Reducer<T> + Copy>(
    a: ReducedInt<T, R>,
    first: T,
    second: &T,
) -> [T; 2] {
    let mut z = a;
    z *= first;
    let once = residue(z);
    z *= second;
    [once, residue(z)]
}

fn assert_products<R: Reducer<u8> + Copy>(rt: &impl Abort)
    requires of_21 { R.admits 21 }
    requires of_5 { R.admits 5 }
{
    let (a, b) = (&integer::<u8, R>(10, 21), &integer::<u8, R>(5, 21));
    check!(rt, 8; products_of_two(a, b) == [8, 8, 8, 8, 8, 19]);
    check!(rt, 9; products_with_a_word(a, &5) == [8; 4]);
    check!(rt, 10; products_with_words_in_place(integer::<u8, R>(19, 21), 255, &5) == [15, 12]);
    check!(rt, 11; products_with_a_word(&integer::<u8, R>(12, 5), &13) == [1; 4]);
}

// The residues of the quotients of two integers, for each kind of operands.
fn quotients_of_two<T: RingWord, R: Reducer<T> + Copy>(
    a: &ReducedInt<T, R>,
    b: &ReducedInt<T, R>,
) -> [T; 4]
    requires { CanDivide a.now b.now }
{
    [
        residue(*a / *b),
        residue(*a / b),
        residue(a / *b),
        residue(a / b),
    ]
}

fn negatives<T: RingWord, R: Reducer<T> + Copy>(a: &ReducedInt<T, R>) -> [T; 2] {
    [residue(-*a), residue(-a)]
}

// The residue of an integer, if there is one.
fn residue_if_any<T: RingWord, R: Reducer<T> + Copy>(a: Option<ReducedInt<T, R>>) -> Option<T> {
    match a {
        Some(a) => Some(a.residue()),
        None => None,
    }
}

fn assert_quotients<R: Reducer<u8> + Copy>(rt: &impl Abort)
    requires of_21 { R.admits 21 }
    requires of_22 { R.admits 22 }
{
    let (ten, seven) = (integer::<u8, R>(10, 21), integer::<u8, R>(7, 21));
    let five = five_modulo_21::<R>();
    check!(rt, 12; quotients_of_two(&ten, &five) == [2; 4]);
    check!(rt, 13; residue_if_any(quotient_if_any(ten, seven)) == None);
    check!(rt, 14; residue_if_any(quotient_if_any(ten, integer::<u8, R>(5, 22))) == None);
    check!(rt, 15; residue_if_any(quotient_if_any(ten, five)) == Some(2));
    check!(rt, 16; residue_if_any(seven.inv()) == None);
    check!(rt, 17; residue_if_any(five.inv()) == Some(17));
}

// The modulus, the residue and the form of an integer, and the residues of its double and its square.
fn parts<T: RingWord, R: Reducer<T> + Copy>(a: &ReducedInt<T, R>) -> [T; 5] {
    [
        a.modulus(),
        a.residue(),
        *a.repr(),
        residue(a.double()),
        residue(a.square()),
    ]
}

fn power<T: RingWord, R: Reducer<T> + Copy>(m: T, x: T, exp: T) -> T
    requires { R.admits (T.number m) }
{
    residue(integer::<T, R>(x, m).pow(&exp))
}

// The residue of y modulo the modulus of an integer, and whether each of the two is 0.
fn converted<T: RingWord, R: Reducer<T> + Copy>(a: &ReducedInt<T, R>, y: T) -> (T, bool, bool) {
    let b = a.convert(y);
    (b.residue(), a.is_zero(), b.is_zero())
}

fn assert_methods<R: Reducer<u8> + Copy>(rt: &impl Abort)
    requires of_21 { R.admits 21 }
    requires of_1 { R.admits 1 }
{
    let a = &integer::<u8, R>(255, 21);
    check!(rt, 18; parts(a) == [21, 3, 3, 6, 9]);
    check!(rt, 19; power::<u8, R>(21, 255, 0) == 1);
    check!(rt, 20; power::<u8, R>(21, 255, 5) == 12);
    check!(rt, 21; power::<u8, R>(1, 0, 0) == 0);
    check!(rt, 22; converted(a, 255).0 == 3);
    check!(rt, 23; converted(a, 21) == (0, false, true));
    check!(rt, 24; negatives(&integer::<u8, R>(10, 21)) == [11, 11]);
}

// Whether `==` is reflexive, symmetric and transitive for the integers of a list.
fn are_equivalent<I: ModularInteger>(all: &[&I]) -> bool {
    for &a in all {
        for &b in all {
            for &c in all {
                if !is_equivalence(a, b, c) {
                    return false;
                }
            }
        }
    }
    true
}

// The residue of the polynomial of no coefficients.
fn residue_of_nothing<I: ModularInteger + Copy>(x: I) -> I::Base {
    horner(&[], x).residue()
}

fn assert_any_integers<R: Reducer<u8> + Copy>(rt: &impl Abort)
    requires of_7 { R.admits 7 }
    requires of_11 { R.admits 11 }
    requires of_21 { R.admits 21 }
{
    let (three, other) = (integer::<u8, R>(3, 7), integer::<u8, R>(3, 11));
    let seven = integer::<u8, R>(10, 7);
    check!(rt, 25; are_equal(&seven, &three));
    check!(rt, 26; !are_equal(&three, &other));
    check!(rt, 27; are_equivalent(&[&three, &seven, &other]));
    check!(rt, 35; seven.eq_in_same_ring(&three));
    check!(rt, 36; !seven.eq_in_same_ring(&integer::<u8, R>(4, 7)));
    check!(rt, 28; residue_of_nothing(integer::<u8, R>(7, 21)) == 0);
}

fn assert_copied<R: Reducer<u8> + Copy + Debug>(rt: &impl Abort, alloc: Global) -> Result<(), Fail>
    requires { R.admits 21 }
{
    let a = &integer::<u8, R>(255, 21);
    check!(rt, 30; a.clone()? == *a);
    check!(rt, 31; is_printed(alloc, a));
    Ok(())
}

// Generic in the reducer, as each call with integers of a known reducer takes long to prove.
fn assert_integers<R: Reducer<u8> + Copy>(rt: &impl Abort)
    requires of_1 { R.admits 1 }
    requires of_5 { R.admits 5 }
    requires of_7 { R.admits 7 }
    requires of_11 { R.admits 11 }
    requires of_21 { R.admits 21 }
    requires of_22 { R.admits 22 }
{
    assert_sums::<R>(rt);
    assert_differences::<R>(rt);
    assert_products::<R>(rt);
    assert_quotients::<R>(rt);
    assert_methods::<R>(rt);
    assert_any_integers::<R>(rt);
    check!(rt, 29; difference_modulo_21::<R>() == 2);
}

#[test]
fn integers_of_bytes(rt: HostRuntime) -> Result<(), Fail> {
    let rt = &rt;
    assert_integers::<Vanilla<u8>>(rt);
    assert_copied::<Vanilla<u8>>(rt, rt.alloc())?;
    check!(rt, 32; sum_modulo_21() == 4);
    check!(rt, 33; quotient_modulo_21() == 2);
    check!(rt, 34; value_of_bytes() == 19);
    Ok(())
}

// The residue of a + a, and that of x + y by the integers of its ring.
fn double_and_sum<I: ModularInteger<Base = u64> + Copy>(a: I, x: u64, y: u64) -> [u64; 2] {
    [residue_of_sum(a, a), sum_in_ring(a, x, y)]
}

// Both for the integer of x modulo m.
fn sums_modulo<R: Reducer<u64> + Copy>(m: u64, x: u64, y: u64) -> [u64; 2]
    requires { R.admits m }
{
    double_and_sum(ReducedInt::<u64, R>::new(x, &m), x, y)
}

#[test]
fn integers_of_64_bits(rt: HostRuntime) {
    let rt = &rt;
    // 2^64 - 59
    let (m, top) = (18446744073709551557, u64::MAX);
    check!(rt, 1; sums_modulo::<Vanilla<u64>>(m, top, top - 60) == [116, 56]);
    check!(rt, 2; sums_modulo::<PreMulInv2by1<u64>>(m, top, top - 60) == [116, 56]);
    check!(rt, 3; value_by_forms() == 19);
}
