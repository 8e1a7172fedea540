//! The known values of each operation.

ghost use Rattle.std.specs.Prelude.{◌≤◌};

use super::any_operands::{difference, power, signed};
use super::inverses::{
    INVERSES, INVERSES_OF_16_BITS, INVERSES_OF_32_BITS, INVERSES_OF_64_BITS, INVERSES_OF_SIZES,
    WIDE_INVERSES, assert_inverses,
};
use crate::tests::assert_nth;
use modular_prim::numbered::Numbered;
use modular_prim::operations::{ModularAbs, ModularCoreOps, ModularPow, ModularUnaryOps};
use modular_prim::plain_word::PlainWord;
use modular_prim::power::{powm_u32, powm_u64};
use modular_symbols::reference_operations::ModularRefOps;
use std::process::Abort;

#[derive(Clone, Copy)]
enum Operation {
    Sum,
    Difference,
    Product,
    Power,
    Negative,
    Double,
    Square,
}

// Each operation with its operands by value and by reference.
fn sums<T: PlainWord>(a: &T, b: &T, m: &T) -> (T, T, T, T)
    requires { 1 ≤ T.whole_number m.now }
{
    (
        (*a).addm(*b, m),
        (*a).addm(b, m),
        a.addm(*b, m),
        a.addm(b, m),
    )
}

fn differences<T: PlainWord>(a: &T, b: &T, m: &T) -> (T, T, T, T)
    requires { 1 ≤ T.whole_number m.now }
{
    (
        (*a).subm(*b, m),
        difference(*a, b, m),
        difference(a, *b, m),
        a.subm(b, m),
    )
}

fn products<T: PlainWord>(a: &T, b: &T, m: &T) -> (T, T, T, T)
    requires { 1 ≤ T.whole_number m.now }
{
    (
        (*a).mulm(*b, m),
        (*a).mulm(b, m),
        a.mulm(*b, m),
        a.mulm(b, m),
    )
}

fn powers<T: PlainWord>(a: &T, b: &T, m: &T) -> (T, T, T, T)
    requires { 1 ≤ T.whole_number m.now }
{
    (
        power(*a, *b, m),
        (*a).powm(b, m),
        a.powm(*b, m),
        power(a, b, m),
    )
}

// The operations of one operand, which is by value and by reference.
fn multiples<T: PlainWord>(operation: Operation, a: &T, m: &T) -> (T, T)
    requires { 1 ≤ T.whole_number m.now }
{
    match operation {
        Operation::Negative => ((*a).negm(m), a.negm(m)),
        Operation::Double => ((*a).dblm(m), a.dblm(m)),
        _ => ((*a).sqm(m), a.sqm(m)),
    }
}

// What the operation returns for each kind of operands.
fn answers<T: PlainWord>(operation: Operation, a: &T, b: &T, m: &T) -> (T, T, T, T)
    requires { 1 ≤ T.whole_number m.now }
{
    match operation {
        Operation::Sum => sums(a, b, m),
        Operation::Difference => differences(a, b, m),
        Operation::Product => products(a, b, m),
        Operation::Power => powers(a, b, m),
        _ => {
            let found = multiples(operation, a, m);
            (found.0, found.1, found.0, found.1)
        }
    }
}

// What the operation returns by its name for references.
// rust instead: fn answer_of_references<T: ModularRefOps + Copy>(operation: Operation, a: &T, b: &T, m: &T) -> T
fn answer_of_references<T: ModularRefOps>(operation: Operation, a: &T, b: &T, m: &T) -> T
    requires { 1 ≤ T.whole_number m.now }
{
    match operation {
        Operation::Sum => a.addm_ref(b, m),
        Operation::Difference => a.subm_ref(b, m),
        Operation::Product => a.mulm_ref(b, m),
        Operation::Power => a.powm_ref(b, m),
        Operation::Negative => a.negm_ref(m),
        Operation::Double => a.dblm_ref(m),
        Operation::Square => a.sqm_ref(m),
    }
}

// Two operands, the modulus, and the residue of the result. The last operations have one operand, the first.
const ROWS: &[(Operation, u8, u8, u8, u8)] = &[
    (Operation::Sum, 0, 0, 5, 0),
    (Operation::Sum, 1, 2, 5, 3),
    (Operation::Sum, 2, 2, 5, 4),
    (Operation::Sum, 3, 2, 5, 0),
    (Operation::Sum, 6, 1, 5, 2),
    (Operation::Sum, 11, 7, 5, 3),
    (Operation::Sum, 7, 11, 5, 3),
    (Operation::Sum, 12, 13, 5, 0),
    (Operation::Sum, u8::MAX, u8::MAX, 254, 2),
    (Operation::Sum, 11, 9, 7, 6),
    (Operation::Difference, 0, 0, 7, 0),
    (Operation::Difference, 11, 9, 7, 2),
    (Operation::Difference, 5, 2, 7, 3),
    (Operation::Difference, 2, 5, 7, 4),
    (Operation::Difference, 6, 7, 7, 6),
    (Operation::Difference, 1, 7, 7, 1),
    (Operation::Difference, 7, 1, 7, 6),
    (Operation::Difference, 0, 6, 7, 1),
    (Operation::Difference, 15, 1, 7, 0),
    (Operation::Difference, 1, 15, 7, 0),
    (Operation::Difference, 12, 13, 5, 4),
    (Operation::Product, 0, 0, 7, 0),
    (Operation::Product, 11, 9, 7, 1),
    (Operation::Product, 5, 2, 7, 3),
    (Operation::Product, 6, 7, 7, 0),
    (Operation::Product, 0, 6, 7, 0),
    (Operation::Product, 15, 1, 7, 1),
    (Operation::Product, 12, 13, 5, 1),
    (Operation::Power, 0, 0, 7, 1),
    (Operation::Power, 11, 9, 7, 1),
    (Operation::Power, 5, 2, 7, 4),
    (Operation::Power, 2, 5, 7, 4),
    (Operation::Power, 6, 7, 7, 6),
    (Operation::Power, 7, 1, 7, 0),
    (Operation::Power, 0, 6, 7, 0),
    (Operation::Power, 15, 1, 7, 1),
    (Operation::Power, 255, 255, 7, 6),
    (Operation::Power, 255, 255, 10, 5),
    (Operation::Power, 255, 0, 1, 0),
    (Operation::Power, 255, 255, 1, 0),
    (Operation::Power, 3, 0, 1, 0),
    (Operation::Power, 12, 13, 5, 2),
    (Operation::Negative, 0, 0, 5, 0),
    (Operation::Negative, 2, 0, 5, 3),
    (Operation::Negative, 1, 0, 5, 4),
    (Operation::Negative, 5, 0, 5, 0),
    (Operation::Negative, 12, 0, 5, 3),
    (Operation::Negative, 11, 0, 7, 3),
    (Operation::Double, 0, 0, 5, 0),
    (Operation::Double, 2, 0, 5, 4),
    (Operation::Double, 1, 0, 5, 2),
    (Operation::Double, 5, 0, 5, 0),
    (Operation::Double, 12, 0, 5, 4),
    (Operation::Double, 11, 0, 7, 1),
    (Operation::Double, 3, 0, 5, 1),
    (Operation::Square, 0, 0, 5, 0),
    (Operation::Square, 2, 0, 5, 4),
    (Operation::Square, 1, 0, 5, 1),
    (Operation::Square, 5, 0, 5, 0),
    (Operation::Square, 12, 0, 5, 4),
    (Operation::Square, 11, 0, 7, 2),
    (Operation::Square, 4, 0, 7, 2),
];

const ROWS_OF_64_BITS: &[(Operation, u64, u64, u64, u64)] = &[
    (Operation::Sum, u64::MAX, u64::MAX, 18446744073709551614, 2),
    // With a product for each factor this power wouldn't end.
    (
        Operation::Power,
        3,
        9223372036854775778,
        18446744073709551557,
        18446744073709551556,
    ),
];

const ROWS_OF_SIZES: &[(Operation, usize, usize, usize, usize)] = &[
    (Operation::Sum, usize::MAX, 1, usize::MAX, 1),
    (
        Operation::Power,
        3,
        9223372036854775778,
        18446744073709551557,
        18446744073709551556,
    ),
];

// Whether the operation returns this for each kind of operands.
fn is_right<T: PlainWord + ModularRefOps>(
    operation: Operation,
    a: &T,
    b: &T,
    m: &T,
    want: T,
) -> bool {
    !m.is_zero_word()
        && answers(operation, a, b, m) == (want, want, want, want)
        && answer_of_references(operation, a, b, m) == want
}

fn assert_rows<S: Copy, T: PlainWord + ModularRefOps + From<S>>(
    rt: &impl Abort,
    rows: &[(Operation, S, S, S, S)],
) {
    for i in 0..rows.len() {
        let (operation, a, b, m, want) = rows[i];
        let (a, b, m) = (&T::from(a), &T::from(b), &T::from(m));
        assert_nth(rt, i, is_right(operation, a, b, m, T::from(want)));
    }
}

fn assert_operations<T: PlainWord + ModularRefOps + From<u8>>(rt: &impl Abort) {
    assert_rows::<u8, T>(rt, ROWS);
    assert_inverses::<u8, T>(rt, INVERSES);
}

// The rows of each word of 16 bits and more, and those of one width.
fn assert_wide_operations<T: PlainWord + ModularRefOps + From<u8> + From<u16>>(
    rt: &impl Abort,
    rows: &[(Operation, T, T, T, T)],
    inverses: &[(T, T, Option<T>)],
) {
    assert_operations::<T>(rt);
    assert_inverses::<u16, T>(rt, WIDE_INVERSES);
    assert_rows::<T, T>(rt, rows);
    assert_inverses::<T, T>(rt, inverses);
}

#[test]
fn operations_at_each_width(rt: HostRuntime) {
    let rt = &rt;
    assert_operations::<u8>(rt);
    assert_wide_operations::<u16>(rt, &[], INVERSES_OF_16_BITS);
    assert_wide_operations::<u32>(rt, &[], INVERSES_OF_32_BITS);
    assert_wide_operations::<u64>(rt, ROWS_OF_64_BITS, INVERSES_OF_64_BITS);
    assert_wide_operations::<usize>(rt, ROWS_OF_SIZES, INVERSES_OF_SIZES);
}

#[test]
fn powers_by_name(rt: HostRuntime) {
    let of_32_bits = (powm_u32(5, 3, 0), powm_u32(5, 3, 1), powm_u32(2, 10, 1000));
    let of_64_bits = (
        powm_u64(2, 10, 1000),
        powm_u64(2, 10, 0),
        powm_u64(3, 9223372036854775778, 18446744073709551557),
    );
    check!(&rt, 1; (of_32_bits, of_64_bits) == ((0, 0, 24), (24, 0, 18446744073709551556)));
}

// A number and its residue modulo 5.
const SIGNED: &[(i8, u8)] = &[
    (0, 0),
    (-2, 3),
    (-1, 4),
    (-5, 0),
    (-12, 3),
    (7, 2),
    (i8::MIN, 2),
];

fn assert_signed<M: Numbered + Copy + PartialEq + From<u8>, Z: ModularAbs<M> + From<i8>>(
    rt: &impl Abort,
    five: M,
)
    requires { 1 ≤ M.whole_number five }
{
    for &(z, want) in SIGNED {
        check!(rt, 1; signed(Z::from(z), &five) == M::from(want));
    }
}

#[test]
fn signed_numbers(rt: HostRuntime) {
    let rt = &rt;
    assert_signed::<u8, i8>(rt, 5);
    assert_signed::<u16, i16>(rt, 5);
    assert_signed::<u32, i32>(rt, 5);
    assert_signed::<u64, i64>(rt, 5);
    assert_signed::<u128, i128>(rt, 5);
    assert_signed::<usize, isize>(rt, 5);
    check!(rt, 1; i64::MIN.absm(&18446744073709551615) == 9223372036854775807);
    check!(rt, 2; i128::MIN.absm(&7) == 5);
}
