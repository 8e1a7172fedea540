//! Rows of the reducers of any modulus, at each width.

use crate::tests::assert_at;
use crate::tests::residues::{Call, Row, is_right_modulo};
use modular_barrett::premul::PreMulInv2by1;
use modular_monty::montgomery::Montgomery;
use modular_monty::odd_montgomery::OddMontgomery;
use modular_prim::plain_word::PlainWord;
use modular_reduced::reducer::Reducer;
use modular_reduced::vanilla::Vanilla;
use std::process::Abort;

// Of which reducers a row is right.
enum Reducers {
    Each,
    Plain,
    Scaled,
    Montgomery,
}

// Whether the row is right of these reducers of its modulus. Generic in the word, as each call with a known reducer
// takes long to prove.
fn is_right<T: PlainWord>(row: &(Reducers, T, Row<T>)) -> bool {
    let m = row.1;
    if m.is_zero_word() {
        return false;
    }
    let plain = is_right_modulo(&Vanilla::<T>::new(&m), m, &row.2);
    // rust instead: let scaled = is_right_modulo(&PreMulInv2by1::<T>::of(m), m, &row.2);
    let scaled = is_right_modulo(&PreMulInv2by1::<T>::new(m), m, &row.2);
    // rust instead: let montgomery = is_right_modulo(&Montgomery::<T>::of(m), m, &row.2);
    let montgomery = is_right_modulo(&Montgomery::<T>::new(m), m, &row.2);
    let odd = match OddMontgomery::<T>::checked_new(m) {
        Some(ring) => is_right_modulo(&ring, m, &row.2),
        None => !m.is_odd(),
    };
    match row.0 {
        Reducers::Each => plain && scaled && montgomery && odd,
        Reducers::Plain => plain,
        Reducers::Scaled => scaled,
        Reducers::Montgomery => montgomery && odd,
    }
}

fn assert_rows<T: PlainWord>(rt: &impl Abort, rows: &[(Reducers, T, Row<T>)]) {
    for i in 0..rows.len() {
        assert_at(rt, is_right(&rows[i]), &i);
    }
}

// Rows: the reducers, the modulus, and a question with what is right. First come those of the greatest modulus of each
// width. A row that says nothing of forms is right of each reducer.
#[rattlefmt::skip]
macro_rules! rows {
    ($greatest:expr; $($row:expr,)*) => {
        &[
            (Reducers::Each, $greatest, Row::Residue(Call::Sum, ($greatest - 1, $greatest - 2), $greatest - 3)),
            (Reducers::Each, $greatest, Row::Residue(Call::SumInPlace, ($greatest - 1, $greatest - 2), $greatest - 3)),
            (Reducers::Each, $greatest, Row::Residue(Call::Double, ($greatest - 1, 0), $greatest - 2)),
            (Reducers::Each, $greatest, Row::Residue(Call::Difference, ($greatest - 1, $greatest - 2), 1)),
            (Reducers::Each, $greatest, Row::Residue(Call::DifferenceInPlace, ($greatest - 1, $greatest - 2), 1)),
            (Reducers::Each, $greatest, Row::Residue(Call::Negative, ($greatest - 1, 0), 1)),
            (Reducers::Each, $greatest,
                Row::Residue(Call::DifferenceTimesFirst, ($greatest - 1, $greatest - 2), $greatest - 1)),
            (Reducers::Each, $greatest, Row::Residue(Call::Product, ($greatest - 1, $greatest - 2), 2)),
            (Reducers::Each, $greatest, Row::Residue(Call::ProductInPlace, ($greatest - 1, $greatest - 2), 2)),
            (Reducers::Each, $greatest, Row::Residue(Call::Square, ($greatest - 1, 0), 1)),
            (Reducers::Each, $greatest, Row::Residue(Call::Power, ($greatest - 1, 3), $greatest - 1)),
            (Reducers::Each, $greatest, Row::InverseResidue($greatest - 1, Some($greatest - 1))),
            (Reducers::Each, $greatest, Row::InverseResidue($greatest - 2, Some($greatest / 2))),
            (Reducers::Each, $greatest, Row::Check($greatest - 1, true)),
            (Reducers::Each, $greatest, Row::Check($greatest, false)),
            (Reducers::Each, $greatest, Row::IsZero(Call::Load, ($greatest - 1, 0), false)),
            (Reducers::Each, $greatest, Row::IsZero(Call::Difference, ($greatest - 1, $greatest - 1), true)),
            $($row,)*
        ]
    };
}

#[rattlefmt::skip]
const OF_8_BITS: &[(Reducers, u8, Row<u8>)] = rows! { u8::MAX;
    // 7 has no inverse
    (Reducers::Each, 21, Row::Residue(Call::Sum, (26, 7), 12)),
    (Reducers::Each, 21, Row::Residue(Call::SumInPlace, (26, 7), 12)),
    (Reducers::Each, 21, Row::Residue(Call::Double, (26, 0), 10)),
    (Reducers::Each, 21, Row::Residue(Call::Difference, (26, 7), 19)),
    (Reducers::Each, 21, Row::Residue(Call::DifferenceInPlace, (26, 7), 19)),
    (Reducers::Each, 21, Row::Residue(Call::Negative, (26, 0), 16)),
    (Reducers::Each, 21, Row::Residue(Call::DifferenceTimesFirst, (26, 7), 11)),
    (Reducers::Each, 21, Row::Residue(Call::Product, (26, 7), 14)),
    (Reducers::Each, 21, Row::Residue(Call::ProductInPlace, (26, 7), 14)),
    (Reducers::Each, 21, Row::Residue(Call::Square, (26, 0), 4)),
    (Reducers::Each, 21, Row::Residue(Call::Power, (26, 0), 1)),
    (Reducers::Each, 21, Row::InverseResidue(26, Some(17))),
    (Reducers::Each, 21, Row::InverseResidue(7, None)),
    (Reducers::Plain, 21, Row::Check(5, true)),
    (Reducers::Each, 21, Row::Check(21, false)),
    (Reducers::Each, 21, Row::IsZero(Call::Load, (26, 0), false)),
    (Reducers::Each, 21, Row::IsZero(Call::Difference, (26, 26), true)),
    (Reducers::Each, 1, Row::Residue(Call::Sum, (255, 0), 0)),
    (Reducers::Each, 1, Row::Residue(Call::SumInPlace, (255, 0), 0)),
    (Reducers::Each, 1, Row::Residue(Call::Double, (255, 0), 0)),
    (Reducers::Each, 1, Row::Residue(Call::Difference, (255, 0), 0)),
    (Reducers::Each, 1, Row::Residue(Call::DifferenceInPlace, (255, 0), 0)),
    (Reducers::Each, 1, Row::Residue(Call::Negative, (255, 0), 0)),
    (Reducers::Each, 1, Row::Residue(Call::DifferenceTimesFirst, (255, 0), 0)),
    (Reducers::Each, 1, Row::Residue(Call::Product, (255, 0), 0)),
    (Reducers::Each, 1, Row::Residue(Call::ProductInPlace, (255, 0), 0)),
    (Reducers::Each, 1, Row::Residue(Call::Square, (255, 0), 0)),
    (Reducers::Each, 1, Row::Residue(Call::Power, (255, 0), 0)),
    (Reducers::Each, 1, Row::InverseResidue(255, Some(0))),
    (Reducers::Each, 1, Row::InverseResidue(0, Some(0))),
    (Reducers::Each, 1, Row::Check(0, true)),
    (Reducers::Each, 1, Row::Check(1, false)),
    (Reducers::Each, 1, Row::IsZero(Call::Load, (255, 0), true)),
    (Reducers::Each, 1, Row::IsZero(Call::Difference, (255, 255), true)),
    (Reducers::Scaled, 21, Row::Check(40, true)),
    (Reducers::Scaled, 21, Row::Check(41, false)),
    (Reducers::Scaled, 21, Row::Check(168, false)),
    (Reducers::Scaled, 21, Row::Form(Call::Load, (5, 0), 40)),
    (Reducers::Scaled, 21, Row::Form(Call::Load, (7, 0), 56)),
    (Reducers::Scaled, 21, Row::Form(Call::Load, (17, 0), 136)),
    (Reducers::Each, 21, Row::InverseResidue(5, Some(17))),
    (Reducers::Each, 21, Row::IsZero(Call::Load, (42, 0), true)),
    (Reducers::Montgomery, 255, Row::Form(Call::Load, (254, 0), 254)),
    (Reducers::Montgomery, 255, Row::Form(Call::Product, (254, 254), 1)),
    (Reducers::Montgomery, 255, Row::Form(Call::Sum, (254, 254), 253)),
    (Reducers::Montgomery, 255, Row::Inverse(254, Some(254))),
    (Reducers::Montgomery, 255, Row::Form(Call::Power, (254, 255), 254)),
    (Reducers::Each, 255, Row::Residue(Call::Load, (254, 0), 254)),
    (Reducers::Each, 255, Row::Residue(Call::Product, (254, 254), 1)),
    (Reducers::Each, 255, Row::Residue(Call::Sum, (254, 254), 253)),
    (Reducers::Each, 255, Row::InverseResidue(254, Some(254))),
    (Reducers::Each, 255, Row::Residue(Call::Power, (254, 255), 254)),
    (Reducers::Montgomery, 253, Row::Form(Call::Load, (252, 0), 250)),
    (Reducers::Montgomery, 253, Row::Form(Call::Product, (252, 252), 3)),
    (Reducers::Montgomery, 253, Row::Form(Call::Sum, (252, 252), 247)),
    (Reducers::Montgomery, 253, Row::Inverse(252, Some(250))),
    (Reducers::Montgomery, 253, Row::Form(Call::Power, (252, 255), 250)),
    (Reducers::Each, 253, Row::Residue(Call::Load, (252, 0), 252)),
    (Reducers::Each, 253, Row::Residue(Call::Product, (252, 252), 1)),
    (Reducers::Each, 253, Row::Residue(Call::Sum, (252, 252), 251)),
    (Reducers::Each, 253, Row::InverseResidue(252, Some(252))),
    (Reducers::Each, 253, Row::Residue(Call::Power, (252, 255), 252)),
    (Reducers::Montgomery, 21, Row::Form(Call::Load, (5, 0), 20)),
    (Reducers::Montgomery, 21, Row::Form(Call::Load, (7, 0), 7)),
    (Reducers::Montgomery, 21, Row::Form(Call::Load, (17, 0), 5)),
    (Reducers::Montgomery, 1, Row::Form(Call::Load, (255, 0), 0)),
    (Reducers::Montgomery, 1, Row::Inverse(255, Some(0))),
    (Reducers::Montgomery, 254, Row::Inverse(253, Some(251))),
    (Reducers::Montgomery, 254, Row::Inverse(2, None)),
    (Reducers::Each, 11, Row::IsZero(Call::Sum, (5, 6), true)),
    (Reducers::Each, 11, Row::IsZero(Call::Sum, (5, 7), false)),
    (Reducers::Each, 5, Row::Residue(Call::Product, (12, 13), 1)),
    (Reducers::Montgomery, 20, Row::Form(Call::Load, (7, 0), 11)),
    (Reducers::Montgomery, 20, Row::Form(Call::Load, (9, 0), 17)),
    (Reducers::Montgomery, 20, Row::Form(Call::Product, (7, 9), 15)),
    (Reducers::Montgomery, 254, Row::Form(Call::Load, (253, 0), 251)),
    (Reducers::Montgomery, 254, Row::Form(Call::Product, (253, 253), 5)),
};

#[rattlefmt::skip]
const OF_16_BITS: &[(Reducers, u16, Row<u16>)] = rows! { u16::MAX;
    (Reducers::Each, 7, Row::Residue(Call::Power, (255, 255), 6)),
    (Reducers::Each, 65535, Row::Residue(Call::Product, (65534, 65533), 2)),
    (Reducers::Each, 65534, Row::Residue(Call::Product, (65533, 65533), 1)),
};

#[rattlefmt::skip]
const OF_32_BITS: &[(Reducers, u32, Row<u32>)] = rows! { u32::MAX;
    (Reducers::Each, 5000, Row::InverseResidue(3, Some(1667))),
    (Reducers::Each, 4294967295, Row::Residue(Call::Product, (4294967294, 4294967293), 2)),
    (Reducers::Each, 4294967294, Row::Residue(Call::Product, (4294967293, 4294967293), 1)),
};

#[rattlefmt::skip]
const OF_64_BITS: &[(Reducers, u64, Row<u64>)] = rows! { u64::MAX;
    (Reducers::Each, 18446744073709551615,
        Row::Residue(Call::Product, (18446744073709551614, 18446744073709551614), 1)),
    (Reducers::Each, 18446744073709551614,
        Row::Residue(Call::Product, (18446744073709551613, 18446744073709551613), 1)),
};

#[rattlefmt::skip]
const OF_SIZES: &[(Reducers, usize, Row<usize>)] = rows! { usize::MAX;
    (Reducers::Each, 1000, Row::Residue(Call::Power, (2, 10), 24)),
    (Reducers::Each, 3, Row::Residue(Call::Product, (5, 7), 2)),
    (Reducers::Each, 6, Row::Residue(Call::Product, (5, 7), 5)),
};

#[test]
fn rows_at_each_width(rt: HostRuntime) {
    let rt = &rt;
    assert_rows(rt, OF_8_BITS);
    assert_rows(rt, OF_16_BITS);
    assert_rows(rt, OF_32_BITS);
    assert_rows(rt, OF_64_BITS);
    assert_rows(rt, OF_SIZES);
}
