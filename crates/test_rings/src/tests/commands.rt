//! Runs over the plain reducer of 21.

use super::assert_at;
use super::runs::{run_checked, take_residues};
use num_modular::ring::RingCommand::{Add, Dbl, Div, Inv, Load, Mul, Neg, Pow, Sqr, Sub};
use num_modular::ring::{RingCommand, RunEnd, all_checked, commands_fit};
use num_modular::{Reducer, Vanilla};

// Three forms modulo 21, commands, the end of the run, and the forms that it leaves, which are their residues.
struct Row<'a> {
    start: [u8; 3],
    commands: &'a [RingCommand<u8>],
    end: RunEnd,
    forms: [u8; 3],
}

// Whether the run is so.
fn is_right(row: &Row) -> bool {
    let r = Vanilla::<u8>::new(&21);
    let mut registers = row.start;
    let end = run_checked(&r, row.commands, &mut registers);
    let forms = registers;
    take_residues(&r, &mut registers);
    end == Some(row.end) && forms == row.forms && registers == row.forms
}

#[rattlefmt::skip]
const RUNS: &[Row] = &[
    Row { start: [20, 0, 9], commands: &[], end: RunEnd::Done, forms: [20, 0, 9] },
    Row { start: [5, 4, 19], commands: &[Load { dst: 0, n: 255 }], end: RunEnd::Done, forms: [3, 4, 19] },
    Row { start: [5, 4, 19], commands: &[Add { dst: 0, a: 1, b: 2 }], end: RunEnd::Done, forms: [2, 4, 19] },
    Row { start: [5, 4, 19], commands: &[Sub { dst: 1, a: 1, b: 2 }], end: RunEnd::Done, forms: [5, 6, 19] },
    Row { start: [5, 4, 19], commands: &[Mul { dst: 2, a: 0, b: 1 }], end: RunEnd::Done, forms: [5, 4, 20] },
    Row { start: [5, 4, 19], commands: &[Mul { dst: 0, a: 0, b: 0 }], end: RunEnd::Done, forms: [4, 4, 19] },
    Row { start: [5, 4, 19], commands: &[Neg { dst: 0, a: 2 }], end: RunEnd::Done, forms: [2, 4, 19] },
    Row { start: [5, 4, 19], commands: &[Dbl { dst: 1, a: 2 }], end: RunEnd::Done, forms: [5, 17, 19] },
    Row { start: [5, 4, 19], commands: &[Sqr { dst: 0, a: 2 }], end: RunEnd::Done, forms: [4, 4, 19] },
    Row { start: [5, 4, 19], commands: &[Inv { dst: 2, a: 0 }], end: RunEnd::Done, forms: [5, 4, 17] },
    Row { start: [10, 5, 0], commands: &[Div { dst: 2, a: 0, b: 1 }], end: RunEnd::Done, forms: [10, 5, 2] },
    Row { start: [10, 5, 0], commands: &[Div { dst: 0, a: 0, b: 1 }], end: RunEnd::Done, forms: [2, 5, 0] },
    Row { start: [10, 5, 0], commands: &[Div { dst: 1, a: 0, b: 1 }], end: RunEnd::Done, forms: [10, 2, 0] },
    Row { start: [5, 4, 19], commands: &[Pow { dst: 0, a: 2, exp: 3 }], end: RunEnd::Done, forms: [13, 4, 19] },
    Row { start: [5, 4, 19], commands: &[Pow { dst: 1, a: 2, exp: 0 }], end: RunEnd::Done, forms: [5, 1, 19] },
    Row { start: [0, 0, 0], commands: &[Inv { dst: 0, a: 0 }], end: RunEnd::NoInverse { at: 0 }, forms: [0, 0, 0] },
    Row { start: [0, 0, 0], commands: &[Div { dst: 0, a: 0, b: 0 }], end: RunEnd::NoInverse { at: 0 },
        forms: [0, 0, 0] },
    Row { start: [0, 0, 0], commands: &STOPPING, end: RunEnd::NoInverse { at: 3 }, forms: [5, 7, 17] },
    Row { start: [0, 0, 0], commands: &STOPPING_AT_DIV, end: RunEnd::NoInverse { at: 2 }, forms: [5, 7, 0] },
];

/// The inverse of 7 doesn't exist modulo 21; then comes a sum.
pub const STOPPING: [RingCommand<u8>; 5] = [
    Load { dst: 0, n: 5 },
    Load { dst: 1, n: 7 },
    Inv { dst: 2, a: 0 },
    Inv { dst: 0, a: 1 },
    Add { dst: 0, a: 0, b: 1 },
];

const STOPPING_AT_DIV: [RingCommand<u8>; 4] = [
    Load { dst: 0, n: 5 },
    Load { dst: 1, n: 7 },
    Div { dst: 2, a: 0, b: 1 },
    Load { dst: 2, n: 9 },
];

#[test]
fn the_table_of_runs(rt: HostRuntime) {
    let runs = RUNS;
    for i in 0..runs.len() {
        assert_at(&rt, is_right(&runs[i]), &i);
    }
}

// Commands of which some register number isn't below 3.
const TOO_LARGE: &[RingCommand<u8>] = &[
    Load { dst: 3, n: 1 },
    Div { dst: 3, a: 0, b: 0 },
    Div { dst: 0, a: 3, b: 0 },
    Div { dst: 0, a: 0, b: 3 },
];

#[test]
fn the_conditions_are_told(rt: HostRuntime) {
    let rt = &rt;
    check!(rt, 1; commands_fit::<u8, RingCommand<u8>>(&[], 0));
    // rust instead: 'commands: for &command in TOO_LARGE {
    'commands: for &command in TOO_LARGE {
        check!(rt, 2; !commands_fit(&[command], 3) && commands_fit(&[command], 4));
    }
    let r = Vanilla::<u8>::new(&21);
    check!(rt, 3; all_checked(&r, &[]) && all_checked(&r, &[20]) && !all_checked(&r, &[21]));
}
