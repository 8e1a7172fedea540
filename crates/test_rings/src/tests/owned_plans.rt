//! Known transforms by plans that keep their tables.

use super::assert_at;
use super::plan_rows::are_same;
use num_modular::plans::{Factor, OwnedPlan, PlannedModulus};
// rattle: line
use std::convert::AsSlice;
use test_callers::plans::all_in_room;

// Whether there is a plan, with this modulus, root and number of factors.
// rust instead: fn is_plan<S: AsRef<[Factor<u64>]>>(
fn is_plan<S: AsSlice<Factor<u64>> + Drop>(
    made: &Option<OwnedPlan<u64, Factor<u64>, S>>,
    m: u64,
    root: u64,
    factors: usize,
) -> bool {
    match made {
        Some(owned) => {
            let plan = owned.plan();
            plan.modulus().modulus == m && plan.root() == root && plan.length() / 2 == factors
        }
        None => false,
    }
}

#[test]
fn plans_with_arrays(rt: HostRuntime) {
    let m = PlannedModulus::<u64>::new(85);
    let by_13 = OwnedPlan::<u64, Factor<u64>, [Factor<u64>; 2]>::new(&m, 13);
    assert_at(&rt, is_plan(&by_13, 85, 13, 2), &1);
    // a root that isn't below the modulus, and one that doesn't suit
    let by_98 = OwnedPlan::<u64, Factor<u64>, [Factor<u64>; 2]>::new(&m, 98);
    assert_at(&rt, by_98.is_none(), &2);
    let by_2 = OwnedPlan::<u64, Factor<u64>, [Factor<u64>; 2]>::new(&m, 2);
    assert_at(&rt, by_2.is_none(), &3);
    // a length that isn't twice a power of two, and an even modulus
    let of_6 = OwnedPlan::<u64, Factor<u64>, [Factor<u64>; 3]>::new(&m, 13);
    assert_at(&rt, of_6.is_none(), &4);
    let even = PlannedModulus::<u64>::new(20);
    let by_19 = OwnedPlan::<u64, Factor<u64>, [Factor<u64>; 1]>::new(&even, 19);
    assert_at(&rt, by_19.is_none(), &5);
}

// Whether the plan by 4 modulo 17 transforms a list so, and back.
// rust instead: fn transforms<S: AsRef<[Factor<u64>]>>(owned: &OwnedPlan<u64, Factor<u64>, S>) -> bool {
fn transforms<S: AsSlice<Factor<u64>> + Drop>(owned: &OwnedPlan<u64, Factor<u64>, S>) -> bool {
    let (plan, mut xs) = (owned.plan(), [1, 2, 3, 4]);
    let m = plan.modulus();
    if !plan.fits(4) || !all_in_room(&m, &xs) {
        return false;
    }
    plan.transform(&mut xs);
    let there = are_same(&xs, &[10, 7, 15, 6]);
    if !all_in_room(&m, &xs) {
        return false;
    }
    plan.inverse(&mut xs);
    there && are_same(&xs, &[1, 2, 3, 4])
}

// The table of the plan by 4, with its quotients.
const TABLE: [Factor<u64>; 2] = [
    Factor {
        value: 1,
        quotient: 1085102592571150095,
    },
    Factor {
        value: 4,
        quotient: 4340410370284600380,
    },
];

#[test]
fn transforms_by_containers(rt: HostRuntime) {
    let m = PlannedModulus::<u64>::new(17);
    let by_array = match OwnedPlan::<u64, Factor<u64>, [Factor<u64>; 2]>::new(&m, 4) {
        Some(owned) => transforms(&owned),
        None => false,
    };
    assert_at(&rt, by_array, &1);
    let by_slice = match OwnedPlan::<u64, Factor<u64>, &[Factor<u64>]>::with_table(&m, 4, &TABLE) {
        Some(owned) => transforms(&owned),
        None => false,
    };
    assert_at(&rt, by_slice, &2);
    // the table of another root
    let other = OwnedPlan::<u64, Factor<u64>, [Factor<u64>; 2]>::with_table(&m, 13, TABLE);
    assert_at(&rt, other.is_none(), &3);
}
