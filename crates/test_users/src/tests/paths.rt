//! Known values of calls that only this crate makes.

// rattle: line
mod modrun;

use num_modular::DivExact;
use num_modular::monty::neg_mod_inv::{w16, w32, w64, wsize};
use num_modular::preinv::PreModInv;

#[test]
fn prepared_and_negated_inverses(rt: HostRuntime) {
    let rt = &rt;
    check!(rt, 1; 65534u16.div_exact(7, &PreModInv::<u8>::new(183, 36)) == Some(9362));
    check!(rt, 2; w16::neginv(1) == 65535);
    check!(rt, 3; w32::neginv(1) == 4294967295);
    check!(rt, 4; w64::neginv(1) == u64::MAX);
    check!(rt, 5; wsize::neginv(1) as u64 == u64::MAX);
}
