//! What `bench/` measures: functions that each do n dependent steps on words.
//!
//! Each has the form `bench_NAME(x, y, m, n)`, in words of 64 bits unless the name says another width, or
//! `bench_NAME(operation, x, y, m, n)`, where a number gives the operation. The driver observes the `requires` on
//! m. The functions of `transforms`, `runs` and `users` take lists, and those of `counts` return a number of steps.
#![tactic(auto)]

mod chains;
mod counts;
mod dividers;
mod lattices;
mod lists;
mod long_products;
mod plain;
mod plans;
mod rings;
mod runs;
mod symbols;
mod transforms;
mod users;
