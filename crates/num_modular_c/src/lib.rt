//! The library for C: functions over words of 64 bits. Each tests its preconditions and returns a code.
//! `c/include/num_modular.h` declares them.
#![tactic(auto)]

mod any_length;
mod check_codes;
mod codes;
mod commands;
mod correctors;
mod dividers;
mod erasure;
mod form_lists;
mod lists;
mod montgomery;
mod montgomery_lists;
mod plain;
mod plan_squares;
mod plan_value;
mod planned;
mod plans;
mod polynomials;
mod prefixes;
mod residues;
mod runs;
mod searches;
mod secrets;
mod solinas;
mod symbols;
mod transforms;
mod users;
mod version;
mod word_lists;
