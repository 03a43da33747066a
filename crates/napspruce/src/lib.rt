// The calls of the crates below and the listing of three texts, for other languages: functions with the prefix `napspruce_`, which crate
// napspruce_c exports to C (include/napspruce.h); and what the program prints.
#![tactic(auto)]

pub mod exports;
pub mod listing;
mod numbers;
mod packing;
pub mod printing;
mod texts;
