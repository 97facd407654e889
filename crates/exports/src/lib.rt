// `extern "C"` functions for the harness: numbers and slices of numbers, a float as its bits; what reads and writes them is a function and no From, since the types are other crates'. A flag is 1 where it is true; 0 is answered where it is false, and any number but 1 is read so.
#![tactic(auto)]

pub mod batt;
pub mod checks;
pub mod floats;
pub mod modes;
pub mod numbers;
pub mod policy;
