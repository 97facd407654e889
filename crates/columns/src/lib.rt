// Fields and lines of a sheet: eleven bytes a number.
#![tactic(auto)]

pub mod field;
pub mod line;
