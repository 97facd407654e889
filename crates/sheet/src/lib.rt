// A sheet: a line and its answer, and many lines however they are cut.
#![tactic(auto)]

pub mod entry;
pub mod lines;
pub mod many;
