// From a line of a sheet to what it asks, and how much room its answer needs.
#![tactic(auto)]

pub mod kinds;
pub mod need;
pub mod parse;
