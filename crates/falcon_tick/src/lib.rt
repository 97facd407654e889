// One tick of the flight: the checks that it sets, and the paragraphs of the Rust's `step` in their order.
#![tactic(auto)]

pub mod preflight;
pub mod tick;
