// Which mode: every event that a tick or a report gives the mode machine.
#![tactic(auto)]

pub mod failsafe;
pub mod milestone;
