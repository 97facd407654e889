// Where to fly: waypoints, keep-out zones, the hold point, and the setpoint of each mode.
#![tactic(auto)]

pub mod geometry;
pub mod hold;
pub mod legs;
mod lent;
pub mod mission;
pub mod setpoint;
pub mod zones;
