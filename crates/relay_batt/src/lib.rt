// The battery: what a reading says of the pack, and the two latches that the failsafe acts on.
#![tactic(auto)]

pub mod battery;
pub mod config;
pub mod curve;
pub mod estimator;
pub mod latch;
pub mod numbers;

pub use battery::{Battery, Reading};
pub use config::BattConfig;
pub use curve::{Knot, ocv_soc_cell, sanitize};
pub use estimator::{BattState, BatteryEstimator, Updated};
pub use latch::TripLatch;
