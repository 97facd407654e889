// The flight's nouns: what a tick brings, what an opening gives, and all that a tick reads and changes. A limit stands with the type that it limits.
#![tactic(auto)]

pub mod config;
pub mod flight;
pub mod hold;
pub mod mission;
pub mod place;
pub mod point;
pub mod tick;
pub mod zone;

pub use config::{Config, OpeningKind};
pub use flight::{Counts, FlightSupervisor, Opening};
pub use hold::Hold;
pub use mission::{Legs, Mission};
pub use place::Place;
pub use point::{Horizontal, Point};
pub use tick::Tick;
pub use zone::{Zone, Zones};
