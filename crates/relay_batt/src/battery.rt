// The battery as the supervisor holds it: the estimator, what is shown, and how long no reading came.

ghost use Rattle.std.specs.Prelude.{◌≡◌};
ghost use Rattle.relay_batt.specs.Battery.{new_battery_of, update_of, heard_of, lost_of};

use crate::config::BattConfig;
use crate::estimator::{BattState, BatteryEstimator, Updated};

// What the monitor read: nothing, volts, or volts with amps.
#[derive(Clone, Copy, Debug)]
pub enum Reading {
    Nothing,
    Volts(f32),
    VoltsAmps { volts: f32, amps: f32 },
}

// `missing_s` is the silence, `present` whether the last tick had a reading, `seen` whether any had. No Option of the silence: the record writes it before the first reading too.
#[derive(Clone, Copy, Debug)]
pub struct Battery {
    pub est: BatteryEstimator,
    pub state: BattState,
    pub missing_s: f32,
    pub present: bool,
    pub seen: bool,
}

impl Battery {
    pub const BATT_SILENCE_S: f32 = 1.0;

    // Before the first reading.
    #[tactic(auto, unfolding(crate::specs::Battery::new_battery_of, crate::specs::Estimator::none_of))]
    pub fn new(cfg: BattConfig) -> Battery
        ensures { result ≡ new_battery_of cfg }
    {
        Battery {
            est: BatteryEstimator::new(cfg),
            state: BattState::default(),
            missing_s: 0.0,
            present: false,
            seen: false,
        }
    }

    // After a reading of volts.
    #[tactic(auto, unfolding(crate::specs::Battery::heard_of))]
    fn heard(updated: Updated) -> Battery
        ensures { result ≡ heard_of updated }
    {
        Battery {
            est: updated.est,
            state: updated.state,
            missing_s: 0.0,
            present: true,
            seen: true,
        }
    }

    // `dt` seconds on, with what the monitor read.
    #[tactic(auto, unfolding(crate::specs::Battery::update_of))]
    pub fn update(self, dt: f32, reading: Reading) -> Battery
        ensures { result ≡ update_of self dt reading }
    {
        let (volts, amps) = match reading {
            Reading::Nothing => {
                return Battery {
                    missing_s: self.missing_s + dt,
                    present: false,
                    ..self
                };
            }
            Reading::Volts(volts) => (volts, None),
            Reading::VoltsAmps { volts, amps } => (volts, Some(amps)),
        };
        Self::heard(self.est.update(dt, volts, amps))
    }

    // Silent for too long after a reading was had.
    #[tactic(auto, unfolding(crate::specs::Battery::lost_of))]
    pub fn lost(self) -> bool
        ensures { result ≡ lost_of self }
    {
        self.seen && self.missing_s > Self::BATT_SILENCE_S
    }
}
