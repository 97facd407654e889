// A flag that trips after an excursion has lasted, and stays: a pack does not charge in flight.

ghost use Rattle.std.specs.Prelude.{◌≡◌};
ghost use Rattle.relay_batt.specs.Latch.{trip_of};

// Seconds below the threshold, and whether it has tripped: a record has the seconds of a tripped one too. The default is not tripped and not below.
#[derive(Clone, Copy, Debug, Default)]
pub struct TripLatch {
    pub below_s: f32,
    pub latched: bool,
}

impl TripLatch {
    // `dt` seconds on, below the threshold or not.
    #[tactic(auto, unfolding(crate::specs::Latch::trip_of))]
    pub fn update(self, dt: f32, below: bool, debounce_s: f32) -> TripLatch
        ensures { result ≡ trip_of self dt below debounce_s }
    {
        if self.latched {
            return self;
        }
        if below {
            let below_s = self.below_s + dt;
            return TripLatch {
                below_s,
                latched: below_s >= debounce_s,
            };
        }
        Self::default()
    }

    // Whether it has tripped.
    pub fn is_latched(self) -> bool
        ensures { result ≡ self.latched }
    {
        self.latched
    }
}
