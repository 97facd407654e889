// The estimator: charge used, resistance of the pack, charge left, and the two flags. Volts alone mislead: a half-full pack sags under load, and a spent one recovers at low throttle.

ghost use Rattle.std.specs.Prelude.{◌≡◌};
ghost use Rattle.relay_batt.specs.Estimator.{new_estimator_of, reset_of, consumed_of, big_step_of, blend_of, r_est_of, rest_volts_of, soc_of, shown_of, latched_of, with_amps_of, volts_only_of, estimator_update_of};

use crate::config::BattConfig;
use crate::curve::{ocv_soc_cell, sanitize};
use crate::latch::TripLatch;

// The estimated state of the battery, as it is shown; before the first reading the default, all zero and false. A degraded one has no amps: they are 0.
#[derive(Clone, Copy, Debug, Default)]
pub struct BattState {
    pub volts: f32,
    pub rest_volts: f32,
    pub current_a: f32,
    pub consumed_mah: f32,
    pub soc: f32,
    pub r_est: f32,
    pub low: bool,
    pub critical: bool,
    pub degraded: bool,
}

// A pack's configuration, and what one reading leaves for the next. No Option of `prev_v` and `prev_i`: the record writes them also where `have_prev` is false.
#[derive(Clone, Copy, Debug)]
pub struct BatteryEstimator {
    pub cfg: BattConfig,
    pub consumed_mah: f32,
    pub r_est: f32,
    pub prev_v: f32,
    pub prev_i: f32,
    pub have_prev: bool,
    pub low: TripLatch,
    pub critical: TripLatch,
}

// The estimator after a reading, and the state to be shown.
#[derive(Clone, Copy, Debug)]
pub struct Updated {
    pub est: BatteryEstimator,
    pub state: BattState,
}

impl BatteryEstimator {
    // Volts and amps beyond these are a sensor's error.
    pub const V_MAX: f32 = 60.0;

    pub const I_MAX: f32 = 500.0;

    pub const DT_MAX: f32 = 1.0;

    pub const R_MIN: f32 = 0.001;

    pub const R_MAX: f32 = 0.2;

    // In a smaller step of current the noise is larger than what it says.
    pub const R_STEP_MIN_A: f32 = 5.0;

    pub const R_ALPHA: f32 = 0.05;

    pub const MAH_PER_A_S: f32 = 1000.0 / 3600.0;

    // Nothing used, and the resistance that the configuration gives.
    #[tactic(auto, unfolding(crate::specs::Estimator::new_estimator_of))]
    pub fn new(cfg: BattConfig) -> BatteryEstimator
        ensures { result ≡ new_estimator_of cfg }
    {
        let r_est = sanitize(
            cfg.r_internal,
            Self::R_MIN,
            Self::R_MAX,
            BattConfig::FALLBACK_R_INTERNAL,
        );
        BatteryEstimator {
            cfg,
            consumed_mah: 0.0,
            r_est,
            prev_v: 0.0,
            prev_i: 0.0,
            have_prev: false,
            low: TripLatch::default(),
            critical: TripLatch::default(),
        }
    }

    // A new pack: count and latches anew. The resistance is kept, since the wiring's is part of it.
    #[tactic(auto, unfolding(crate::specs::Estimator::reset_of))]
    pub fn reset(self) -> BatteryEstimator
        ensures { result ≡ reset_of self }
    {
        BatteryEstimator {
            consumed_mah: 0.0,
            have_prev: false,
            low: TripLatch::default(),
            critical: TripLatch::default(),
            ..self
        }
    }

    // The charge used after `dt` seconds of `i` amps, at most the capacity, so that it can't drift away.
    #[tactic(auto, unfolding(crate::specs::Estimator::consumed_of))]
    fn consumed(self, dt: f32, i: f32) -> f32
        ensures { result ≡ consumed_of self dt i }
    {
        let cap = self.cfg.capacity();
        sanitize(
            self.consumed_mah + i * dt * Self::MAH_PER_A_S,
            0.0,
            cap,
            cap,
        )
    }

    // A step of current large enough to judge the resistance by; NaN is one.
    #[tactic(auto, unfolding(crate::specs::Estimator::big_step_of))]
    fn big_step(di: f32) -> bool
        ensures { result ≡ big_step_of di }
    {
        !(-Self::R_STEP_MIN_A..=Self::R_STEP_MIN_A).contains(&di)
    }

    // The resistance moved towards what a step of volts and amps says.
    #[tactic(auto, unfolding(crate::specs::Estimator::blend_of))]
    fn blend(r_est: f32, dv: f32, di: f32) -> f32
        ensures { result ≡ blend_of r_est dv di }
    {
        let r_sample = sanitize(-dv / di, Self::R_MIN, Self::R_MAX, r_est);
        sanitize(
            r_est + Self::R_ALPHA * (r_sample - r_est),
            Self::R_MIN,
            Self::R_MAX,
            BattConfig::FALLBACK_R_INTERNAL,
        )
    }

    // The resistance after `v` volts with `i` amps.
    #[tactic(auto, unfolding(crate::specs::Estimator::r_est_of))]
    fn resistance(self, v: f32, i: f32) -> f32
        ensures { result ≡ r_est_of self v i }
    {
        let di = i - self.prev_i;
        if self.have_prev && Self::big_step(di) {
            return Self::blend(self.r_est, v - self.prev_v, di);
        }
        self.r_est
    }

    // The volts without the sag.
    #[tactic(auto, unfolding(crate::specs::Estimator::rest_volts_of))]
    fn rest_volts(v: f32, i: f32, r_est: f32) -> f32
        ensures { result ≡ rest_volts_of v i r_est }
    {
        sanitize(v + i * r_est, 0.0, Self::V_MAX, 0.0)
    }

    // The lower of the charge left by the count and the charge by the curve: the pack is healthy only where both say so.
    #[tactic(auto, unfolding(crate::specs::Estimator::soc_of, crate::specs::Estimator::soc_coulomb_of))]
    fn soc(cfg: BattConfig, consumed_mah: f32, rest: f32) -> f32
        ensures { result ≡ soc_of cfg consumed_mah rest }
    {
        let cap = cfg.capacity();
        let coulomb = sanitize(1.0 - consumed_mah / cap, 0.0, 1.0, 0.0);
        let ocv = ocv_soc_cell(cfg.per_cell(rest));
        // No `min`: std's leaves open which of 0 and -0 it returns.
        if coulomb < ocv {
            return coulomb;
        }
        ocv
    }

    // The state that this estimator shows.
    #[tactic(auto, unfolding(crate::specs::Estimator::shown_of))]
    fn shown(
        self,
        volts: f32,
        rest_volts: f32,
        current_a: f32,
        soc: f32,
        degraded: bool,
    ) -> BattState
        ensures { result ≡ shown_of self volts rest_volts current_a soc degraded }
    {
        BattState {
            volts,
            rest_volts,
            current_a,
            consumed_mah: self.consumed_mah,
            soc,
            r_est: self.r_est,
            low: self.low.latched,
            critical: self.critical.latched,
            degraded,
        }
    }

    // With the latches `dt` seconds on, each below its threshold or not.
    fn latched(self, dt: f32, low: bool, critical: bool) -> BatteryEstimator
        ensures { result ≡ latched_of self dt low critical }
    {
        let debounce_s = self.cfg.debounce_s;
        BatteryEstimator {
            low: self.low.update(dt, low, debounce_s),
            critical: self.critical.update(dt, critical, debounce_s),
            ..self
        }
    }

    // Volts with amps, cut to their ranges.
    #[tactic(auto, unfolding(crate::specs::Estimator::with_amps_of))]
    fn with_amps(self, dt: f32, v: f32, i: f32) -> Updated
        ensures { result ≡ with_amps_of self dt v i }
    {
        let cfg = self.cfg;
        let consumed_mah = self.consumed(dt, i);
        let r_est = self.resistance(v, i);
        let rest = Self::rest_volts(v, i, r_est);
        let soc = Self::soc(cfg, consumed_mah, rest);
        let est = BatteryEstimator {
            consumed_mah,
            r_est,
            prev_v: v,
            prev_i: i,
            have_prev: true,
            ..self.latched(dt, soc < cfg.low_soc, soc < cfg.crit_soc)
        };
        Updated {
            est,
            state: est.shown(v, rest, i, soc, false),
        }
    }

    // Volts alone, cut to their range: what was used is unknown and held, and sag can't be told from discharge, so the thresholds are in volts and trip earlier.
    #[tactic(auto, unfolding(crate::specs::Estimator::volts_only_of))]
    fn volts_only(self, dt: f32, v: f32) -> Updated
        ensures { result ≡ volts_only_of self dt v }
    {
        let cfg = self.cfg;
        let v_cell = cfg.per_cell(v);
        let low = v_cell < cfg.low_v_cell_fallback;
        let critical = v_cell < cfg.crit_v_cell_fallback;
        let est = BatteryEstimator {
            have_prev: false,
            ..self.latched(dt, low, critical)
        };
        Updated {
            est,
            state: est.shown(v, v, 0.0, ocv_soc_cell(v_cell), true),
        }
    }

    // A reading of volts, with amps or without.
    #[tactic(auto, unfolding(crate::specs::Estimator::estimator_update_of))]
    pub fn update(self, dt_s: f32, volts: f32, amps: Option<f32>) -> Updated
        ensures { result ≡ estimator_update_of self dt_s volts amps }
    {
        let dt = sanitize(dt_s, 0.0, Self::DT_MAX, 0.0);
        let v = sanitize(volts, 0.0, Self::V_MAX, 0.0);
        match amps {
            Some(amps) => self.with_amps(dt, v, sanitize(amps, 0.0, Self::I_MAX, 0.0)),
            None => self.volts_only(dt, v),
        }
    }
}
