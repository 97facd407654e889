// The battery without its pack as 21 numbers. Named functions and no From: the name says which part of a line they are.

ghost use Rattle.std.specs.Prelude.{◌≡◌};
ghost use Rattle.relay_batt.specs.Numbers.{estimator_numbers_of, state_numbers_of, silence_numbers_of};

use crate::battery::Battery;
use crate::estimator::{BattState, BatteryEstimator};
use relay_math::to_bits;

// Used, resistance, volts and amps before and whether there were any, and the two latches with their seconds below.
#[tactic(auto, unfolding(crate::specs::Numbers::estimator_numbers_of))]
pub fn estimator_numbers(e: BatteryEstimator) -> [u32; 9]
    ensures { result ≡ estimator_numbers_of e }
{
    [
        to_bits(e.consumed_mah),
        to_bits(e.r_est),
        to_bits(e.prev_v),
        to_bits(e.prev_i),
        u32::from(e.have_prev),
        to_bits(e.low.below_s),
        u32::from(e.low.latched),
        to_bits(e.critical.below_s),
        u32::from(e.critical.latched),
    ]
}

// The state shown.
#[tactic(auto, unfolding(crate::specs::Numbers::state_numbers_of))]
pub fn state_numbers(s: BattState) -> [u32; 9]
    ensures { result ≡ state_numbers_of s }
{
    [
        to_bits(s.volts),
        to_bits(s.rest_volts),
        to_bits(s.current_a),
        to_bits(s.consumed_mah),
        to_bits(s.soc),
        to_bits(s.r_est),
        u32::from(s.low),
        u32::from(s.critical),
        u32::from(s.degraded),
    ]
}

// The silence, whether the last tick had a reading, whether any had.
#[tactic(auto, unfolding(crate::specs::Numbers::silence_numbers_of))]
pub fn silence_numbers(b: Battery) -> [u32; 3]
    ensures { result ≡ silence_numbers_of b }
{
    [
        to_bits(b.missing_s),
        u32::from(b.present),
        u32::from(b.seen),
    ]
}
