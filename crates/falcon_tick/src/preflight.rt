// The checks that a tick sets.
ghost use Rattle.std.specs.Prelude.{◌≡◌};
ghost use Rattle.falcon_tick.specs.Preflight.{geofence_sane_of, update_preflight_of, esc_telemetry_of};

use falcon_state::{Config, Tick};
use relay_batt::Battery;
use relay_math::is_finite;
use relay_preflight::{CheckId, CheckTable};

// A finite fence above 0 and a finite home: with a NaN no vehicle is outside.
#[tactic(auto, unfolding(crate::specs::Preflight::geofence_sane_of))]
fn geofence_sane(c: Config) -> bool
    ensures { result ≡ geofence_sane_of c }
{
    let fence = is_finite(c.fence_radius) & (c.fence_radius > 0.0);
    fence & (is_finite(c.home.x) & is_finite(c.home.y) & is_finite(c.home.z))
}

// The rows that the supervisor knows from its own state; the battery is the one before this tick's reading.
#[tactic(auto, unfolding(crate::specs::Preflight::update_preflight_of, crate::specs::Preflight::integrity_rows_of, crate::specs::Preflight::nav_rows_of, crate::specs::Preflight::readiness_rows_of))]
pub fn update_preflight(
    k: CheckTable,
    c: Config,
    b: Battery,
    latched: bool,
    outside: bool,
    t: Tick,
) -> CheckTable
    ensures { result ≡ update_preflight_of k c b latched outside t }
{
    let s = b.state;
    // The estimator and the configuration.
    k.set(CheckId::SensorsHealthy, !t.nav_compromised)
        .set(
            CheckId::EstimatorConverged,
            t.tilt_uncertainty < Tick::PREARM_TILT_UNCERT_MAX,
        )
        .set(CheckId::CalibrationPresent, c.calibration_configured)
        .set(CheckId::GeofenceLoaded, c.fence_radius > 0.0)
        // The battery, and the navigation's integrity: a pack that says nothing is not ok.
        .set(CheckId::BatteryOk, b.present & !(s.low | s.critical))
        .set(CheckId::EstimatorInnovation, !t.nav_compromised)
        .set(CheckId::GnssAgreement, !t.gnss_diverged)
        // The hazards themselves block arming while they last, since the latch is cleared while Disarmed.
        .set(CheckId::GeofenceSane, geofence_sane(c))
        .set(
            CheckId::BatteryTakeoffMargin,
            s.degraded | (s.soc >= Tick::TAKEOFF_MARGIN_SOC),
        )
        .set(CheckId::MotorsHealthy, !t.failed_motor)
        .set(CheckId::InsideGeofence, !outside)
        .set(CheckId::NoFailsafeLatched, !latched & !s.low & !s.critical)
}

// Motor rpm is seen, or missed where the opening requires it: who need not show any is not held to it.
#[tactic(auto, unfolding(crate::specs::Preflight::esc_telemetry_of))]
pub fn esc_telemetry(k: CheckTable, rpm: bool) -> CheckTable
    ensures { result ≡ esc_telemetry_of k rpm }
{
    if rpm | k.is_required(CheckId::EscTelemetry) {
        return k.set(CheckId::EscTelemetry, rpm);
    }
    k
}
