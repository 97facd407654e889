// The failsafe policy, by severities. The triggers are bits, in the order of the fields of `Triggers`; bits from 128 on say nothing.

ghost use Rattle.std.specs.Prelude.{◌≡◌};
ghost use Rattle.exports.specs.Policy.{triggers_from_of, policy_number, evaluate_number};

use crate::numbers::{UNKNOWN, is_set};
use relay_fsafe::{FailsafeAction, FailsafeArbiter, Triggers};

// The triggers of the seven lowest bits.
#[tactic(auto, unfolding(crate::specs::Policy::triggers_from_of))]
fn triggers_from(n: u32) -> Triggers
    ensures { result ≡ triggers_from_of n }
{
    Triggers {
        rc_loss: is_set(n, 1),
        datalink_loss: is_set(n, 2),
        geofence_breach: is_set(n, 4),
        position_loss: is_set(n, 8),
        low_battery: is_set(n, 16),
        critical_battery: is_set(n, 32),
        offboard_stale: is_set(n, 64),
    }
}

// The severity of `Triggers::policy_action`.
#[tactic(auto, unfolding(crate::specs::Policy::policy_number))]
#[unsafe(no_mangle)]
pub extern "C" fn bartsemmo_policy(triggers: u32) -> u32
    ensures { result ≡ policy_number triggers }
{
    u32::from(triggers_from(triggers).policy_action())
}

// The severity of what `FailsafeArbiter::evaluate` latches, or UNKNOWN where `latched` is no severity.
#[tactic(auto, unfolding(crate::specs::Policy::evaluate_number))]
#[unsafe(no_mangle)]
pub extern "C" fn bartsemmo_evaluate(latched: u32, triggers: u32) -> u32
    ensures { result ≡ evaluate_number latched triggers }
{
    FailsafeAction::try_from(latched).map_or(UNKNOWN, |latched| {
        let arbiter = FailsafeArbiter { latched };
        u32::from(arbiter.evaluate(triggers_from(triggers)).action())
    })
}
