// The failsafe arbiter: resolves the raised triggers to the gravest of their actions, and latches it.
#![tactic(auto)]

ghost use Rattle.std.specs.Prelude.{◌≡◌, ok_or};
ghost use Rattle.relay_fsafe.specs.Fsafe.{severity_of, action_at, graver_of, bump_of, policy_action_of, evaluate_of};

use std::error::Error;
use std::fmt;

// What the flight stack does, from the least to the most severe: the derived order is that of severity.
#[derive(Clone, Copy, Debug, PartialEq, Eq, PartialOrd, Ord, Hash)]
pub enum FailsafeAction {
    // Fly the commanded mode.
    None,
    // Hold position and altitude, and wait for what may resume.
    Hold,
    // Return to launch; needs a position.
    Rtl,
    // Land here: there is no position, or no time, to fly home.
    Land,
    // Cut the motors.
    Terminate,
}

// The place in the order of severity.
impl From<FailsafeAction> for u32 {
    ghost from_gives = { λ a n. n ≡ severity_of a };

    fn from(action: FailsafeAction) -> u32 {
        match action {
            FailsafeAction::None => 0,
            FailsafeAction::Hold => 1,
            FailsafeAction::Rtl => 2,
            FailsafeAction::Land => 3,
            FailsafeAction::Terminate => 4,
        }
    }
}

// A number that is no action's severity. An error of its own, whose Display says of what.
#[derive(Clone, Copy, Debug, PartialEq, Eq, Hash)]
pub struct UnknownAction(pub u32);

impl fmt::Display for UnknownAction {
    fn fmt<W: fmt::Write>(&self, f: &mut fmt::Formatter<W>) -> fmt::Result {
        write!(f, "no action has severity {}", self.0)
    }
}

impl Error for UnknownAction {}

// The action of this severity.
#[tactic(auto, unfolding(crate::specs::Fsafe::action_at))]
impl TryFrom<u32> for FailsafeAction {
    type Error = UnknownAction;

    ghost try_from_gives = { λ n r. r ≡ ok_or (action_at n) (record { 0 = n }) };

    fn try_from(n: u32) -> Result<FailsafeAction, UnknownAction> {
        match n {
            0 => Ok(FailsafeAction::None),
            1 => Ok(FailsafeAction::Hold),
            2 => Ok(FailsafeAction::Rtl),
            3 => Ok(FailsafeAction::Land),
            4 => Ok(FailsafeAction::Terminate),
            _ => Err(UnknownAction(n)),
        }
    }
}

// The triggers that are raised in this cycle.
#[derive(Clone, Copy, Debug, PartialEq, Eq, Hash)]
pub struct Triggers {
    // The pilot's link is lost.
    pub rc_loss: bool,
    // The ground station's datalink is lost.
    pub datalink_loss: bool,
    // Outside the geofence.
    pub geofence_breach: bool,
    // No valid position estimate.
    pub position_loss: bool,
    // The battery is below the low threshold.
    pub low_battery: bool,
    // The battery is below the critical threshold.
    pub critical_battery: bool,
    // The offboard setpoints have gone stale.
    pub offboard_stale: bool,
}

impl Triggers {
    // The gravest action that a raised trigger asks for. Position loss asks for Land, which is graver than Rtl: without a position there is no way home.
    #[tactic(auto, unfolding(crate::specs::Fsafe::policy_action_of))]
    pub fn policy_action(self) -> FailsafeAction
        ensures { result ≡ policy_action_of self }
    {
        let mut a = FailsafeAction::None;
        #[tactic(auto, unfolding(crate::specs::Fsafe::bump_of, crate::specs::Fsafe::graver_of))]
        let mut bump = |raised: bool, act: FailsafeAction|
            ensures { a.exit ≡ bump_of a.entry raised act }
        {
            if raised && act > a {
                a = act;
            }
        };
        bump(self.offboard_stale, FailsafeAction::Hold);
        bump(self.rc_loss, FailsafeAction::Rtl);
        bump(self.datalink_loss, FailsafeAction::Rtl);
        bump(self.geofence_breach, FailsafeAction::Rtl);
        bump(self.low_battery, FailsafeAction::Rtl);
        bump(self.position_loss, FailsafeAction::Land);
        bump(self.critical_battery, FailsafeAction::Land);
        a
    }
}

// Latches the gravest action since the last reset.
#[derive(Clone, Copy, Debug, PartialEq, Eq, Hash)]
pub struct FailsafeArbiter {
    pub latched: FailsafeAction,
}

impl FailsafeArbiter {
    // An arbiter with nothing latched.
    pub fn new() -> FailsafeArbiter
        ensures { result ≡ record { latched = FailsafeAction.None } }
    {
        FailsafeArbiter {
            latched: FailsafeAction::None,
        }
    }

    // The arbiter after this cycle's triggers; what it latches is the action to take. A trigger that was raised for a moment is not forgotten.
    #[tactic(auto, unfolding(crate::specs::Fsafe::evaluate_of, crate::specs::Fsafe::graver_of))]
    pub fn evaluate(self, t: Triggers) -> FailsafeArbiter
        ensures { result ≡ evaluate_of self t }
    {
        let immediate = t.policy_action();
        FailsafeArbiter {
            latched: self.latched.max(immediate),
        }
    }

    // The action that is latched.
    pub fn action(self) -> FailsafeAction
        ensures { result ≡ self.latched }
    {
        self.latched
    }

    // The arbiter with the latch cleared, on the ground.
    pub fn reset(self) -> FailsafeArbiter
        ensures { result ≡ record { latched = FailsafeAction.None } }
    {
        FailsafeArbiter::new()
    }
}
