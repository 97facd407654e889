// The pre-arm check table: which checks the vehicle requires, which have passed, and the first that blocks arming.
#![tactic(auto)]

ghost use Rattle.std.specs.Prelude.{◌≡◌, ok_or};
ghost use Rattle.relay_preflight.specs.Check.{check_number, check_at};
ghost use Rattle.relay_preflight.specs.Table.{bit_of, with_bit_of, new_table_of, set_of, legacy_passed_of, is_required_of, passed_of};
ghost use Rattle.relay_preflight.specs.Table.{fails_of, failing_mask_of, outstanding_of};
ghost use Rattle.relay_preflight.specs.Verdict.{first_blocker_of, blocker_number};

use std::error::Error;
use std::fmt;

// The individual pre-arm checks.
#[derive(Clone, Copy, Debug, PartialEq, Eq, Hash)]
pub enum CheckId {
    SensorsHealthy,
    EstimatorConverged,
    CalibrationPresent,
    GeofenceLoaded,
    BatteryOk,
    FailsafeConfigured,
    EstimatorInnovation,
    GnssAgreement,
    ParamsFromNvm,
    GeofenceSane,
    ThresholdsOrdered,
    SensorsFresh,
    // The motors' speeds arrive.
    EscTelemetry,
    BatteryTakeoffMargin,
    RangefinderPlausible,
    CalibrationFresh,
    RcLink,
    GcsLink,
    NoFailsafeLatched,
    // No motor is known to be at fault: one that stands still can go on reporting, and passes EscTelemetry.
    MotorsHealthy,
    // Inside the geofence now: GeofenceLoaded and GeofenceSane judge the configuration alone.
    InsideGeofence,
}

// How many checks there are.
pub const CHECK_COUNT: u32 = 21;

// The blocker's number where no check blocks: the sheet's last field and the C interface have it.
pub const NO_BLOCKER: u32 = 21;

impl CheckId {
    // Every check, in the order in which the gate tries them.
    pub const ALL: [CheckId; CHECK_COUNT as usize] = [
        CheckId::SensorsHealthy,
        CheckId::EstimatorConverged,
        CheckId::CalibrationPresent,
        CheckId::GeofenceLoaded,
        CheckId::BatteryOk,
        CheckId::FailsafeConfigured,
        CheckId::EstimatorInnovation,
        CheckId::GnssAgreement,
        CheckId::ParamsFromNvm,
        CheckId::GeofenceSane,
        CheckId::InsideGeofence,
        CheckId::ThresholdsOrdered,
        CheckId::SensorsFresh,
        CheckId::EscTelemetry,
        CheckId::MotorsHealthy,
        CheckId::BatteryTakeoffMargin,
        CheckId::RangefinderPlausible,
        CheckId::CalibrationFresh,
        CheckId::RcLink,
        CheckId::GcsLink,
        CheckId::NoFailsafeLatched,
    ];

    // The number of the check that blocks arming; NO_BLOCKER where none does.
    pub fn blocker_number(blocker: Option<CheckId>) -> u32
        ensures { result ≡ blocker_number blocker }
    {
        blocker.map_or(NO_BLOCKER, u32::from)
    }
}

// The check's number: its bit in a mask.
impl From<CheckId> for u32 {
    ghost from_gives = { λ id n. n ≡ check_number id };

    fn from(id: CheckId) -> u32 {
        match id {
            CheckId::SensorsHealthy => 0,
            CheckId::EstimatorConverged => 1,
            CheckId::CalibrationPresent => 2,
            CheckId::GeofenceLoaded => 3,
            CheckId::BatteryOk => 4,
            CheckId::FailsafeConfigured => 5,
            CheckId::EstimatorInnovation => 6,
            CheckId::GnssAgreement => 7,
            CheckId::ParamsFromNvm => 8,
            CheckId::GeofenceSane => 9,
            CheckId::ThresholdsOrdered => 10,
            CheckId::SensorsFresh => 11,
            CheckId::EscTelemetry => 12,
            CheckId::BatteryTakeoffMargin => 13,
            CheckId::RangefinderPlausible => 14,
            CheckId::CalibrationFresh => 15,
            CheckId::RcLink => 16,
            CheckId::GcsLink => 17,
            CheckId::NoFailsafeLatched => 18,
            CheckId::MotorsHealthy => 19,
            CheckId::InsideGeofence => 20,
        }
    }
}

// A number that no check has. An error of its own, whose Display says of what.
#[derive(Clone, Copy, Debug, PartialEq, Eq, Hash)]
pub struct UnknownCheck(pub u32);

impl fmt::Display for UnknownCheck {
    fn fmt<W: fmt::Write>(&self, f: &mut fmt::Formatter<W>) -> fmt::Result {
        write!(f, "no check has number {}", self.0)
    }
}

impl Error for UnknownCheck {}

// The check with this number.
#[tactic(auto, unfolding(crate::specs::Check::check_at, crate::specs::Check::all_checks))]
impl TryFrom<u32> for CheckId {
    type Error = UnknownCheck;

    ghost try_from_gives = { λ n r. r ≡ ok_or (check_at n) (record { 0 = n }) };

    fn try_from(n: u32) -> Result<CheckId, UnknownCheck> {
        match n {
            0 => Ok(CheckId::SensorsHealthy),
            1 => Ok(CheckId::EstimatorConverged),
            2 => Ok(CheckId::CalibrationPresent),
            3 => Ok(CheckId::GeofenceLoaded),
            4 => Ok(CheckId::BatteryOk),
            5 => Ok(CheckId::FailsafeConfigured),
            6 => Ok(CheckId::EstimatorInnovation),
            7 => Ok(CheckId::GnssAgreement),
            8 => Ok(CheckId::ParamsFromNvm),
            9 => Ok(CheckId::GeofenceSane),
            10 => Ok(CheckId::ThresholdsOrdered),
            11 => Ok(CheckId::SensorsFresh),
            12 => Ok(CheckId::EscTelemetry),
            13 => Ok(CheckId::BatteryTakeoffMargin),
            14 => Ok(CheckId::RangefinderPlausible),
            15 => Ok(CheckId::CalibrationFresh),
            16 => Ok(CheckId::RcLink),
            17 => Ok(CheckId::GcsLink),
            18 => Ok(CheckId::NoFailsafeLatched),
            19 => Ok(CheckId::MotorsHealthy),
            20 => Ok(CheckId::InsideGeofence),
            _ => Err(UnknownCheck(n)),
        }
    }
}

// Whether the check's bit of a mask is set.
#[tactic(auto, unfolding(crate::specs::Table::bit_of))]
fn bit(mask: u32, id: CheckId) -> bool
    ensures { result ≡ bit_of mask (check_number id) }
{
    (mask >> u32::from(id)) & 1 == 1
}

// A mask with the check's bit set or cleared.
#[tactic(auto, unfolding(crate::specs::Table::with_bit_of))]
fn with_bit(mask: u32, id: CheckId, on: bool) -> u32
    ensures { result ≡ with_bit_of mask (check_number id) on }
{
    let one = 1 << u32::from(id);
    if on {
        return mask | one;
    }
    mask & !one
}

// The check table: bit n of each mask is the check of number n. A check that a vehicle cannot feed belongs in no required mask, since it would block.
#[derive(Clone, Copy, Debug, PartialEq, Eq, Hash)]
pub struct CheckTable {
    pub required: u32,
    pub passed: u32,
}

impl CheckTable {
    // A mask of this number or more names a check that there is not.
    pub const MASK_LIMIT: u32 = 1 << CHECK_COUNT;

    // The table of the two masks that an opening gives.
    pub fn new(required: u32, passed: u32) -> CheckTable
        ensures { result ≡ new_table_of required passed }
    {
        CheckTable { required, passed }
    }

    // Sets whether a check has passed; what is required stays.
    #[tactic(auto, unfolding(crate::specs::Table::set_of))]
    pub fn set(self, id: CheckId, pass: bool) -> CheckTable
        ensures { result ≡ set_of self id pass }
    {
        CheckTable {
            passed: with_bit(self.passed, id, pass),
            ..self
        }
    }

    // The six checks that an opening sets passed.
    #[tactic(auto, unfolding(crate::specs::Table::legacy_passed_of))]
    pub fn legacy_passed(self) -> CheckTable
        ensures { result ≡ legacy_passed_of self }
    {
        self.set(CheckId::SensorsHealthy, true)
            .set(CheckId::EstimatorConverged, true)
            .set(CheckId::CalibrationPresent, true)
            .set(CheckId::GeofenceLoaded, true)
            .set(CheckId::BatteryOk, true)
            .set(CheckId::FailsafeConfigured, true)
    }

    // Whether a check is required.
    pub fn is_required(self, id: CheckId) -> bool
        ensures { result ≡ is_required_of self id }
    {
        bit(self.required, id)
    }

    // Whether a check has passed.
    pub fn passed(self, id: CheckId) -> bool
        ensures { result ≡ passed_of self id }
    {
        bit(self.passed, id)
    }

    // Whether a check is required and has not passed.
    #[tactic(auto, unfolding(crate::specs::Table::fails_of))]
    fn fails(self, id: CheckId) -> bool
        ensures { result ≡ fails_of self id }
    {
        self.is_required(id) && !self.passed(id)
    }

    // The required checks that have not passed.
    #[tactic(auto, unfolding(crate::specs::Table::failing_mask_of))]
    pub fn failing_mask(self) -> u32
        ensures { result ≡ failing_mask_of self }
    {
        self.required & !self.passed
    }

    // How many required checks have not passed.
    #[tactic(auto, unfolding(crate::specs::Table::outstanding_of))]
    pub fn outstanding(self) -> u32
        ensures { result ≡ outstanding_of self }
    {
        self.failing_mask().count_ones()
    }
}

// The first required check that has not passed, in the order of CheckId::ALL: it blocks arming, and tells the pilot why. Where none is outstanding there is no check to look for.
#[tactic(auto, using(crate::proofs::Laws::mask_allows), unfolding(crate::specs::Verdict::first_blocker_of, crate::specs::Check::all_checks))]
pub fn arm_check_table(t: CheckTable) -> Option<CheckId>
    ensures { result ≡ first_blocker_of t }
{
    if t.failing_mask() == 0 {
        return None;
    }
    CheckId::ALL.iter().copied().find(|&id| t.fails(id))
}
