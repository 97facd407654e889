// The answer to a call.
ghost use Rattle.std.specs.Prelude.{◌≡◌};
ghost use Rattle.falcon_core.specs.Answer.{is_tick_of, report_due_after, answer_of, numbers_of};

use crate::refusal::Refusal;
use falcon_state::FlightSupervisor;
use falcon_tick::tick::TickAnswer;
use falcon_totals::DayTotals;
use relay_fsm::Mode;
use relay_math::to_bits;
use relay_preflight::{CheckId, arm_check_table};

// What an answer tells beside the mode and the checks: nothing, what a tick answers, or of the state after the call its totals or the whole.
#[derive(Clone, Copy)]
pub enum Output {
    Nothing,
    Ticks(TickAnswer),
    Totals,
    Record,
}

// The answer to a call.
#[derive(Clone, Copy)]
pub struct Answer {
    pub outcome: Result<Output, Refusal>,
    pub mode: Mode,
    pub outstanding: u32,
    pub blocker: Option<CheckId>,
}

impl Output {
    // Whether it is a tick's.
    pub(crate) fn is_tick(self) -> bool
        ensures { result ≡ is_tick_of self }
    {
        matches!(self, Output::Ticks(_))
    }

    // A report is due after every tick that does not say motors off, and after nothing else.
    pub(crate) fn report_due_after(self) -> bool
        ensures { result ≡ report_due_after self }
    {
        matches!(self, Output::Ticks(TickAnswer::Setpoint { .. }))
    }
}

impl Answer {
    // The numbers of an answer line.
    pub const FIELDS: usize = 10;

    // The numbers of an answer line with the totals.
    pub const WITH_TOTALS: usize = Answer::FIELDS + DayTotals::FIELDS;

    // The ten numbers of an answer line: a named function and no From, which would not say of what.
    #[tactic(auto, unfolding(crate::specs::Answer::numbers_of))]
    pub fn numbers(self) -> [u32; Answer::FIELDS]
        ensures { result ≡ numbers_of self }
    {
        let r = Refusal::outcome_number(&self.outcome);
        let m = u32::from(self.mode);
        let o = self.outstanding;
        let b = CheckId::blocker_number(self.blocker);
        match self.outcome {
            Ok(Output::Ticks(TickAnswer::MotorsOff)) => [r, m, 0, 1, 0, 0, 0, 0, o, b],
            Ok(
                Output::Ticks(
                    TickAnswer::Setpoint {
                        ned,
                        landing,
                        rearm,
                    },
                ),
            ) => [
                r,
                m,
                u32::from(landing),
                0,
                u32::from(rearm),
                to_bits(ned.x),
                to_bits(ned.y),
                to_bits(ned.z),
                o,
                b,
            ],
            Ok(Output::Nothing | Output::Totals | Output::Record) | Err(_) => {
                [r, m, 0, 0, 0, 0, 0, 0, o, b]
            }
        }
    }
}

// The answer of a flight.
#[tactic(auto, unfolding(crate::specs::Answer::answer_of))]
pub(crate) fn answer_of(f: FlightSupervisor, outcome: Result<Output, Refusal>) -> Answer
    ensures { result ≡ answer_of f outcome }
{
    Answer {
        outcome,
        mode: f.fsm.mode,
        outstanding: f.check_table.outstanding(),
        blocker: arm_check_table(f.check_table),
    }
}
