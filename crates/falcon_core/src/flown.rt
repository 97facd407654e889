// A tick, a report or a command, without the waypoints.
ghost use Rattle.std.specs.Prelude.{◌≡◌};
ghost use Rattle.std.specs.Option.{option_map_or};
ghost use Rattle.falcon_core.specs.Calls.{ticks, reports, commands, sequence_refusal_of, command_of};
ghost use Rattle.falcon_core.specs.Flown.{InSequence, no_legs, flight_step_of};

use crate::answer::{Answer, Output, answer_of};
use crate::refusal::Refusal;
use falcon_events::failsafe::report;
use falcon_state::{FlightSupervisor, Legs, Tick};
use falcon_tick::tick::tick;
use falcon_totals::DayTotals;
use relay_fsm::{Event, Gates};
use relay_preflight::arm_check_table;

// What ticks, reports and commands read and change: all of the state but its waypoints.
#[derive(Clone, Copy)]
pub struct Flown {
    pub flight: FlightSupervisor,
    pub opened: bool,
    pub report_due: bool,
    pub totals: DayTotals,
}

// What a tick, a report or a command leaves of the state, and the answer.
#[derive(Clone, Copy)]
pub struct FlownAnswered {
    pub flown: Flown,
    pub answer: Answer,
}

// A command is handed to the mode machine; the check table is the gate for arming. Three arguments and no struct: `Supervisor::command`, which callers have,
// takes them so.
#[tactic(auto, unfolding(crate::specs::Calls::command_of))]
fn command(f: FlightSupervisor, ev: Event, level: bool, throttle_low: bool) -> FlightSupervisor
    ensures { result ≡ command_of f ev level throttle_low }
{
    let gates = Gates {
        level,
        throttle_low,
        have_position: true,
        prearm_ok: arm_check_table(f.check_table).is_none(),
    };
    FlightSupervisor {
        fsm: f.fsm.on(ev, gates),
        ..f
    }
}

// What refuses a call that is no opening in this place: by whether there was an opening, whether a report is due, and whether the call is a report.
// Two flags and no `Flown`, which a call of the whole state would have to copy for them.
#[tactic(auto, unfolding(crate::specs::Calls::sequence_refusal_of))]
pub(crate) fn sequence(opened: bool, due: bool, report: bool) -> Result<(), Refusal>
    ensures { result ≡ option_map_or Err (sequence_refusal_of opened due report) (Ok tt) }
{
    if !opened {
        return Err(Refusal::NoOpening);
    }
    if due & !report {
        return Err(Refusal::ReportDue);
    }
    if report & !due {
        return Err(Refusal::NoReportDue);
    }
    Ok(())
}

impl Flown {
    // In sequence, what the step leaves of the flight and answers, counted in the day totals; a refusal keeps the whole.
    #[tactic(auto, unfolding(crate::specs::Flown::flown_refused_of, crate::specs::Flown::flown_accepted_of))]
    fn in_sequence<F: FnOnce(FlightSupervisor) -> (FlightSupervisor, Output)>(
        self,
        report: bool,
        step: F,
    ) -> FlownAnswered
        requires { F.IsAlwaysCallable step }
        ensures { InSequence self report (F.post step self.flight) result }
    {
        if let Err(refusal) = sequence(self.opened, self.report_due, report) {
            return FlownAnswered {
                flown: self,
                answer: answer_of(self.flight, Err(refusal)),
            };
        }
        let (flight, output) = step(self.flight);
        FlownAnswered {
            flown: Flown {
                flight,
                opened: self.opened,
                report_due: output.report_due_after(),
                totals: self
                    .totals
                    .counted(output.is_tick(), self.flight.fsm.mode, flight.fsm.mode),
            },
            answer: answer_of(flight, Ok(output)),
        }
    }

    // One tick of the flight core, with the waypoints of the active leg and of the next.
    #[tactic(auto, unfolding(crate::specs::Flown::flight_step_of, crate::specs::Calls::flight_after, crate::specs::Calls::output_of))]
    pub fn tick(self, legs: Legs, t: Tick) -> FlownAnswered
        ensures { result ≡ flight_step_of self legs (ticks t) }
    {
        self.in_sequence(false, |f| {
            let ticked = tick(f, legs, t);
            (ticked.flight, Output::Ticks(ticked.answer))
        })
    }

    // Whether a motor failed while the core ran the latest tick.
    #[tactic(auto, unfolding(crate::specs::Flown::flight_step_of, crate::specs::Calls::flight_after, crate::specs::Calls::output_of))]
    pub fn report(self, failed: bool) -> FlownAnswered
        ensures { result ≡ flight_step_of self no_legs (reports failed) }
    {
        self.in_sequence(true, |f| (report(f, failed), Output::Nothing))
    }

    // A command of the pilot.
    #[tactic(auto, unfolding(crate::specs::Flown::flight_step_of, crate::specs::Calls::flight_after, crate::specs::Calls::output_of))]
    pub fn command(self, ev: Event, level: bool, throttle_low: bool) -> FlownAnswered
        ensures { result ≡ flight_step_of self no_legs (commands ev level throttle_low) }
    {
        self.in_sequence(false, |f| {
            (command(f, ev, level, throttle_low), Output::Nothing)
        })
    }
}
