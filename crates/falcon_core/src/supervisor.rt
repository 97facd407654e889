// The supervisor: its state, and the calls by lent values. Each takes the state and gives the state after it with its answer.
ghost use Rattle.std.specs.Prelude.{◌≡◌, false};
ghost use Rattle.std.specs.Option.{option_map_or};
ghost use Rattle.falcon_guidance.specs.Mission.{loaded_of, loaded_points_of};
ghost use Rattle.falcon_core.specs.Calls.{unopened, opens, ticks, reports, commands, plans, points, zones, totals, saves, sequence_refusal_of, refused_of, accepted_of, settled_of, taken_of, step_of};
ghost use Rattle.falcon_core.specs.Flown.{flown_of, with_flown_of, beside_of};

use crate::answer::{Answer, Output, answer_of};
use crate::flown::{Flown, FlownAnswered, sequence};
use crate::refusal::Refusal;
use falcon_guidance::legs::legs;
use falcon_guidance::mission::{loaded, loaded_points, no_points, tried_admissible};
use falcon_guidance::zones::loaded_zones;
use falcon_state::{FlightSupervisor, Opening, OpeningKind, Point, Tick, Zone};
use falcon_totals::DayTotals;
use relay_fsm::Event;
use relay_preflight::CheckTable;

// The supervisor: the flight, the waypoints, whether there was an opening, whether a report is due, and the day totals. Unused places hold the origin.
// No Option of the flight: an answer before an opening has its mode and checks too.
#[derive(Clone, Copy)]
pub struct Supervisor {
    pub flight: FlightSupervisor,
    pub waypoints: [Point; Point::MAX_WAYPOINTS],
    pub opened: bool,
    pub report_due: bool,
    pub totals: DayTotals,
}

// The state after a call, and the answer.
#[derive(Clone, Copy)]
pub struct Answered {
    pub supervisor: Supervisor,
    pub answer: Answer,
}

// A refusal keeps the state.
#[tactic(auto, unfolding(crate::specs::Calls::refused_of))]
pub fn refused(s: Supervisor, refusal: Refusal) -> Answered
    ensures { result ≡ refused_of s refusal }
{
    Answered {
        supervisor: s,
        answer: answer_of(s.flight, Err(refusal)),
    }
}

// What a call leaves that is taken: this state, and the answer with this output.
#[tactic(auto, unfolding(crate::specs::Calls::accepted_of))]
fn accepted(s: Supervisor, output: Output) -> Answered
    ensures { result ≡ accepted_of s output }
{
    Answered {
        supervisor: s,
        answer: answer_of(s.flight, Ok(output)),
    }
}

// A call that changes nothing, if it is in sequence. It keeps the state either way, which is copied once then (docs/SPEED.md).
#[tactic(auto, unfolding(crate::specs::Calls::accepted_of, crate::specs::Calls::refused_of))]
fn told(s: Supervisor, output: Output) -> Answered
    ensures { result ≡ settled_of s (option_map_or Err (sequence_refusal_of s.opened s.report_due false) (Ok (s, output))) }
{
    let outcome = sequence(s.opened, s.report_due, false).map(|_| output);
    Answered {
        supervisor: s,
        answer: answer_of(s.flight, outcome),
    }
}

// The state with this list of waypoints for the old one.
fn with_points(s: Supervisor, lent: &[f32]) -> Supervisor
    ensures { result ≡ record s { flight = record s.flight { mission = loaded_of lent.now }; waypoints = loaded_points_of lent.now } }
{
    Supervisor {
        flight: FlightSupervisor {
            mission: loaded(lent),
            ..s.flight
        },
        waypoints: loaded_points(lent),
        ..s
    }
}

impl Supervisor {
    // The state with no opening.
    #[tactic(auto, unfolding(crate::specs::Calls::unopened))]
    pub fn new() -> Supervisor
        ensures { result ≡ unopened }
    {
        Supervisor {
            flight: FlightSupervisor::opened(Opening {
                home: Point::origin(),
                fence_radius: 0.0,
                cruise_alt: 0.0,
                low_batt_v: 0.0,
                required: 0,
                passed: 0,
                calibration_configured: false,
                opening_kind: OpeningKind::Ground,
            }),
            waypoints: no_points(),
            opened: false,
            report_due: false,
            totals: DayTotals::new(),
        }
    }

    // What ticks, reports and commands read and change.
    pub fn flown(self) -> Flown
        ensures { result ≡ flown_of self }
    {
        Flown {
            flight: self.flight,
            opened: self.opened,
            report_due: self.report_due,
            totals: self.totals,
        }
    }

    // The state with these parts for its own.
    pub fn with_flown(self, flown: Flown) -> Supervisor
        ensures { result ≡ with_flown_of self flown }
    {
        Supervisor {
            flight: flown.flight,
            opened: flown.opened,
            report_due: flown.report_due,
            totals: flown.totals,
            ..self
        }
    }

    // What a tick, a report or a command leaves, with the waypoints as they were.
    fn beside(self, told: FlownAnswered) -> Answered
        ensures { result ≡ beside_of self told }
    {
        Answered {
            supervisor: self.with_flown(told.flown),
            answer: told.answer,
        }
    }

    // Opens the supervisor anew; taken at any time.
    #[tactic(auto, unfolding(crate::specs::Calls::step_of, crate::specs::Calls::refusal_of, crate::specs::Calls::shape_refusal, crate::specs::Calls::state_refusal, crate::specs::Calls::after_of, crate::specs::Calls::flight_after, crate::specs::Calls::waypoints_after, crate::specs::Calls::output_of, crate::specs::Calls::totals_after))]
    pub fn opening(self, o: Opening) -> Answered
        ensures { result ≡ step_of self (opens o) }
    {
        if (o.required >= CheckTable::MASK_LIMIT) | (o.passed >= CheckTable::MASK_LIMIT) {
            return refused(self, Refusal::OutOfRange);
        }
        let next = Supervisor {
            flight: FlightSupervisor::opened(o),
            waypoints: no_points(),
            opened: true,
            report_due: false,
            totals: DayTotals::new(),
        };
        accepted(next, Output::Nothing)
    }

    // One tick of the flight core.
    #[tactic(auto, using(crate::proofs::FlightCalls::tick_beside))]
    pub fn tick(self, t: Tick) -> Answered
        ensures { result ≡ step_of self (ticks t) }
    {
        let legs = legs(self.flight.config, self.waypoints, self.flight.mission);
        self.beside(self.flown().tick(legs, t))
    }

    // Whether a motor failed while the core ran the latest tick.
    #[tactic(auto, using(crate::proofs::FlightCalls::report_beside))]
    pub fn report(self, failed: bool) -> Answered
        ensures { result ≡ step_of self (reports failed) }
    {
        self.beside(self.flown().report(failed))
    }

    // A command of the pilot.
    #[tactic(auto, using(crate::proofs::FlightCalls::command_beside))]
    pub fn command(self, ev: Event, level: bool, throttle_low: bool) -> Answered
        ensures { result ≡ step_of self (commands ev level throttle_low) }
    {
        self.beside(self.flown().command(ev, level, throttle_low))
    }

    // Whether a new list of waypoints is taken, or why not.
    #[tactic(auto, using(crate::proofs::Answers::planned_step), unfolding(crate::specs::Calls::planned_of, crate::specs::Calls::waypoints_after, crate::specs::Calls::output_of))]
    fn mission_taken(&self, lent: &[f32]) -> Result<(), Refusal>
        ensures { taken_of self.now (points lent.now) result ≡ step_of self.now (plans (points lent.now)) }
    {
        if lent.len() % Point::NUMBERS != 0 {
            return Err(Refusal::WrongCount);
        }
        sequence(self.opened, self.report_due, false)?;
        if !tried_admissible(self.flight.config, lent) {
            return Err(Refusal::Inadmissible);
        }
        Ok(())
    }

    // A new list of waypoints, three numbers each. One bad point refuses the list and the old one stays: flown, it could cut the motors in the air.
    #[tactic(auto, unfolding(crate::specs::Calls::planned_of, crate::specs::Calls::waypoints_after, crate::specs::Calls::output_of))]
    pub fn set_mission_waypoints(self, lent: &[f32]) -> Answered
        ensures answered { result ≡ step_of self (plans (points lent.now)) }
        ensures unchanged { lent.exit.now ≡ lent.entry.now }
    {
        match self.mission_taken(lent) {
            Ok(()) => accepted(with_points(self, lent), Output::Nothing),
            Err(refusal) => refused(self, refusal),
        }
    }

    // Whether new keep-out zones are taken, or why not.
    #[tactic(auto, using(crate::proofs::Answers::planned_step), unfolding(crate::specs::Calls::planned_of, crate::specs::Calls::waypoints_after, crate::specs::Calls::output_of))]
    fn keepout_taken(&self, lent: &[f32]) -> Result<(), Refusal>
        ensures { taken_of self.now (zones lent.now) result ≡ step_of self.now (plans (zones lent.now)) }
    {
        if lent.len() % Zone::NUMBERS != 0 {
            return Err(Refusal::WrongCount);
        }
        sequence(self.opened, self.report_due, false)
    }

    // The keep-out zones, four numbers each: the first eight are kept, untested.
    #[tactic(auto, unfolding(crate::specs::Calls::planned_of, crate::specs::Calls::waypoints_after, crate::specs::Calls::output_of))]
    pub fn set_keepout_zones(self, lent: &[f32]) -> Answered
        ensures answered { result ≡ step_of self (plans (zones lent.now)) }
        ensures unchanged { lent.exit.now ≡ lent.entry.now }
    {
        match self.keepout_taken(lent) {
            Ok(()) => {
                let mut next = self;
                next.flight.zones = loaded_zones(lent);
                accepted(next, Output::Nothing)
            }
            Err(refusal) => refused(self, refusal),
        }
    }

    // The day totals, which the answer's state has.
    #[tactic(auto, using(crate::proofs::Answers::planned_step), unfolding(crate::specs::Calls::planned_of, crate::specs::Calls::waypoints_after, crate::specs::Calls::output_of))]
    pub fn totals(self) -> Answered
        ensures { result ≡ step_of self (plans totals) }
    {
        told(self, Output::Totals)
    }

    // The whole state, which is the answer's.
    #[tactic(auto, using(crate::proofs::Answers::planned_step), unfolding(crate::specs::Calls::planned_of, crate::specs::Calls::waypoints_after, crate::specs::Calls::output_of))]
    pub fn save(self) -> Answered
        ensures { result ≡ step_of self (plans saves) }
    {
        told(self, Output::Record)
    }
}
