// Flight modes, events, and what each event does in each mode.
#![tactic(auto)]

ghost use Rattle.std.specs.Prelude.{◌≡◌, ok_or};
ghost use Rattle.relay_fsm.specs.Mode.{mode_number, mode_at, is_airborne_of, rank_of};
ghost use Rattle.relay_fsm.specs.Event.{event_number, event_at};
ghost use Rattle.relay_fsm.specs.Fsm.{on_of};

use std::error::Error;
use std::fmt;

#[derive(Clone, Copy, Debug, PartialEq, Eq, Hash)]
pub enum Mode {
    // Motors off, on the ground.
    Disarmed,
    // Motors at idle, on the ground.
    Armed,
    // Climbing to the takeoff altitude.
    Takeoff,
    // Holding position and altitude.
    Loiter,
    // Flying the stored waypoints.
    Mission,
    // Descending to the ground.
    Land,
    // Returning to launch.
    Rtl,
    // Motors cut in the air, the last resort in a tumble; no event leads out.
    Terminated,
}

impl Mode {
    // Whether the motors must not be cut in this mode. In Terminated they are cut already.
    pub fn is_airborne(self) -> bool
        ensures { result ≡ is_airborne_of self }
    {
        matches!(
            self,
            Mode::Takeoff | Mode::Loiter | Mode::Mission | Mode::Land | Mode::Rtl
        )
    }

    // How grave the mode is. A failsafe acts only where it wants a higher rank: a breach lasts while the vehicle flies home, and acting on it again in Rtl would land outside the fence.
    pub fn rank(self) -> u32
        ensures { result ≡ rank_of self }
    {
        match self {
            Mode::Disarmed | Mode::Armed | Mode::Takeoff | Mode::Loiter | Mode::Mission => 1,
            Mode::Rtl => 2,
            Mode::Land => 3,
            Mode::Terminated => 4,
        }
    }
}

// The mode's number in answers.
impl From<Mode> for u32 {
    ghost from_gives = { λ m n. n ≡ mode_number m };

    fn from(mode: Mode) -> u32 {
        match mode {
            Mode::Disarmed => 0,
            Mode::Armed => 1,
            Mode::Takeoff => 2,
            Mode::Loiter => 3,
            Mode::Mission => 4,
            Mode::Land => 5,
            Mode::Rtl => 6,
            Mode::Terminated => 7,
        }
    }
}

// A number that no mode has. An error of its own, whose Display says of what.
#[derive(Clone, Copy, Debug, PartialEq, Eq, Hash)]
pub struct UnknownMode(pub u32);

impl fmt::Display for UnknownMode {
    fn fmt<W: fmt::Write>(&self, f: &mut fmt::Formatter<W>) -> fmt::Result {
        write!(f, "no mode has number {}", self.0)
    }
}

impl Error for UnknownMode {}

// The mode with this number.
#[tactic(auto, unfolding(crate::specs::Mode::mode_at))]
impl TryFrom<u32> for Mode {
    type Error = UnknownMode;

    ghost try_from_gives = { λ n r. r ≡ ok_or (mode_at n) (record { 0 = n }) };

    fn try_from(n: u32) -> Result<Mode, UnknownMode> {
        match n {
            0 => Ok(Mode::Disarmed),
            1 => Ok(Mode::Armed),
            2 => Ok(Mode::Takeoff),
            3 => Ok(Mode::Loiter),
            4 => Ok(Mode::Mission),
            5 => Ok(Mode::Land),
            6 => Ok(Mode::Rtl),
            7 => Ok(Mode::Terminated),
            _ => Err(UnknownMode(n)),
        }
    }
}

// Commands, and milestones that the supervisor senses.
#[derive(Clone, Copy, Debug, PartialEq, Eq, Hash)]
pub enum Event {
    Arm,
    RequestTakeoff,
    RequestMission,
    RequestLoiter,
    RequestRtl,
    RequestLand,
    RequestDisarm,
    ReachedAltitude,
    ReachedHome,
    Touchdown,
    Failsafe,
    Terminate,
}

// The event's number in command lines.
impl From<Event> for u32 {
    ghost from_gives = { λ e n. n ≡ event_number e };

    fn from(ev: Event) -> u32 {
        match ev {
            Event::Arm => 0,
            Event::RequestTakeoff => 1,
            Event::RequestMission => 2,
            Event::RequestLoiter => 3,
            Event::RequestRtl => 4,
            Event::RequestLand => 5,
            Event::RequestDisarm => 6,
            Event::ReachedAltitude => 7,
            Event::ReachedHome => 8,
            Event::Touchdown => 9,
            Event::Failsafe => 10,
            Event::Terminate => 11,
        }
    }
}

// A number that no event has. An error of its own, whose Display says of what.
#[derive(Clone, Copy, Debug, PartialEq, Eq, Hash)]
pub struct UnknownEvent(pub u32);

impl fmt::Display for UnknownEvent {
    fn fmt<W: fmt::Write>(&self, f: &mut fmt::Formatter<W>) -> fmt::Result {
        write!(f, "no event has number {}", self.0)
    }
}

impl Error for UnknownEvent {}

// The event with this number.
#[tactic(auto, unfolding(crate::specs::Event::event_at))]
impl TryFrom<u32> for Event {
    type Error = UnknownEvent;

    ghost try_from_gives = { λ n r. r ≡ ok_or (event_at n) (record { 0 = n }) };

    fn try_from(n: u32) -> Result<Event, UnknownEvent> {
        match n {
            0 => Ok(Event::Arm),
            1 => Ok(Event::RequestTakeoff),
            2 => Ok(Event::RequestMission),
            3 => Ok(Event::RequestLoiter),
            4 => Ok(Event::RequestRtl),
            5 => Ok(Event::RequestLand),
            6 => Ok(Event::RequestDisarm),
            7 => Ok(Event::ReachedAltitude),
            8 => Ok(Event::ReachedHome),
            9 => Ok(Event::Touchdown),
            10 => Ok(Event::Failsafe),
            11 => Ok(Event::Terminate),
            _ => Err(UnknownEvent(n)),
        }
    }
}

// What the machine checks before a guarded transition.
#[derive(Clone, Copy, Debug, PartialEq, Eq, Hash)]
pub struct Gates {
    // The attitude is within the arming limit.
    pub level: bool,
    // The throttle is at idle.
    pub throttle_low: bool,
    // There is a valid position fix.
    pub have_position: bool,
    // Every required preflight check has passed.
    pub prearm_ok: bool,
}

// The flight-mode state machine.
#[derive(Clone, Copy, Debug, PartialEq, Eq, Hash)]
pub struct FlightFsm {
    pub mode: Mode,
}

impl FlightFsm {
    // The machine at the start: Disarmed.
    pub fn new() -> FlightFsm
        ensures { result ≡ record { mode = Mode.Disarmed } }
    {
        FlightFsm {
            mode: Mode::Disarmed,
        }
    }

    // The present mode.
    pub fn mode(self) -> Mode
        ensures { result ≡ self.mode }
    {
        self.mode
    }

    // Whether the present mode is airborne.
    pub fn is_airborne(self) -> bool
        ensures { result ≡ is_airborne_of self.mode }
    {
        self.mode.is_airborne()
    }

    // The machine after an event under the gates.
    #[tactic(auto, unfolding(crate::specs::Fsm::on_of, crate::specs::Fsm::row_of))]
    pub fn on(self, ev: Event, g: Gates) -> FlightFsm
        ensures { result ≡ record { mode = on_of self.mode ev g } }
    {
        let mode = match (self.mode, ev) {
            (Mode::Disarmed, Event::Arm) if g.level && g.throttle_low && g.prearm_ok => Mode::Armed,
            // Disarmed only on the ground: a request in the air changes nothing.
            (Mode::Armed, Event::RequestDisarm) => Mode::Disarmed,
            (Mode::Land, Event::Touchdown) => Mode::Disarmed,
            (Mode::Armed, Event::RequestTakeoff) if g.have_position => Mode::Takeoff,
            (Mode::Takeoff, Event::ReachedAltitude) => Mode::Loiter,
            (Mode::Loiter, Event::RequestMission) => Mode::Mission,
            (Mode::Mission, Event::RequestLoiter) => Mode::Loiter,
            (Mode::Mission, Event::ReachedHome) => Mode::Loiter,
            (Mode::Loiter | Mode::Mission | Mode::Rtl, Event::RequestLand) => Mode::Land,
            (Mode::Loiter | Mode::Mission | Mode::Takeoff, Event::RequestRtl) => Mode::Rtl,
            (Mode::Rtl, Event::ReachedHome) => Mode::Land,
            // A failsafe in the air flies home or lands, and never disarms.
            (Mode::Takeoff | Mode::Loiter | Mode::Mission, Event::Failsafe) => {
                if g.have_position {
                    Mode::Rtl
                } else {
                    Mode::Land
                }
            }
            (Mode::Rtl, Event::Failsafe) => Mode::Land,
            // From every mode: nothing is more urgent than to end a tumble.
            (_, Event::Terminate) => Mode::Terminated,
            (mode, _) => mode,
        };
        FlightFsm { mode }
    }
}
