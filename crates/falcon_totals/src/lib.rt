// The day totals: how many ticks ended in each mode, and how many calls ended in another mode than they began in.
#![tactic(auto)]

ghost use Rattle.std.specs.Prelude.{◌≡◌};
ghost use Rattle.relay_math.specs.Small.{saturating_add_of};
ghost use Rattle.falcon_totals.specs.Totals.{no_totals, counted_of, totals_numbers};

use relay_fsm::Mode;

// Since the opening: the ticks that ended in each mode, and the ticks, reports and commands that ended in another mode than they began in.
#[derive(Clone, Copy, Default)]
pub struct DayTotals {
    pub disarmed: u32,
    pub armed: u32,
    pub takeoff: u32,
    pub loiter: u32,
    pub mission: u32,
    pub land: u32,
    pub rtl: u32,
    pub terminated: u32,
    pub changed: u32,
}

// One more, up to the limit.
fn count(total: &mut u32)
    ensures { total.new ≡ saturating_add_of total.old 1 }
{
    *total = total.saturating_add(1);
}

impl DayTotals {
    // The numbers of the totals on an answer line.
    pub const FIELDS: usize = 9;

    // What an opening starts from.
    #[tactic(auto, unfolding(crate::specs::Totals::no_totals))]
    pub fn new() -> DayTotals
        ensures { result ≡ no_totals }
    {
        DayTotals::default()
    }

    // After an accepted tick, report or command that began and ended in these modes.
    #[tactic(auto, unfolding(crate::specs::Totals::counted_of))]
    pub fn counted(self, ticked: bool, began: Mode, ended: Mode) -> DayTotals
        ensures { result ≡ counted_of self ticked began ended }
    {
        let mut next = self;
        if began != ended {
            count(&mut next.changed);
        }
        if !ticked {
            return next;
        }
        match ended {
            Mode::Disarmed => count(&mut next.disarmed),
            Mode::Armed => count(&mut next.armed),
            Mode::Takeoff => count(&mut next.takeoff),
            Mode::Loiter => count(&mut next.loiter),
            Mode::Mission => count(&mut next.mission),
            Mode::Land => count(&mut next.land),
            Mode::Rtl => count(&mut next.rtl),
            Mode::Terminated => count(&mut next.terminated),
        }
        next
    }

    // The totals in the order of an answer line: a named function and no From, which would not say of what.
    #[tactic(auto, unfolding(crate::specs::Totals::totals_numbers))]
    pub fn numbers(self) -> [u32; DayTotals::FIELDS]
        ensures { result ≡ totals_numbers self }
    {
        [
            self.disarmed,
            self.armed,
            self.takeoff,
            self.loiter,
            self.mission,
            self.land,
            self.rtl,
            self.terminated,
            self.changed,
        ]
    }
}
