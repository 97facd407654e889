// The mode machine, by the numbers of modes and events; UNKNOWN is answered to any other number. The gates are bits: 1 level, 2 low throttle, 4 position, 8 checks; higher bits say nothing.

ghost use Rattle.std.specs.Prelude.{◌≡◌};
ghost use Rattle.exports.specs.Modes.{gates_from_of, on_number, rank_number, airborne_number};

use crate::numbers::{UNKNOWN, is_set};
use relay_fsm::{Event, FlightFsm, Gates, Mode};

// The gates of the four lowest bits.
#[tactic(auto, unfolding(crate::specs::Modes::gates_from_of))]
fn gates_from(n: u32) -> Gates
    ensures { result ≡ gates_from_of n }
{
    Gates {
        level: is_set(n, 1),
        throttle_low: is_set(n, 2),
        have_position: is_set(n, 4),
        prearm_ok: is_set(n, 8),
    }
}

// `FlightFsm::on`.
#[tactic(auto, unfolding(crate::specs::Modes::on_number))]
#[unsafe(no_mangle)]
pub extern "C" fn bartsemmo_on(mode: u32, event: u32, gates: u32) -> u32
    ensures { result ≡ on_number mode event gates }
{
    let (Ok(mode), Ok(ev)) = (Mode::try_from(mode), Event::try_from(event)) else {
        return UNKNOWN;
    };
    u32::from(FlightFsm { mode }.on(ev, gates_from(gates)).mode())
}

// `Mode::rank`.
#[tactic(auto, unfolding(crate::specs::Modes::rank_number))]
#[unsafe(no_mangle)]
pub extern "C" fn bartsemmo_rank(mode: u32) -> u32
    ensures { result ≡ rank_number mode }
{
    Mode::try_from(mode).map_or(UNKNOWN, Mode::rank)
}

// `Mode::is_airborne`, as 1 or 0.
#[tactic(auto, unfolding(crate::specs::Modes::airborne_number))]
#[unsafe(no_mangle)]
pub extern "C" fn bartsemmo_is_airborne(mode: u32) -> u32
    ensures { result ≡ airborne_number mode }
{
    Mode::try_from(mode).map_or(UNKNOWN, |mode| u32::from(mode.is_airborne()))
}
