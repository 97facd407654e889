// The battery as 29 numbers: the pack 0..7, the estimator 8..16, what is shown 17..25, the silence and two flags 26..28. A slice may have more; those are neither read nor changed.

ghost use Rattle.std.specs.Prelude.{◌≡◌, ◌<◌};
ghost use Rattle.relay_batt.specs.Numbers.{estimator_by, state_by};
ghost use Rattle.exports.specs.Batt.{pack_from_of, latch_from_of, behind_pack, battery_by_numbers, reading_by_numbers, new_from, opened_for, update_from_of};
ghost use Rattle.exports.specs.Batt.{size, pack_numbers_of, short_number, stored_battery_of};

use crate::numbers::{float, is_one, number};
use relay_batt::numbers::{estimator_numbers, silence_numbers, state_numbers};
use relay_batt::{BattConfig, BattState, Battery, BatteryEstimator, Reading, TripLatch};
use relay_math::{from_bits, to_bits};

// How many numbers a battery is.
const SIZE: usize = 29;

// The pack of numbers 0 to 7.
#[tactic(auto, unfolding(crate::specs::Batt::pack_from_of))]
fn pack_from(ns: &[u32]) -> BattConfig
    ensures { result ≡ pack_from_of ns.now }
{
    BattConfig {
        capacity_mah: float(ns, 0),
        cells: number(ns, 1),
        r_internal: float(ns, 2),
        low_soc: float(ns, 3),
        crit_soc: float(ns, 4),
        low_v_cell_fallback: float(ns, 5),
        crit_v_cell_fallback: float(ns, 6),
        debounce_s: float(ns, 7),
    }
}

// The latch whose two numbers begin at a place.
#[tactic(auto, unfolding(crate::specs::Batt::latch_from_of))]
fn latch_from(ns: &[u32], i: usize) -> TripLatch
    requires { i < size }
    ensures { result ≡ latch_from_of ns.now i }
{
    TripLatch {
        below_s: float(ns, i),
        latched: is_one(ns, i + 1),
    }
}

// The estimator of numbers 0 to 16.
#[tactic(auto, unfolding(relay_batt::specs::Numbers::estimator_by, crate::specs::Batt::latch_from_of))]
fn estimator_from(ns: &[u32]) -> BatteryEstimator
    ensures { result ≡ estimator_by (pack_from_of ns.now) (behind_pack ns.now) }
{
    BatteryEstimator {
        cfg: pack_from(ns),
        consumed_mah: float(ns, 8),
        r_est: float(ns, 9),
        prev_v: float(ns, 10),
        prev_i: float(ns, 11),
        have_prev: is_one(ns, 12),
        low: latch_from(ns, 13),
        critical: latch_from(ns, 15),
    }
}

// The state shown of numbers 17 to 25.
#[tactic(auto, unfolding(relay_batt::specs::Numbers::state_by))]
fn state_from(ns: &[u32]) -> BattState
    ensures { result ≡ state_by (behind_pack ns.now) }
{
    BattState {
        volts: float(ns, 17),
        rest_volts: float(ns, 18),
        current_a: float(ns, 19),
        consumed_mah: float(ns, 20),
        soc: float(ns, 21),
        r_est: float(ns, 22),
        low: is_one(ns, 23),
        critical: is_one(ns, 24),
        degraded: is_one(ns, 25),
    }
}

// The battery of all 29 numbers.
#[tactic(auto, unfolding(crate::specs::Batt::battery_by_numbers, relay_batt::specs::Numbers::battery_by))]
fn battery_from(ns: &[u32]) -> Battery
    ensures { result ≡ battery_by_numbers ns.now }
{
    Battery {
        est: estimator_from(ns),
        state: state_from(ns),
        missing_s: float(ns, 26),
        present: is_one(ns, 27),
        seen: is_one(ns, 28),
    }
}

// What was read: 0 nothing, 1 volts, any other kind volts and amps. Three numbers and no struct: C hands them over.
#[tactic(auto, unfolding(crate::specs::Batt::reading_by_numbers))]
fn reading_from(kind: u32, volts: u32, amps: u32) -> Reading
    ensures { result ≡ reading_by_numbers kind volts amps }
{
    match kind {
        0 => Reading::Nothing,
        1 => Reading::Volts(from_bits(volts)),
        _ => Reading::VoltsAmps {
            volts: from_bits(volts),
            amps: from_bits(amps),
        },
    }
}

// The battery of the numbers, after `Battery::update`.
#[tactic(auto, unfolding(crate::specs::Batt::update_from_of))]
fn update_from(ns: &[u32], dt: u32, kind: u32, volts: u32, amps: u32) -> Battery
    ensures { result ≡ update_from_of ns.now dt kind volts amps }
{
    let battery = battery_from(ns);
    let reading = reading_from(kind, volts, amps);
    battery.update(from_bits(dt), reading)
}

// The pack's numbers.
#[tactic(auto, unfolding(crate::specs::Batt::pack_numbers_of))]
fn pack_numbers(c: BattConfig) -> [u32; 8]
    ensures { result ≡ pack_numbers_of c }
{
    [
        to_bits(c.capacity_mah),
        c.cells,
        to_bits(c.r_internal),
        to_bits(c.low_soc),
        to_bits(c.crit_soc),
        to_bits(c.low_v_cell_fallback),
        to_bits(c.crit_v_cell_fallback),
        to_bits(c.debounce_s),
    ]
}

// Stores a battery's numbers, from the start on. Answers C's number: 0, or 1 where the slice has under 29 numbers, and then nothing changes. Each caller tests
// that first all the same: a slice that is too short then costs no battery.
#[tactic(auto, using(crate::proofs::Stored::parts_whole), unfolding(crate::specs::Batt::short_number, crate::specs::Batt::stored_battery_of))]
fn store(numbers: &mut [u32], b: Battery) -> u32
    ensures answer { result ≡ short_number numbers.old }
    ensures stored { numbers.new ≡ stored_battery_of numbers.old b }
{
    if numbers.len() < SIZE {
        return 1;
    }
    numbers[..8].copy_from_slice(&pack_numbers(b.est.cfg));
    numbers[8..17].copy_from_slice(&estimator_numbers(b.est));
    numbers[17..26].copy_from_slice(&state_numbers(b.state));
    numbers[26..SIZE].copy_from_slice(&silence_numbers(b));
    0
}

// `Battery::new` for the pack of the first eight numbers. Answers 0, or 1 where the slice has under 29 numbers, and then nothing changes.
#[tactic(auto, unfolding(crate::specs::Batt::new_from, crate::specs::Batt::short_number, crate::specs::Batt::stored_battery_of))]
#[unsafe(no_mangle)]
pub extern "C" fn bartsemmo_battery_new(numbers: &mut [u32]) -> u32
    ensures answer { result ≡ short_number numbers.old }
    ensures stored { numbers.new ≡ stored_battery_of numbers.old (new_from numbers.old) }
{
    if numbers.len() < SIZE {
        return 1;
    }
    let battery = Battery::new(pack_from(numbers));
    store(numbers, battery)
}

// `Battery::new` for the built-in pack with so many cells, at an opening's volts. Answers 0, or 1 where the slice has under 29 numbers, and then nothing changes.
#[tactic(auto, unfolding(crate::specs::Batt::opened_for, crate::specs::Batt::short_number, crate::specs::Batt::stored_battery_of))]
#[unsafe(no_mangle)]
pub extern "C" fn bartsemmo_battery_opened(numbers: &mut [u32], cells: u32, volts: u32) -> u32
    ensures answer { result ≡ short_number numbers.old }
    ensures stored { numbers.new ≡ stored_battery_of numbers.old (opened_for cells volts) }
{
    if numbers.len() < SIZE {
        return 1;
    }
    store(
        numbers,
        Battery::new(BattConfig::for_pack(cells, from_bits(volts))),
    )
}

// `Battery::update`, with a reading of kind 0 nothing, 1 volts, any other volts and amps. Answers 0, or 1 where the slice has under 29 numbers, and then nothing changes.
#[tactic(auto, unfolding(crate::specs::Batt::short_number, crate::specs::Batt::stored_battery_of))]
#[unsafe(no_mangle)]
pub extern "C" fn bartsemmo_battery_update(
    numbers: &mut [u32],
    dt: u32,
    kind: u32,
    volts: u32,
    amps: u32,
) -> u32
    ensures answer { result ≡ short_number numbers.old }
    ensures stored { numbers.new ≡ stored_battery_of numbers.old (update_from_of numbers.old dt kind volts amps) }
{
    if numbers.len() < SIZE {
        return 1;
    }
    let battery = update_from(numbers, dt, kind, volts, amps);
    store(numbers, battery)
}
