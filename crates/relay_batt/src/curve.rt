// Resting volts of a cell to its charge, and the cut that every number read goes through.

ghost use Rattle.std.specs.Prelude.{◌≡◌};
ghost use Rattle.relay_batt.specs.Curve.{sanitize_of, between, ocv_soc_cell_of};

use relay_math::{clamp, is_finite};

// Cut to lo..hi, with a default for what is not finite.
#[tactic(auto, unfolding(crate::specs::Curve::sanitize_of))]
pub fn sanitize(x: f32, lo: f32, hi: f32, nan_default: f32) -> f32
    ensures { result ≡ sanitize_of x lo hi nan_default }
{
    if is_finite(x) {
        return clamp(x, lo, hi);
    }
    clamp(nan_default, lo, hi)
}

// A pair of the curve: volts of a cell and its charge.
#[derive(Clone, Copy, Debug)]
pub struct Knot {
    pub v: f32,
    pub s: f32,
}

impl Knot {
    // The most that a cell is taken to have.
    pub const V_MAX: f32 = 5.0;
}

const CURVE: [Knot; 8] = [
    Knot { v: 3.50, s: 0.00 },
    Knot { v: 3.65, s: 0.10 },
    Knot { v: 3.72, s: 0.20 },
    Knot { v: 3.79, s: 0.40 },
    Knot { v: 3.85, s: 0.55 },
    Knot { v: 3.95, s: 0.75 },
    Knot { v: 4.10, s: 0.95 },
    Knot { v: 4.20, s: 1.00 },
];

// The line through two knots.
fn segment(k0: Knot, k1: Knot, v: f32) -> f32
    ensures { result ≡ between k0 k1 v }
{
    k0.s + (k1.s - k0.s) * (v - k0.v) / (k1.v - k0.v)
}

// The charge of a cell by its resting volts; 0 for volts that are not finite: what can't be read counts as empty.
#[tactic(auto, unfolding(crate::specs::Curve::ocv_soc_cell_of, crate::specs::Curve::table_of, crate::specs::Curve::knots))]
pub fn ocv_soc_cell(v_cell: f32) -> f32
    ensures { result ≡ ocv_soc_cell_of v_cell }
{
    let v = sanitize(v_cell, 0.0, Knot::V_MAX, 0.0);
    if v <= CURVE[0].v {
        return 0.0;
    }
    for [k0, k1] in CURVE.array_windows::<2>() {
        if v <= k1.v {
            return segment(*k0, *k1, v);
        }
    }
    1.0
}
