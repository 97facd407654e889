// The floats of relay_math and relay_batt, on patterns: any NaN is read, and 7FC00000 is answered for one.

ghost use Rattle.std.specs.Prelude.{◌≡◌};
ghost use Rattle.std.specs.Float.{binary32};
ghost use Rattle.std.specs.Float.Ieee.{of_bits, to_bits};
ghost use Rattle.relay_math.specs.Root.{root};
ghost use Rattle.relay_math.specs.Small.{max_of, clamp_of};
ghost use Rattle.relay_batt.specs.Curve.{sanitize_of, ocv_soc_cell_of};

use relay_batt::{ocv_soc_cell, sanitize};
use relay_math::{clamp, from_bits, max, sqrtf, to_bits};

// `relay_math::sqrtf`.
#[unsafe(no_mangle)]
pub extern "C" fn bartsemmo_sqrtf(b: u32) -> u32
    ensures { result ≡ to_bits binary32 (root (of_bits binary32 b)) }
{
    to_bits(sqrtf(from_bits(b)))
}

// `relay_math::max`.
#[unsafe(no_mangle)]
pub extern "C" fn bartsemmo_max(x: u32, y: u32) -> u32
    ensures { result ≡ to_bits binary32 (max_of (of_bits binary32 x) (of_bits binary32 y)) }
{
    to_bits(max(from_bits(x), from_bits(y)))
}

// `relay_math::clamp`.
#[unsafe(no_mangle)]
pub extern "C" fn bartsemmo_clamp(x: u32, lo: u32, hi: u32) -> u32
    ensures { result ≡ to_bits binary32 (clamp_of (of_bits binary32 x) (of_bits binary32 lo) (of_bits binary32 hi)) }
{
    to_bits(clamp(from_bits(x), from_bits(lo), from_bits(hi)))
}

// `relay_batt::sanitize`.
#[unsafe(no_mangle)]
pub extern "C" fn bartsemmo_sanitize(x: u32, lo: u32, hi: u32, d: u32) -> u32
    ensures { result ≡ to_bits binary32 (sanitize_of (of_bits binary32 x) (of_bits binary32 lo) (of_bits binary32 hi) (of_bits binary32 d)) }
{
    to_bits(sanitize(from_bits(x), from_bits(lo), from_bits(hi), from_bits(d)))
}

// `relay_batt::ocv_soc_cell`.
#[unsafe(no_mangle)]
pub extern "C" fn bartsemmo_ocv_soc_cell(v: u32) -> u32
    ensures { result ≡ to_bits binary32 (ocv_soc_cell_of (of_bits binary32 v)) }
{
    to_bits(ocv_soc_cell(from_bits(v)))
}
