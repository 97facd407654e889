// Floats: bits in and out for every pattern, and what the Rust takes from its library: the square root, max, clamp, finiteness.
#![tactic(auto)]

ghost use Rattle.std.specs.Prelude.{◌≡◌};
ghost use Rattle.std.specs.Float.{binary32};
ghost use Rattle.std.specs.Float.Ieee.{of_bits, to_bits};
ghost use Rattle.std.specs.Float.Ieee.Scale.{finite};
ghost use Rattle.relay_math.specs.Small.{max_of, clamp_of};

mod root;

pub use root::sqrtf;

// The f32 of a pattern. Every NaN pattern is read as NaN, which std's `from_bits` does not take.
#[tactic(auto, using(crate::proofs::Small::nan_pattern, std::proofs::lemmas::Float::not_nan_f32_bits))]
pub fn from_bits(b: u32) -> f32
    ensures { result ≡ of_bits binary32 b }
{
    if b % 0x8000_0000 > 0x7f80_0000 {
        return f32::NAN;
    }
    f32::from_bits(b)
}

// The pattern of an f32. Every NaN is written 7FC00000, which std's `to_bits` does not take.
#[tactic(auto, using(crate::proofs::Small::nan_written))]
pub fn to_bits(x: f32) -> u32
    ensures { result ≡ to_bits binary32 x }
{
    if x.is_nan() {
        return 0x7fc0_0000;
    }
    x.to_bits()
}

// Neither infinite nor NaN.
#[tactic(auto, using(crate::proofs::Small::finite_is))]
pub fn is_finite(x: f32) -> bool
    ensures { result ≡ finite x }
{
    x.is_finite()
}

// The larger; a NaN is passed over. std's `max` leaves open which of 0 and -0 it returns.
#[tactic(auto, unfolding(crate::specs::Small::max_of))]
pub fn max(x: f32, y: f32) -> f32
    ensures { result ≡ max_of x y }
{
    if y.is_nan() || y < x {
        return x;
    }
    y
}

// Cut to lo..hi; a NaN is kept. std's `clamp` requires lo ≤ hi.
#[tactic(auto, unfolding(crate::specs::Small::clamp_of))]
pub fn clamp(x: f32, lo: f32, hi: f32) -> f32
    ensures { result ≡ clamp_of x lo hi }
{
    if x < lo {
        return lo;
    }
    if x > hi {
        return hi;
    }
    x
}
