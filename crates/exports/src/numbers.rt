// Flags, bits and floats as numbers.

ghost use Rattle.std.specs.Prelude.{◌≡◌, ◌<◌};
ghost use Rattle.relay_math.specs.Small.{number_at, float_at, flag_at};
ghost use Rattle.exports.specs.Numbers.{bit};

use relay_math::from_bits;

// The answer where a number stands for nothing: the C interface has numbers alone.
pub const UNKNOWN: u32 = 0xffff_ffff;

// Whether the bit of a power of two is set in n.
pub(crate) fn is_set(n: u32, power: u32) -> bool
    requires { 0 < power }
    ensures { result ≡ bit n power }
{
    n / power % 2 == 1
}

// The number at a place, 0 beyond the end.
pub fn number(ns: &[u32], i: usize) -> u32
    ensures { result ≡ number_at ns.now i }
{
    ns.get(i).copied().unwrap_or(0)
}

// The float whose bits stand at a place, 0.0 beyond the end.
pub fn float(ns: &[u32], i: usize) -> f32
    ensures { result ≡ float_at ns.now i }
{
    from_bits(number(ns, i))
}

// The flag at a place: 1 is true, any other number false.
pub fn is_one(ns: &[u32], i: usize) -> bool
    ensures { result ≡ flag_at ns.now i }
{
    number(ns, i) == 1
}
