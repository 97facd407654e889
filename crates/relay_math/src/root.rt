// The square root of IEEE 754-2019 (5.4.1), rounded to nearest even, in the standard's order. specs/Root.antt says what each step is. It is proved from the standard, and so no call of `f32::sqrt`, the processor's.

ghost use Rattle.std.specs.Prelude.{◌≡◌, false, None, ◌+◌, ◌-◌, ◌*◌, ◌/◌, ◌^◌, ◌≤◌, ◌<◌};
ghost use Rattle.std.specs.Float.{binary32};
ghost use Rattle.std.specs.Float.Ieee.{of_bits};
ghost use Rattle.std.specs.Float.Ieee.Exact.{HasValue};
ghost use Rattle.relay_math.specs.Root.{nearest_root_of, special_operands_of, unlimited_precision_of, rounding, exponent_range_of, root};

// m * 2 ^ c / 4 ^ 173 with 24 digits in m.
#[derive(Clone, Copy)]
struct Radicand {
    m: u64,
    c: u64,
}

// A number of at most 48 binary digits, of which the whole root is sought.
#[derive(Clone, Copy)]
struct Digits48 {
    n: u64,
    ghost below: { n < 2 ^ 48 },
}

// The exact root √n * 2 ^ e / 2 ^ 173: q is the whole root of n and has 24 digits, also where it is rounded up, and n determines the digits that follow. The standard's exponent, that of the leading digit, is e - 150.
#[derive(Clone, Copy)]
struct ExactRoot {
    n: u64,
    q: u64,
    e: u64,
    ghost least: { 2 ^ 46 ≤ n },
    ghost most: { n ≤ 2 ^ 48 - 2 ^ 24 },
    ghost below: { q * q ≤ n },
    ghost above: { n < (q + 1) * (q + 1) },
}

// The radicand of a pattern between zero's and infinity's. That m has 24 digits is said here, and of the rounded number below: a struct for each would wrap one number.
fn radicand_of(b: u32) -> Radicand
    requires { (0 < b) × (b < 0x7f80_0000) }
    ensures { (0x80_0000 ≤ result.m) × (result.m < 0x100_0000) × (174 ≤ result.c) × (result.c ≤ 450) × HasValue (of_bits binary32 b) false (result.m * 2 ^ result.c) (4 ^ 173) }
{
    if b >= 0x80_0000 {
        return Radicand {
            m: u64::from(b % 0x80_0000 + 0x80_0000),
            c: u64::from(b / 0x80_0000) + 196,
        };
    }
    let k = b.leading_zeros() - 8;
    Radicand {
        m: u64::from(b << k),
        c: 197 - u64::from(k),
    }
}

impl Digits48 {
    // A first estimate of the root: a straight line for each of the two octaves, within one part in a hundred. One test for both numbers took longer.
    fn near_root(self) -> u64
        ensures { (0x40_0000 ≤ result) × (result < 0x800_0000) }
    {
        let slope: u64 = if self.n < 0x8000_0000_0000 { 427 } else { 302 };
        let start: u64 = if self.n < 0x8000_0000_0000 {
            4_950_645
        } else {
            7_001_266
        };
        slope * (self.n / 0x2_0000_0000) + start
    }

    // A step of Newton's method from an estimate g: it is never below the whole root.
    fn closer(self, g: u64) -> u64
        requires { (0x20_0000 ≤ g) × (g < 0x800_0000) }
        ensures { (g / 2 ≤ result) × (result < 0x800_0000) × (self.n < (result + 1) * (result + 1)) }
    {
        (g + self.n / g) / 2
    }

    // The largest number whose square is at most n. std's `isqrt` bisects: a root by it took 14 times as long.
    fn whole_root(self) -> u64
        ensures { (result * result ≤ self.n) × (self.n < (result + 1) * (result + 1)) }
    {
        let g = self.near_root();
        let h = self.closer(g);
        let mut q = self.closer(h);
        while q * q > self.n {
            q -= 1;
        }
        q
    }
}

// 1. The special operands (6.1, 6.2, 6.3, 7.2): the root of one that has a rule of its own.
#[tactic(auto, using(crate::proofs::Special::between, crate::proofs::Special::infinite, crate::proofs::Special::negative, crate::proofs::Special::neither))]
fn special_operands(x: f32) -> Option<f32>
    ensures { result ≡ special_operands_of x }
{
    if x > 0.0 && x < f32::INFINITY {
        return None;
    }
    if x < 0.0 {
        return Some(f32::NAN);
    }
    Some(x)
}

impl ExactRoot {
    ghost use Rattle.relay_math.specs.RootCode.{SameRoot, exact_of, rounded_of};

    // The e of emin, -126: the exponent of the least normal number.
    const EMIN: u64 = 24;
    // The e of emax, 127.
    const EMAX: u64 = 277;

    // 2. The result as if to unlimited precision (5.1).
    fn unlimited_precision(x: f32) -> ExactRoot
        requires { special_operands_of x ≡ None }
        ensures { SameRoot (unlimited_precision_of x) (exact_of result) }
    {
        let s = radicand_of(x.to_bits());
        let odd = s.c % 2;
        let n = s.m * (0x100_0000 - odd * 0x80_0000);
        let digits = Digits48 { n };
        let q = digits.whole_root();
        ExactRoot {
            n,
            q,
            e: (s.c - 24 + odd) / 2,
        }
    }

    // 3. The rounding (4.3.1, roundTiesToEven) to 24 digits: √n is above q + 1 / 2 where n is above q * q + q, and no tie arises.
    fn rounding(self) -> u64
        ensures { (0x80_0000 ≤ result) × (result < 0x100_0000) × (rounded_of self result ≡ rounding binary32 (exact_of self)) }
    {
        if self.n - self.q * self.q > self.q {
            return self.q + 1;
        }
        self.q
    }

    // The whole number nearest to √n / 2 ^ k, at a tie the even one.
    fn nearest_root(self, k: u64) -> u64
        requires { k ≤ 24 }
        ensures { result ≡ nearest_root_of self.n k }
    {
        let d = self.q >> k;
        let h = (2 * d + 1) << k;
        if 4 * self.n < h * h {
            return d;
        }
        if 4 * self.n > h * h {
            return d + 1;
        }
        d + d % 2
    }

    // 4. The exponent's range (3.3, 7.4, 7.5): below the least normal number the nearest number of smallest values, from 2 ^ 128 on infinity. The leading digit of r adds one to the exponent's field.
    fn exponent_range(self, r: u64) -> f32
        requires { (0x80_0000 ≤ r) × (r < 0x100_0000) }
        ensures { result ≡ exponent_range_of binary32 (exact_of self) (rounded_of self r) }
    {
        if self.e < Self::EMIN {
            return f32::from_bits(self.nearest_root(Self::EMIN - self.e) as u32);
        }
        if self.e > Self::EMAX {
            return f32::INFINITY;
        }
        f32::from_bits(((self.e - Self::EMIN) * 0x80_0000 + r) as u32)
    }
}

// The square root, rounded to nearest even.
pub fn sqrtf(x: f32) -> f32
    ensures { result ≡ root x }
{
    if let Some(r) = special_operands(x) {
        return r;
    }
    let exact = ExactRoot::unlimited_precision(x);
    exact.exponent_range(exact.rounding())
}
