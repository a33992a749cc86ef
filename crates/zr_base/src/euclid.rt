ghost use Rattle.std.specs.Prelude.{◌≡◌, ◌<◌, ◌%◌, ◌^◌, pos, ◌<ℤ◌, ◌≤ℤ◌, ◌*ℤ◌, neg_ℤ, int_div, true, unsigned_abs};
ghost use Rattle.std.specs.Int.{IsGcd, ◌∣◌};
ghost use Rattle.zr_base.specs.Fractions.{ratio};
ghost use Rattle.zr_base.specs.Lowest.{IsRatio, IsLowest, gcd_of, reduce};

/// What a division leaves, by one of 64-bit numbers where both are such.
fn remainder(a: u128, by: u128) -> u128
    requires { 0 < by }
    ensures { result ≡ a % by }
{
    if a <= u64::MAX as u128 && by <= u64::MAX as u128 {
        return (a as u64 % by as u64) as u128;
    }
    a % by
}

/// The greatest common divisor.
pub fn gcd(a: u128, b: u128) -> u128
    ensures gcd { IsGcd a b result }
    ensures value { result ≡ gcd_of a b }
{
    let mut x = a;
    let mut y = b;
    while y != 0 {
        let rest = remainder(x, y);
        x = y;
        y = rest;
    }
    x
}

/// The greatest common divisor of a number and one above 0, at least 1.
pub fn common(a: i128, b: i128) -> i128
    requires { pos 0 <ℤ b }
    ensures positive { pos 0 <ℤ result }
    ensures gcd { IsGcd (unsigned_abs a) (unsigned_abs b) (unsigned_abs result) }
    ensures value { result ≡ pos (gcd_of (unsigned_abs a) (unsigned_abs b)) }
{
    gcd(a.unsigned_abs(), b.unsigned_abs()) as i128
}

/// Whether a number has at most 64 bits with its sign.
fn is_short(a: i128) -> bool
    ensures { result ≡ true → (neg_ℤ (pos (2 ^ 63)) ≤ℤ a) × (a <ℤ pos (2 ^ 63)) }
{
    i64::MIN as i128 <= a && a <= i64::MAX as i128
}

/// What is left of a number where a divisor is taken out.
pub fn divided(a: i128, by: i128) -> i128
    requires positive { pos 0 <ℤ by }
    requires divides { unsigned_abs by ∣ unsigned_abs a }
    ensures value { result ≡ int_div a by }
    ensures exact { result *ℤ by ≡ a }
{
    if is_short(a) && is_short(by) {
        return (a as i64 / by as i64) as i128;
    }
    a / by
}

/// Both numbers without their greatest common divisor.
pub(crate) fn lowest_terms(num: i128, den: i128) -> (i128, i128)
    requires { IsRatio num den }
    ensures value { ratio result.0 result.1 ≡ reduce num den }
    ensures lowest { IsLowest (ratio result.0 result.1) }
{
    let shared = common(num, den);
    (divided(num, shared), divided(den, shared))
}
