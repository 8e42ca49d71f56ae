// Whole-number division and rounding on i64, and the laws on ℤ that every other crate uses.

#![tactic(auto)]

ghost use Rattle.std.specs.Prelude.{◌≡◌, ◌<◌, ◌≤◌, pos, ◌-ℤ◌, ◌*ℤ◌, ◌<ℤ◌, ◌≤ℤ◌};
ghost use Rattle.integers.specs.Rounding.{floor, is_even, r};
ghost use Rattle.integers.specs.Bounds.{Bounded};

// The floor of a / b. That b is above 0 is asked at each call: a type for it would be built and taken apart at once.
pub fn floor_div(a: i64, b: i64) -> i64
    requires { pos 0 <ℤ b }
    ensures { result ≡ floor a b }
{
    a.div_euclid(b)
}

// What the floor of a / b leaves of a: from 0 to b - 1. The floor is at hand, so that no second division is needed; b times it may be below
// what i64 holds, and what is left of a is not.
fn remainder(a: i64, b: i64, low: i64) -> i64
    requires { (pos 0 <ℤ b) × (low ≡ floor a b) }
    ensures { result ≡ a -ℤ b *ℤ floor a b }
{
    a.wrapping_sub(b.wrapping_mul(low))
}

fn is_even(n: i64) -> bool
    ensures { result ≡ is_even n }
{
    n % 2 == 0
}

// r(a, b): nearest to a / b, halves to the even neighbour. The remainder decides, and nothing is doubled, so that every a and every
// b above 0 will do.
pub fn round(a: i64, b: i64) -> i64
    requires { pos 0 <ℤ b }
    ensures { result ≡ r a b }
{
    let low = floor_div(a, b);
    let past = remainder(a, b, low);
    let short = b - past;
    if past < short {
        return low;
    }
    if short < past {
        return low + 1;
    }
    if is_even(low) {
        return low;
    }
    low + 1
}

// r(a, b) where 2a + b fits and 2b is at hand: one division, of which nothing is left just where a / b is at a half.
pub fn round_small(a: i64, b: i64, twice: i64) -> i64
    requires { Bounded a (pos 2305843009213693952) × (pos 0 <ℤ b) × (b ≤ℤ pos 2305843009213693952) × (twice ≡ pos 2 *ℤ b) }
    ensures { result ≡ r a b }
{
    let sum = 2 * a + b;
    let up = floor_div(sum, twice);
    if 0 < remainder(sum, twice, up) {
        return up;
    }
    if is_even(up) {
        return up;
    }
    up - 1
}

// r(a, 2 half) of natural numbers: one less than half is added, or half where the quotient, cut off, is odd. Where half is a constant power of
// two both divisions are shifts.
pub fn round_natural(a: u64, half: u64) -> u64
    requires { (a ≤ 4611686018427387904) × (0 < half) × (half ≤ 4611686018427387904) }
    ensures { pos result ≡ r (pos a) (pos 2 *ℤ pos half) }
{
    (a + (half - 1) + a / (2 * half) % 2) / (2 * half)
}
