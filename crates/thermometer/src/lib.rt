// Document 01, "Thermometer rule (equations 18, 19)" and "One thermometer".

#![tactic(auto)]

ghost use Rattle.std.specs.Prelude.{◌≡◌, ◌≤◌, ◌<◌, pos, ◌+ℤ◌, ◌≤ℤ◌};
ghost use Rattle.integers.specs.Bounds.{Bounded};
ghost use Rattle.thermometer.specs.Rule.{M, q, s1, s2, F, answer, lowest_units, units_at_place, InRange};
ghost use Rattle.thermometer.specs.Steps.{held_between, on_line_through_zero, on_chord, nearby_units, reached_at, past_at, Encloses};
ghost use Rattle.thermometer.specs.Ranges.{Admissible};
ghost use Rattle.thermometer.specs.Reading.{resistance_inside, coefficients_inside, result_of, reading};

use integers::floor_div;

// The range of t, in units of °C, and the last place in it, counted from 0.
const LOWEST: i64 = -245_760;

const HIGHEST: i64 = 245_760;

const LAST_PLACE: u64 = 491_520;

// Why a thermometer gives no t, each with document 01's number.
#[derive(Clone, Copy, Debug, PartialEq, Eq)]
pub enum Refusal {
    CoefficientOutside = 8,
    PamNotAboveOffset = 9,
    RatioOutside = 10,
}

// The coefficients of one thermometer, in their ranges.
#[derive(Clone, Copy)]
struct Coefficients {
    alpha: u32,
    delta: u32,
    beta: u32,
    ghost admissible: { Admissible alpha delta beta },
}

// q, of which both terms are made. t is a plain number: five functions, one behind the other, do arithmetic with it.
fn q_at(t: i64) -> i64
    requires { InRange t }
    ensures { result ≡ q t }
{
    t * (t - 409_600)
}

// t, or the end of low..high that it is beyond.
fn held_between(low: i64, high: i64, t: i64) -> i64
    ensures { result ≡ held_between low high t }
{
    if t < low {
        return low;
    }
    if high < t {
        return high;
    }
    t
}

// Where a line through F(0) that rises by alpha / 240,000 a unit comes to m.
fn on_line(alpha: u32, m: i64) -> i64
    requires { (3000000 ≤ alpha) × Bounded m (pos 22000000) }
    ensures { result ≡ on_line_through_zero alpha m }
{
    let t = floor_div((m - 16_777_216) * 240_000, i64::from(alpha));
    held_between(LOWEST, 243_712, t)
}

impl Coefficients {
    // s1, the term with delta.
    fn quadratic_term(self, t: i64) -> i64
        requires { InRange t }
        ensures { result ≡ s1 self.delta t }
    {
        floor_div(i64::from(self.delta) * q_at(t), 160_000_000_000)
    }

    // s2, the term with beta, which counts below freezing only.
    fn quartic_term(self, t: i64) -> i64
        requires { InRange t }
        ensures { result ≡ s2 self.beta t }
    {
        if 0 <= t {
            return 0;
        }
        let y = floor_div(q_at(t), 10_000);
        let w = floor_div(t * t, 10_000);
        let h = floor_div(y * w, 16_777_216);
        floor_div(i64::from(self.beta) * h, 16_000_000)
    }

    // F(t), 2^24 times the ratio of the resistance at t to R0.
    fn ratio(self, t: i64) -> i64
        requires { InRange t }
        ensures { result ≡ F self.alpha self.delta self.beta t }
    {
        let s1 = self.quadratic_term(t);
        let s2 = self.quartic_term(t);
        16_777_216 + floor_div(i64::from(self.alpha) * (256 * t - s1 - s2), 62_500_000)
    }

    // F at place k of the range of t.
    fn ratio_at(self, k: u64) -> i64
        requires { k ≤ 491520 }
        ensures { result ≡ F self.alpha self.delta self.beta (units_at_place k) }
    {
        self.ratio(k as i64 + LOWEST)
    }

    // Where the chord of F from t to t + 2,048 comes to m.
    fn on_chord(self, m: i64, t: i64) -> i64
        requires { Bounded m (pos 22000000) × InRange t × InRange (t +ℤ pos 2048) }
        ensures { result ≡ on_chord self.alpha self.delta self.beta m t }
    {
        let from = self.ratio(t);
        let to = self.ratio(t + 2_048);
        let u = t + floor_div((m - from) * 2_048, to - from);
        held_between(LOWEST, HIGHEST - 1, u)
    }

    // A place before the last and near that of the answer, by one step of the secant method: F is nearly a line. No F is above 22,000,000.
    fn nearby(self, m: i64) -> u64
        requires { F self.alpha self.delta self.beta lowest_units ≤ℤ m }
        ensures { units_at_place result ≡ nearby_units self.alpha self.delta self.beta m }
    {
        if 22_000_000 < m {
            return LAST_PLACE - 1;
        }
        let t = on_line(self.alpha, m);
        let u = self.on_chord(m, t);
        (u - LOWEST) as u64
    }

    // A place at which F is at most m: `near`, and else the first.
    fn reached_at(self, m: i64, near: u64) -> u64
        requires { near ≤ 491520 }
        ensures { result ≡ reached_at self.alpha self.delta self.beta m near }
    {
        if self.ratio_at(near) <= m {
            return near;
        }
        0
    }

    // A place from which on F is above m: two after `near`, and else one after the last.
    fn past_at(self, m: i64, near: u64) -> u64
        requires { near ≤ 491520 }
        ensures { result ≡ past_at self.alpha self.delta self.beta m near }
    {
        if LAST_PLACE - 2 < near {
            return LAST_PLACE + 1;
        }
        if m < self.ratio_at(near + 2) {
            return near + 2;
        }
        LAST_PLACE + 1
    }

    // The greatest t with F(t) at most m, by halving between two places that enclose it: F rises with t.
    fn greatest_between(self, m: i64, first: u64, end: u64) -> i64
        requires { Encloses self.alpha self.delta self.beta m first end }
        ensures { result ≡ answer self.alpha self.delta self.beta m }
    {
        let mut reached = first;
        let mut past = end;
        while past - reached > 1 {
            let middle = reached + (past - reached) / 2;
            if self.ratio_at(middle) <= m {
                reached = middle;
            } else {
                past = middle;
            }
        }
        reached as i64 + LOWEST
    }

    // The greatest t with F(t) at most m. The place after the guess is the lower end of the halving or the upper one, as F says.
    fn greatest_units(self, m: i64) -> i64
        requires { F self.alpha self.delta self.beta lowest_units ≤ℤ m }
        ensures { result ≡ answer self.alpha self.delta self.beta m }
    {
        let near = self.nearby(m);
        if self.ratio_at(near + 1) <= m {
            let past = self.past_at(m, near);
            return self.greatest_between(m, near + 1, past);
        }
        let reached = self.reached_at(m, near);
        self.greatest_between(m, reached, near + 1)
    }
}

// M, 2^24 times the measured ratio.
fn measured_ratio(rpam: u32, r0: u32, pam: u16, offset: u16, count: u16) -> i64
    requires { (rpam ≤ 4000000) × (0 < r0) × (r0 ≤ 4000000) × (offset < pam) × (offset ≤ count) }
    ensures { result ≡ M rpam r0 pam offset count }
{
    let above = u64::from(count - offset);
    let span = u64::from(pam - offset);
    (u64::from(rpam) * above * 16_777_216 / (span * u64::from(r0))) as i64
}

// Whether R_PAM or an R0 is in its range.
pub fn resistance_inside(r: u32) -> bool
    ensures { result ≡ resistance_inside r }
{
    (1_000..=4_000_000).contains(&r)
}

// Whether the coefficients of one thermometer are in their ranges.
pub fn coefficients_inside(r0: u32, alpha: u32, delta: u32, beta: u32) -> bool
    ensures { result ≡ coefficients_inside r0 alpha delta beta }
{
    resistance_inside(r0)
        && (3_000_000..=5_000_000).contains(&alpha)
        && delta <= 2_000_000
        && beta <= 500_000
}

// One thermometer, t in units of °C: the tests in document 01's order, then the rule.
pub fn thermometer(
    rpam: u32,
    r0: u32,
    alpha: u32,
    delta: u32,
    beta: u32,
    pam: u16,
    offset: u16,
    count: u16,
) -> Result<i64, Refusal>
    ensures { result_of result ≡ reading rpam r0 alpha delta beta pam offset count }
{
    if !resistance_inside(rpam) {
        return Err(Refusal::CoefficientOutside);
    }
    if !coefficients_inside(r0, alpha, delta, beta) {
        return Err(Refusal::CoefficientOutside);
    }
    if pam <= offset {
        return Err(Refusal::PamNotAboveOffset);
    }
    if count < offset {
        return Err(Refusal::RatioOutside);
    }
    let m = measured_ratio(rpam, r0, pam, offset, count);
    let coefficients = Coefficients { alpha, delta, beta };
    if m < coefficients.ratio(LOWEST) {
        return Err(Refusal::RatioOutside);
    }
    if coefficients.ratio(HIGHEST) < m {
        return Err(Refusal::RatioOutside);
    }
    Ok(coefficients.greatest_units(m))
}
