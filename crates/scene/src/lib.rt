// Document 01, "Scenes": one scene.

#![tactic(auto)]

ghost use Rattle.std.specs.Prelude.{◌≡◌, not, T, pos, nat_abs, ◌+ℤ◌, ◌*ℤ◌, ◌≤ℤ◌};
ghost use Rattle.std.specs.Float.Ieee.{is_nan};
ghost use Rattle.integers.specs.Bounds.{Bounded};
ghost use Rattle.scene.specs.Temperature.{temperature, biased};
ghost use Rattle.scene.specs.Scene.{kelvin, value, bits, scene_of};
ghost use Rattle.scene.specs.Ranges.{ConstantsRange};
ghost use Rattle.scene.specs.Steps.{scale_of, Bracket, unsure_of, c0_of, e_of, BiasNumbers, bend_of, placed};

use integers::{floor_div, round_natural, round_small};

// A temperature in kelvin, or a mark: the form that document 01 names for a scene.
#[derive(Clone, Copy)]
pub enum Scene {
    Kelvin(f32),
    Flagged,
    Outside,
    Guard,
}

// What a scene needs of its channel, formed before the position loop.
#[derive(Clone, Copy)]
pub struct Constants {
    pub tc: i64,
    pub rise: i64,
    pub tnl: i64,
    pub d: i64,
    pub slope: i64,
    pub base: i64,
}

// Why a channel has no scenes, each with its number: thermometers, warm counts or cold counts are too few, or the mean of the warm counts is
// not above that of the cold ones.
#[derive(Clone, Copy, Debug, PartialEq, Eq)]
pub enum Flag {
    ThermometersMissing = 1,
    WarmMissing = 2,
    ColdMissing = 3,
    WarmNotAbove = 4,
}

// What the scenes of a channel need, or its flag.
pub type Channel = Result<Constants, Flag>;

// What the scenes of a channel share, formed of its constants before the position loop, so that most need no division: 2^63 / D, cut off;
// the greatest rest of 2^32 that 33 times the rise does not fill; 5D / 4, cut off, the greatest N that is not outside; 4 TNL; Tc - 2^20,
// from where the raised bend leads to T; and 2D, for the counts that are divided.
#[derive(Clone, Copy)]
struct Scale {
    inverse: u64,
    edge: u32,
    top: i64,
    curve: i64,
    start: i64,
    twice: i64,
}

// The constants of a channel without a flag, and the scale that is formed of them.
#[derive(Clone, Copy)]
pub struct Curve {
    pub constants: Constants,
    scale: Scale,
    ghost range: { ConstantsRange constants },
    ghost formed: { scale ≡ scale_of constants },
}

// The scan bias of a position as two numbers: the factor is 65,536 + e, and the offset has c0 and one less than the half of the rounding.
#[derive(Clone, Copy)]
pub struct ScanBias {
    pub factor: u32,
    pub offset: u32,
    ghost range: { BiasNumbers factor offset },
}

fn scale_of(k: Constants) -> Scale
    requires { ConstantsRange k }
    ensures { result ≡ scale_of k }
{
    Scale {
        inverse: 9_223_372_036_854_775_808 / k.d as u64,
        edge: 4_294_967_294 - 33 * k.rise as u32,
        top: floor_div(5 * k.d, 4),
        curve: 4 * k.tnl,
        start: k.tc - 1_048_576,
        twice: 2 * k.d,
    }
}

// Whether a half may lie in the bracket, of X or of the linear part. Both come with all but the least part of a half added, so that their
// whole part is the nearest whole number, and their rest says how far the next half is.
fn unsure(x: u64, linear: u64, edge: u32) -> bool
    ensures { result ≡ unsure_of x linear edge }
{
    65_501 < x % 65_536 || edge < (linear % 4_294_967_296) as u32
}

// r(X(65,536 - X) × 4 TNL, 2^32), raised by 2^20: what is rounded is then never negative, the divisions are shifts, and 2^20 is
// even, so that the even neighbour stays the even one.
fn raised_bend(x: i64, curve: i64) -> i64
    requires { Bounded x (pos 81920) × Bounded curve (pos 32768) }
    ensures { result ≡ bend_of x curve +ℤ pos 1048576 }
{
    let raised = x * (65_536 - x) * curve + 4_503_599_627_370_496;
    round_natural(raised as u64, 2_147_483_648) as i64
}

// T, in units, of X and the linear part.
fn units_of(start: i64, curve: i64, x: i64, linear: i64) -> i64
    requires { Bounded start (pos 1037410) × Bounded curve (pos 32768) × Bounded x (pos 81920) × Bounded linear (pos 1696890) }
    ensures { result ≡ start +ℤ linear +ℤ (bend_of x curve +ℤ pos 1048576) }
{
    start + linear + raised_bend(x, curve)
}

impl ScanBias {
    // What is delivered for T: c0 + r((65,536 + e) × T, 65,536), rounded as `round_natural` does it.
    fn biased_units(self, t: i64) -> i32
        requires { (pos 11166 ≤ℤ t) × (t ≤ℤ pos 1832984) }
        ensures { result ≡ biased (c0_of self.offset) (e_of self.factor) t }
    {
        let product = u64::from(self.factor) * t as u64;
        ((product + u64::from(self.offset) + product / 65_536 % 2) / 65_536) as i32 - 32_768
    }
}

// t / 4096: a whole number below 2^24 is cast without loss, and the product with a power of two is exact. An i32 becomes an f32 by one
// instruction.
fn kelvin_of(t: i32) -> f32
    requires { (pos 1 ≤ℤ t) × (t ≤ℤ pos 16777215) }
    ensures { result ≡ kelvin (nat_abs t) }
{
    (t as f32) * (1.0 / 4096.0)
}

impl Curve {
    pub fn of(k: Constants) -> Curve
        requires { ConstantsRange k }
        ensures { result.constants ≡ k }
    {
        Curve {
            constants: k,
            scale: scale_of(k),
        }
    }

    // N / D lies from here to 33 more, in 2^32ths. N is a plain number whose range is asked: three methods, one behind the other, do arithmetic
    // with it.
    fn low_end(self, n: i64) -> u64
        requires { (pos 0 ≤ℤ n) × ((pos 4 *ℤ n) ≤ℤ (pos 5 *ℤ self.constants.d)) }
        ensures { Bracket n self.constants.d result }
    {
        n as u64 * self.scale.inverse / 2_147_483_648
    }

    // T by the divisions as they are written.
    fn divided_units(self, n: i64) -> i64
        requires { (pos 0 ≤ℤ n) × ((pos 4 *ℤ n) ≤ℤ (pos 5 *ℤ self.constants.d)) }
        ensures { result ≡ temperature self.constants.tc self.constants.rise self.constants.tnl self.constants.d n }
    {
        let k = self.constants;
        let x = round_small(65_536 * n, k.d, self.scale.twice);
        let linear = round_small(n * k.rise, k.d, self.scale.twice);
        units_of(self.scale.start, self.scale.curve, x, linear)
    }

    // T by a product in place of each division, where no half lies in the bracket.
    fn units(self, n: i64) -> i64
        requires { (pos 0 ≤ℤ n) × ((pos 4 *ℤ n) ≤ℤ (pos 5 *ℤ self.constants.d)) }
        ensures { result ≡ temperature self.constants.tc self.constants.rise self.constants.tnl self.constants.d n }
    {
        let low = self.low_end(n);
        let x = low + 32_767;
        let linear = low * self.constants.rise as u64 + 2_147_483_647;
        if unsure(x, linear, self.scale.edge) {
            return self.divided_units(n);
        }
        units_of(
            self.scale.start,
            self.scale.curve,
            (x / 65_536) as i64,
            (linear / 4_294_967_296) as i64,
        )
    }

    // The scene of a count, after scan bias. The guard is not tested: T of constants in their ranges is from 11,166 to 1,832,984.
    pub fn scene_of(self, bias: ScanBias, count: u16) -> Scene
        ensures { result ≡ scene_of (biased (c0_of bias.offset) (e_of bias.factor)) self.constants count }
    {
        let n = self.constants.slope * i64::from(count) - self.constants.base;
        if n < 0 {
            return Scene::Outside;
        }
        if self.scale.top < n {
            return Scene::Outside;
        }
        let t = self.units(n);
        Scene::Kelvin(kelvin_of(bias.biased_units(t)))
    }

    // T of a count before scan bias, for a search for a T: -1 where N is negative and 2^32 where 4N exceeds 5D, so that it never falls from a
    // count to the next.
    pub fn placed_units(self, count: u16) -> i64
        ensures { result ≡ placed self.constants count }
    {
        let n = self.constants.slope * i64::from(count) - self.constants.base;
        if n < 0 {
            return -1;
        }
        if self.scale.top < n {
            return 4_294_967_296;
        }
        self.units(n)
    }
}

// A match: the marks are document 01's values, and no discriminant is an f32.
fn value_of(s: Scene) -> f32
    ensures { result ≡ value s }
{
    match s {
        Scene::Kelvin(x) => x,
        Scene::Flagged => -1.0,
        Scene::Outside => -2.0,
        Scene::Guard => -3.0,
    }
}

// The four bytes of a scene in the product, as a number.
pub fn bits_of(s: Scene) -> u32
    requires { T (not (is_nan (value s))) }
    ensures { result ≡ bits s }
{
    f32::to_bits(value_of(s))
}
