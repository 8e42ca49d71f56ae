// Request W5: what a calibrator keeps of the last accepted scan, apart from the window; and the same as numbers, for a state.

#![tactic(auto)]

ghost use Rattle.std.specs.Prelude.{◌≡◌, ℕ, ◌*◌, ◌<◌, [], ◌∷◌, Ok, pos, ◌≤ℤ◌};
ghost use Rattle.integers.specs.Bounds.{Bounded};
ghost use Rattle.lists.specs.Count.{every};
ghost use Rattle.instrument.specs.Instrument.{channels};
ghost use Rattle.thermometer.specs.Reading.{from_to};
ghost use Rattle.scene.specs.Ranges.{ConstantsRange};
ghost use Rattle.product.specs.Ranges.{ChannelRange};
ghost use Rattle.lastscan.specs.Ranges.{LastRange};
ghost use Rattle.lastscan.specs.Numbers.{high_half, low_half, complement, numbers_of_channel, numbers_of, wide, numbers_part, constants_by, channel_by, last_by, constants_inside, all_zero, channel_numbers_inside, last_inside, SmallPart};

use instrument::CHANNELS;
use scene::{Channel, Constants, Flag};

// The channels of the last accepted scan; none before the first.
pub type LastScan = Option<[Channel; CHANNELS]>;

// How many numbers a channel has, and a scan.
const CHANNEL_NUMBERS: usize = 9;

pub const LAST_NUMBERS: usize = 1 + CHANNEL_NUMBERS * CHANNELS;

// The numbers of a scan: whether one is kept, and behind that each channel's.
pub type LastNumbers = [u32; LAST_NUMBERS];

// ---- a scan as numbers

// Two's complement.
fn complement_of(n: i64) -> u32
    requires { Bounded n (pos 8192) }
    ensures { result ≡ complement n }
{
    (n as i32).cast_unsigned()
}

// The high half and the low half of a number of 64 bits.
fn halves_of(n: i64) -> [u32; 2]
    requires { pos 0 ≤ℤ n }
    ensures { result ≡ high_half n ∷ low_half n ∷ [] }
{
    let wide = n as u64;
    [(wide / 4_294_967_296) as u32, (wide % 4_294_967_296) as u32]
}

// The nine numbers of a channel without a flag.
fn numbers_of_constants(k: Constants) -> [u32; CHANNEL_NUMBERS]
    requires { ConstantsRange k }
    ensures { result ≡ numbers_of_channel (Ok k) }
{
    let d = halves_of(k.d);
    let base = halves_of(k.base);
    [
        0,
        k.tc as u32,
        k.rise as u32,
        complement_of(k.tnl),
        d[0],
        d[1],
        k.slope as u32,
        base[0],
        base[1],
    ]
}

fn numbers_of_channel(channel: Channel) -> [u32; CHANNEL_NUMBERS]
    requires { ChannelRange channel }
    ensures { result ≡ numbers_of_channel channel }
{
    match channel {
        Ok(constants) => numbers_of_constants(constants),
        Err(flag) => [flag as u32, 0, 0, 0, 0, 0, 0, 0, 0],
    }
}

#[tactic(auto, unfolding(crate::specs::Numbers::numbers_of))]
pub fn numbers_of(last: LastScan) -> LastNumbers
    requires { LastRange last }
    ensures { result ≡ numbers_of last }
{
    let Some(all) = last else {
        return [0; LAST_NUMBERS];
    };
    let mut out = [0; LAST_NUMBERS];
    out[0] = 1;
    for (c, &channel) in all.iter().enumerate() {
        lists::copy(
            &numbers_of_channel(channel),
            &mut out,
            1 + CHANNEL_NUMBERS * c,
        );
    }
    out
}

// ---- which numbers are those of a scan

fn wide_of(high: u32, low: u32) -> u64
    ensures { result ≡ wide high low }
{
    4_294_967_296 * u64::from(high) + u64::from(low)
}

// D is from 1 to 65,535 × 12 × Wc × Ww.
fn d_inside(d: u64, slope: u32) -> bool
    ensures { result ≡ from_to 1 (65535 * slope) d }
{
    (1..=65_535 * u64::from(slope)).contains(&d)
}

fn constants_inside(part: &[u32; CHANNEL_NUMBERS]) -> bool
    ensures { result ≡ constants_inside part.now }
{
    (11_166..=43_934).contains(&part[1])
        && (825_032..=1_357_512).contains(&part[2])
        && table::size_to(8_192, i64::from(part[3].cast_signed()))
        && d_inside(wide_of(part[4], part[5]), part[6])
        && part[6] <= 780_300
        && wide_of(part[7], part[8]) <= 51_136_960_500
}

fn all_zero(numbers: &[u32]) -> bool
    ensures { result ≡ all_zero numbers.now }
{
    numbers.iter().all(|&n| n == 0)
}

#[tactic(auto, unfolding(crate::specs::Numbers::channel_numbers_inside))]
fn channel_inside(part: &[u32; CHANNEL_NUMBERS]) -> bool
    ensures { result ≡ channel_numbers_inside part.now }
{
    if part[0] == 0 {
        return constants_inside(part);
    }
    part[0] <= 4 && all_zero(&part[1..])
}

// The nine numbers of channel c.
fn part_of(numbers: &LastNumbers, c: usize) -> [u32; CHANNEL_NUMBERS]
    requires { c < channels }
    ensures { result ≡ numbers_part numbers.now c }
{
    let at = 1 + CHANNEL_NUMBERS * c;
    let mut part = [0; CHANNEL_NUMBERS];
    part.copy_from_slice(&numbers[at..at + CHANNEL_NUMBERS]);
    part
}

fn channels_inside(numbers: &LastNumbers) -> bool
    ensures { result ≡ every (λ c. channel_numbers_inside (numbers_part numbers.now c)) channels }
{
    (0..CHANNELS).all(|c| channel_inside(&part_of(numbers, c)))
}

// Whether nothing is kept, or a scan is, where one was accepted.
#[tactic(auto, unfolding(crate::specs::Numbers::last_inside))]
pub fn last_inside(accepted: bool, numbers: &LastNumbers) -> bool
    ensures { result ≡ last_inside accepted numbers.now }
{
    if numbers[0] != 1 {
        return all_zero(numbers);
    }
    accepted && channels_inside(numbers)
}

// ---- numbers as a scan

// That wide numbers have at most 63 bits is asked at each call: a type for it would be built of nine numbers and taken apart at once.
fn constants_by(part: &[u32; CHANNEL_NUMBERS]) -> Constants
    requires { SmallPart part.now }
    ensures { result ≡ constants_by part.now }
{
    Constants {
        tc: i64::from(part[1]),
        rise: i64::from(part[2]),
        tnl: i64::from(part[3].cast_signed()),
        d: wide_of(part[4], part[5]) as i64,
        slope: i64::from(part[6]),
        base: wide_of(part[7], part[8]) as i64,
    }
}

// A match: a `try_from` in `scene` would refuse numbers above 4, which have flag 4 here and which `last_inside` refuses.
#[tactic(auto, unfolding(scene::specs::Channel::channel_with))]
fn channel_by(part: &[u32; CHANNEL_NUMBERS]) -> Channel
    requires { SmallPart part.now }
    ensures { result ≡ channel_by part.now }
{
    match part[0] {
        0 => Ok(constants_by(part)),
        1 => Err(Flag::ThermometersMissing),
        2 => Err(Flag::WarmMissing),
        3 => Err(Flag::ColdMissing),
        _ => Err(Flag::WarmNotAbove),
    }
}

// The scan that these numbers are.
#[tactic(auto, unfolding(crate::specs::Numbers::last_by))]
pub fn last_by(numbers: &LastNumbers) -> LastScan
    requires { (c : ℕ) → c < channels → SmallPart (numbers_part numbers.now c) }
    ensures { result ≡ last_by numbers.now }
{
    if numbers[0] != 1 {
        return None;
    }
    Some(std::array::from_fn(|c| channel_by(&part_of(numbers, c))))
}
