// Request W5: the count behind a temperature.

#![tactic(auto)]

ghost use Rattle.std.specs.Prelude.{◌≡◌, ℕ, ◌≤◌, true};
ghost use Rattle.scene.specs.Ranges.{ConstantsRange};
ghost use Rattle.scene.specs.BeforeBias.{before_bias};
ghost use Rattle.lastscan.specs.Ranges.{LastRange};
ghost use Rattle.lookup.specs.Lookup.{found_count_or_none, found_by, delivered_with, count_behind};
ghost use Rattle.lookup.specs.Steps.{count_with};

use instrument::CHANNELS;
use lastscan::LastScan;
use scene::{Constants, Curve};

// Why there is no answer, each with its number.
#[derive(Clone, Copy, Debug, PartialEq, Eq)]
pub enum Refusal {
    ChannelOutside = 11,
    NotCalibrated = 12,
}

// The counts are 2^16.
const HALVINGS: usize = 16;

// The only count that can fit: T rises with the count, so that one scene tells in which half of the counts it is.
fn only_candidate(curve: Curve, wanted: u32) -> u16
    ensures { (count : ℕ) → count ≤ 65535 → delivered_with wanted (before_bias curve.constants count) ≡ true → count ≡ result }
{
    let mut first = 0u16;
    let mut half = 32_768u16;
    // Counts its turns: no list is gone through.
    for _ in 0..HALVINGS {
        if curve.placed_units(first + half) <= i64::from(wanted) {
            first += half;
        }
        half /= 2;
    }
    first
}

// The count behind a wanted T in a channel without a flag, or none, by 17 scenes.
fn count_with(k: Constants, wanted: u32) -> Option<u16>
    requires { ConstantsRange k }
    ensures { found_count_or_none result ≡ count_with k wanted }
{
    let curve = Curve::of(k);
    let count = only_candidate(curve, wanted);
    (curve.placed_units(count) == i64::from(wanted)).then_some(count)
}

// By what is kept of the last accepted scan: the count, or none where no count fits. Channels are counted from 1.
pub fn count_behind(last: LastScan, channel: u32, wanted: u32) -> Result<Option<u16>, Refusal>
    requires { LastRange last }
    ensures { found_by result ≡ count_behind last channel wanted }
{
    if !(1..=CHANNELS as u32).contains(&channel) {
        return Err(Refusal::ChannelOutside);
    }
    let Some(all) = last else {
        return Err(Refusal::NotCalibrated);
    };
    match all[channel as usize - 1] {
        Ok(constants) => Ok(count_with(constants, wanted)),
        Err(_) => Err(Refusal::NotCalibrated),
    }
}
