// Document 01, "The product": the writer of a whole product.

#![tactic(auto)]

ghost use Rattle.std.specs.Prelude.{◌≡◌, ◌++◌, ℕ, ◌+◌, ◌*◌, ◌<◌, ◌≤◌, length, drop, get_or};
ghost use Rattle.lists.specs.Build.{put};
ghost use Rattle.lists.specs.Sum.{sum};
ghost use Rattle.instrument.specs.Instrument.{channels};
ghost use Rattle.record.specs.Record.{earth_size};
ghost use Rattle.scene.specs.Temperature.{biased};
ghost use Rattle.scene.specs.Steps.{c0_of, e_of};
ghost use Rattle.scene.specs.Channel.{channel_flag};
ghost use Rattle.product.specs.Scenes.{no_channel};
ghost use Rattle.product.specs.Ranges.{ChannelRange};
ghost use Rattle.product.specs.Summary.{none_delivered, with_temperature, with_scene, summary_of};
ghost use Rattle.product.specs.Product.{product_size, stretch_size, summary_size, channel_scenes, scene_bytes, summary_bytes, summaries, summaries_bytes, flag_bytes, product_of, delivered_count};
ghost use Rattle.product.specs.Steps.{Plain, with_pairs, pairs_size, pairs_part, by_pairs, PairsRange, CurveOf, scene_by};

use fields::{Field, HEAD};
use instrument::{CHANNELS, POSITIONS};
use record::EARTH_SIZE;
use scene::{Channel, Curve, Flag, ScanBias, Scene};

// The layout, and where each field begins.
const LAYOUT: [Field; 4] = [
    Field { tag: 0x20, size: 4 },
    Field {
        tag: 0x21,
        size: 22,
    },
    Field {
        tag: 0x22,
        size: 8448,
    },
    Field {
        tag: 0x23,
        size: 220,
    },
];

const NUMBER: usize = 0;

const FLAGS: usize = NUMBER + HEAD + LAYOUT[0].size as usize;

const SCENES: usize = FLAGS + HEAD + LAYOUT[1].size as usize;

const SUMMARIES: usize = SCENES + HEAD + LAYOUT[2].size as usize;

pub const PRODUCT_SIZE: usize = SUMMARIES + HEAD + LAYOUT[3].size as usize;

// Where the values of the first two start.
pub const NUMBER_AT: usize = NUMBER + HEAD;

pub const FLAGS_AT: usize = FLAGS + HEAD;

// The bytes of a channel's scenes, four each, and of a channel's summary.
const STRETCH_SIZE: usize = 4 * POSITIONS;

const SUMMARY_SIZE: usize = 10;

// How many numbers the scan bias of a channel has.
const PAIRS_SIZE: usize = 2 * POSITIONS;

// Of a channel: how many scenes are delivered, the lowest and the highest temperature. The form that document 01 names.
#[derive(Clone, Copy)]
pub struct Summary {
    pub count: u16,
    pub low: f32,
    pub high: f32,
}

impl Summary {
    fn none() -> Self
        ensures { result ≡ none_delivered }
    {
        Summary {
            count: 0,
            low: -1.0,
            high: -1.0,
        }
    }

    fn with_temperature(self, x: f32) -> Self
        requires { self.count < 65535 }
        ensures { result ≡ with_temperature self x }
    {
        if self.count == 0 {
            return Summary {
                count: 1,
                low: x,
                high: x,
            };
        }
        Summary {
            count: self.count + 1,
            low: if x < self.low { x } else { self.low },
            high: if self.high < x { x } else { self.high },
        }
    }

    fn with_scene(self, s: Scene) -> Self
        requires { self.count < 65535 }
        ensures { result ≡ with_scene self s }
    {
        match s {
            Scene::Kelvin(x) => self.with_temperature(x),
            Scene::Flagged => self,
            Scene::Outside => self,
            Scene::Guard => self,
        }
    }
}

// What turns the counts of a channel into temperatures; a flagged channel has its flag alone.
fn curve_of(channel: Channel) -> Result<Curve, Flag>
    requires { ChannelRange channel }
    ensures { CurveOf channel result }
{
    channel.map(Curve::of)
}

// The scene of a count, after scan bias.
fn scene_by(curve: Result<Curve, Flag>, bias: ScanBias, count: u16) -> Scene
    ensures { result ≡ scene_by (biased (c0_of bias.offset) (e_of bias.factor)) curve count }
{
    match curve {
        Ok(curve) => curve.scene_of(bias, count),
        Err(_) => Scene::Flagged,
    }
}

// ---- writing

// The scenes of a channel into its own stretch; `pairs` and `part` are the channel's parts of the scan bias and of the earth counts.
// `pairs` is a row of numbers, and not of `ScanBias`, since the C function `compared_product` lends it.
fn write_channel(out: &mut [u8], channel: Channel, pairs: &[u32], part: &[u8]) -> Summary
    requires out_len { (length out.old ≡ stretch_size) × (length part.now ≡ earth_size) × ChannelRange channel }
    requires pairs_len { (length pairs.now ≡ pairs_size) × PairsRange pairs.now }
    ensures { (result ≡ summary_of (with_pairs pairs.now) channel part.now) × (out.new ≡ channel_scenes (with_pairs pairs.now) channel part.now) }
{
    let curve = curve_of(channel);
    let mut summary = Summary::none();
    // By index: position i has two numbers, two bytes and four bytes in three rows, which a zip of three `chunks_exact` would say no plainer.
    for i in 0..POSITIONS {
        let bias = ScanBias {
            factor: pairs[2 * i],
            offset: pairs[2 * i + 1],
        };
        let s = scene_by(curve, bias, fields::u16_at(part, 2 * i));
        summary = summary.with_scene(s);
        fields::put_u32(out, 4 * i, scene::bits_of(s));
    }
    summary
}

// The scenes of all channels; each is lent its own stretch, and its own parts of the scan bias and of the earth counts.
fn write_scenes(
    out: &mut [u8],
    states: [Channel; CHANNELS],
    pairs: &[u32],
    earth: &[u8],
) -> [Summary; CHANNELS]
    requires out_len { (length out.old ≡ stretch_size * channels) × (length earth.now ≡ earth_size * channels) × ((c : ℕ) → c < channels → ChannelRange (get_or states c no_channel)) }
    requires pairs_len { (length pairs.now ≡ pairs_size * channels) × ((c : ℕ) → c < channels → PairsRange (pairs_part pairs.now c)) }
    ensures { (result ≡ summaries (by_pairs pairs.now) states earth.now) × (out.new ≡ scene_bytes (by_pairs pairs.now) states earth.now) }
{
    let mut all = [Summary::none(); CHANNELS];
    for (c, summary) in all.iter_mut().enumerate() {
        let from = EARTH_SIZE * c;
        let first = PAIRS_SIZE * c;
        let start = STRETCH_SIZE * c;
        *summary = write_channel(
            &mut out[start..start + STRETCH_SIZE],
            states[c],
            &pairs[first..first + PAIRS_SIZE],
            &earth[from..from + EARTH_SIZE],
        );
    }
    all
}

fn put_summary(out: &mut [u8], at: usize, s: Summary)
    requires { (at + summary_size ≤ length out.old) × Plain s }
    ensures { out.new ≡ put out.old at (summary_bytes s) }
{
    fields::put_u16(out, at, s.count);
    fields::put_u32(out, at + 2, f32::to_bits(s.low));
    fields::put_u32(out, at + 6, f32::to_bits(s.high));
}

fn write_summaries(out: &mut [u8], all: [Summary; CHANNELS])
    requires { (length out.old ≡ summary_size * channels) × ((c : ℕ) → c < channels → Plain (get_or all c none_delivered)) }
    ensures { out.new ≡ summaries_bytes all }
{
    for (c, &s) in all.iter().enumerate() {
        put_summary(out, SUMMARY_SIZE * c, s);
    }
}

// The byte of a channel: 0, or its flag.
fn flag_byte(channel: Channel) -> u8
    ensures { result ≡ channel_flag channel }
{
    match channel {
        Ok(_) => 0,
        Err(flag) => flag as u8,
    }
}

// A loop: an array's `map` keeps an option of each element, for which C's memset is needed.
fn write_flags(out: &mut [u8], states: [Channel; CHANNELS])
    requires { length out.old ≡ channels }
    ensures { out.new ≡ flag_bytes states }
{
    for (c, &channel) in states.iter().enumerate() {
        out[c] = flag_byte(channel);
    }
}

fn total_count(all: [Summary; CHANNELS]) -> u32
    ensures { result ≡ sum (λ c. (get_or all c none_delivered).count) channels }
{
    all.iter().map(|s| u32::from(s.count)).sum()
}

// The whole product into the front of a buffer, and how many scenes it delivers. Bytes past it stay. `pairs` has the
// scan bias of every position as a factor and an offset, channel by channel. Each writer is lent its own part, as document 01 names it.
pub fn write_product(
    buffer: &mut [u8],
    number: u32,
    states: [Channel; CHANNELS],
    pairs: &[u32],
    earth: &[u8],
) -> u32
    requires product_size_in_bounds { (product_size ≤ length buffer.old) × (length earth.now ≡ earth_size * channels) × ((c : ℕ) → c < channels → ChannelRange (get_or states c no_channel)) }
    requires pairs_len { (length pairs.now ≡ pairs_size * channels) × ((c : ℕ) → c < channels → PairsRange (pairs_part pairs.now c)) }
    ensures { (result ≡ delivered_count (by_pairs pairs.now) states earth.now) × (buffer.new ≡ product_of (by_pairs pairs.now) number states earth.now ++ drop product_size buffer.old) }
{
    fields::put_head(buffer, NUMBER, LAYOUT[0]);
    fields::put_u32(buffer, NUMBER_AT, number);
    fields::put_head(buffer, FLAGS, LAYOUT[1]);
    write_flags(&mut buffer[FLAGS_AT..SCENES], states);
    fields::put_head(buffer, SCENES, LAYOUT[2]);
    let all = write_scenes(&mut buffer[SCENES + HEAD..SUMMARIES], states, pairs, earth);
    fields::put_head(buffer, SUMMARIES, LAYOUT[3]);
    write_summaries(&mut buffer[SUMMARIES + HEAD..PRODUCT_SIZE], all);
    total_count(all)
}
