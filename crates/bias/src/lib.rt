// Request W1: the bias file, opened, and its values.

#![tactic(auto)]

ghost use Rattle.std.specs.Prelude.{◌≡◌, ◌+◌, ◌<◌, ◌≤◌, length, IfOk};
ghost use Rattle.lists.specs.Build.{put};
ghost use Rattle.instrument.specs.Instrument.{channels, positions};
ghost use Rattle.table.specs.Opening.{verdict_of, opened_by};
ghost use Rattle.bias.specs.Bias.{bias_size, part_size, bias_part, c0_in};
ghost use Rattle.bias.specs.Opening.{part_inside, bias_inside, bias_opening, AcceptedBias};
ghost use Rattle.bias.specs.Pairs.{raised, pair_at, pairs_of};

use fields::{Field, HEAD};
use instrument::{CHANNELS, POSITIONS};
use std::marker::Model;
use table::Refusal;

// The layout, and where the value starts.
const LAYOUT: [Field; 1] = [Field {
    tag: 0x13,
    size: 8448,
}];

const VALUE_AT: usize = HEAD;

pub const BIAS_SIZE: usize = VALUE_AT + LAYOUT[0].size as usize;

// The bytes of one position's pair, and of a channel's part.
const PAIR_SIZE: usize = 4;

const PART_SIZE: usize = PAIR_SIZE * POSITIONS;

// How many pairs a bias file has, and how many numbers they are.
const PAIRS: usize = POSITIONS * CHANNELS;

pub const PAIR_NUMBERS: usize = 2 * PAIRS;

// As many bytes as a bias file has.
pub type BiasBytes = [u8; BIAS_SIZE];

// An opened bias file. Only `open` makes one, and every one is accepted.
#[derive(Clone, Copy)]
pub struct Bias {
    bytes: BiasBytes,
}

impl Model for Bias {
    ghost use Rattle.bias.specs.Opened.{OpenedBias};

    ghost Value = { OpenedBias };

    ghost use Rattle.bias.specs.Opening.{AcceptedBias};

    ghost view = { λ b. record { bytes = b.bytes } };

    ghost invariant = { λ b. AcceptedBias b.bytes };

    ghost inverse = { λ v. record { bytes = v.bytes } };
}

// The numbers of all pairs, a factor and an offset for each position, channel by channel. They are a row of numbers since the C function
// `compared_product` lends one.
pub type PairNumbers = [u32; PAIR_NUMBERS];

// A bias file and the numbers of its pairs, which are formed once for a list of feeds.
#[derive(Clone, Copy)]
pub struct Pairs<'a> {
    pub bias: &'a Bias,
    pub numbers: &'a PairNumbers,
    ghost accepted: { AcceptedBias bias.now.bytes },
    ghost formed: { numbers.now ≡ pairs_of bias.now.bytes },
}

// c0 of position i in a channel's part.
fn c0_in(part: &[u8], i: usize) -> i64
    requires { (length part.now ≡ part_size) × (i < positions) }
    ensures { result ≡ c0_in part.now i }
{
    fields::i16_at(part, PAIR_SIZE * i)
}

fn part_inside(part: &[u8]) -> bool
    requires { length part.now ≡ part_size }
    ensures { result ≡ part_inside part.now }
{
    (0..POSITIONS).all(|i| table::size_to(4_096, c0_in(part, i)))
}

// Channel c's part.
fn part_of(bytes: &BiasBytes, c: usize) -> &[u8]
    requires { c < channels }
    ensures part { result.now ≡ bias_part bytes.now c }
    ensures long { length result.now ≡ part_size }
{
    let start = VALUE_AT + PART_SIZE * c;
    &bytes[start..start + PART_SIZE]
}

fn values_inside(bytes: &BiasBytes) -> bool
    ensures { result ≡ bias_inside bytes.now }
{
    (0..CHANNELS).all(|c| part_inside(part_of(bytes, c)))
}

// Opening a bias file: any bytes.
pub fn open(bytes: &[u8]) -> Result<Bias, Refusal>
    ensures verdict { verdict_of result ≡ bias_opening bytes.now }
    ensures bias { IfOk result (λ bias. bias.bytes ≡ bytes.now) }
    ensures opened { IfOk result (λ bias. bias.bytes ≡ opened_by bias_size (bias_opening bytes.now) bytes.now) }
{
    let bytes = table::with_layout(bytes, &LAYOUT)?;
    if !values_inside(bytes) {
        return Err(Refusal::ValueOutside);
    }
    Ok(Bias { bytes: *bytes })
}

// ---- the pairs as numbers

// The number whose two's complement n is, and 32,768.
fn raised_of(n: u16) -> u32
    ensures { result ≡ raised n }
{
    (u32::from(n) + 32_768) % 65_536
}

// The pair that begins at `from`, as its factor and its offset.
fn put_pair(out: &mut [u32], at: usize, bytes: &[u8], from: usize)
    requires { (at + 2 ≤ length out.old) × (from + 3 < length bytes.now) }
    ensures { out.new ≡ put out.old at (pair_at bytes.now from) }
{
    let c0 = raised_of(fields::u16_at(bytes, from));
    let e = raised_of(fields::u16_at(bytes, from + 2));
    lists::copy(&[e + 32_768, 65_536 * c0 + 32_767], out, at);
}

// The numbers of all pairs, each pair read once, in the place that is lent for them: 16,896 bytes, which the stack has once.
pub fn put_pairs(numbers: &mut PairNumbers, bytes: &BiasBytes)
    ensures { numbers.new ≡ pairs_of bytes.now }
{
    // By index: pair k is two numbers and four bytes, so that chunks of both would be zipped to give what k says.
    for k in 0..PAIRS {
        put_pair(numbers, 2 * k, bytes, VALUE_AT + PAIR_SIZE * k);
    }
}

impl Bias {
    pub fn bytes(&self) -> &BiasBytes
        ensures bytes { result.now ≡ self.now.bytes }
        ensures accepted { AcceptedBias result.now }
    {
        &self.bytes
    }
}
