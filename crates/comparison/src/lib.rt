// What compare/ calls of the proved functions; the crate `comparison_c` exports them.

#![tactic(auto)]

ghost use Rattle.std.specs.Prelude.{◌≡◌, ◌++◌, ℕ, ◌+◌, ◌*◌, ◌<◌, ◌≤◌, pos, length, drop, ◌<ℤ◌};
ghost use Rattle.integers.specs.Rounding.{floor, r};
ghost use Rattle.fields.specs.Numbers.{u16_at, u32_at, i16_at, i32_at};
ghost use Rattle.fields.specs.Fields.{head_size, field_value, layout_size, layout_is_right};
ghost use Rattle.instrument.specs.Instrument.{channels, thermometers};
ghost use Rattle.table.specs.Settings.{settings_of};
ghost use Rattle.table.specs.Opening.{ages, table_size};
ghost use Rattle.record.specs.Record.{RightRecord, earth_size};
ghost use Rattle.acceptance.specs.Accepted.{accepted_samples};
ghost use Rattle.acceptance.specs.Kept.{kept_scan};
ghost use Rattle.scene.specs.Ranges.{ConstantsRange};
ghost use Rattle.product.specs.Steps.{by_pairs, pairs_size, pairs_part, PairsRange};
ghost use Rattle.product.specs.Product.{product_size, product_of, delivered_count};
ghost use Rattle.comparison.specs.Layouts.{layout_of};
ghost use Rattle.comparison.specs.KeptValues.{kept_at};
ghost use Rattle.comparison.specs.AlikeChannels.{alike_channels};

use fields::{Field, HEAD};
use instrument::CHANNELS;
use record::Record;
use scene::{Channel, Constants};
use table::TableBytes;

// How many values a scan keeps of both sides.
const SIDES: usize = 2 * CHANNELS;

// How many fields `compared_layout` hands on in one call. No layout of compare/ has more.
const AT_ONCE: usize = 8;

pub fn compared_floor_div(a: i64, b: i64) -> i64
    requires { pos 0 <ℤ b }
    ensures { result ≡ floor a b }
{
    integers::floor_div(a, b)
}

pub fn compared_round(a: i64, b: i64) -> i64
    requires { pos 0 <ℤ b }
    ensures { result ≡ r a b }
{
    integers::round(a, b)
}

pub fn compared_u16(bytes: &[u8], at: usize) -> u16
    requires { at + 1 < length bytes.now }
    ensures { result ≡ u16_at bytes.now at }
{
    fields::u16_at(bytes, at)
}

pub fn compared_u32(bytes: &[u8], at: usize) -> u32
    requires { at + 3 < length bytes.now }
    ensures { result ≡ u32_at bytes.now at }
{
    fields::u32_at(bytes, at)
}

pub fn compared_i16(bytes: &[u8], at: usize) -> i64
    requires { at + 1 < length bytes.now }
    ensures { result ≡ i16_at bytes.now at }
{
    fields::i16_at(bytes, at)
}

pub fn compared_i32(bytes: &[u8], at: usize) -> i64
    requires { at + 3 < length bytes.now }
    ensures { result ≡ i32_at bytes.now at }
{
    fields::i32_at(bytes, at)
}

// How long the part is that the field reader hands back.
pub fn compared_field(bytes: &[u8], at: usize, tag: u8, size: u16) -> usize
    requires { at + head_size + size ≤ length bytes.now }
    ensures { result ≡ length (field_value bytes.now at (record { tag = tag; size = size })) }
{
    fields::value_at(bytes, at, Field { tag, size }).len()
}

// The fields of two rows.
fn write_layout(out: &mut [Field], tags: &[u8], sizes: &[u16])
    requires { (length tags.now ≡ length sizes.now) × (length out.old ≡ length tags.now) }
    ensures { out.new ≡ layout_of tags.now sizes.now }
{
    for (i, field) in out.iter_mut().enumerate() {
        *field = Field {
            tag: tags[i],
            size: sizes[i],
        };
    }
}

// The bytes that a layout takes.
fn layout_size(layout: &[Field]) -> usize
    requires { length layout.now ≤ 8 }
    ensures { result ≡ layout_size layout.now }
{
    layout
        .iter()
        .map(|field| HEAD + usize::from(field.size))
        .sum()
}

// The C interface has the tags and the sizes as two rows of any length, and there is no heap: `AT_ONCE` fields go on in one call.
pub fn compared_layout(bytes: &[u8], tags: &[u8], sizes: &[u16]) -> bool
    requires { (length tags.now ≡ length sizes.now) × (layout_size (layout_of tags.now sizes.now) ≤ length bytes.now) }
    ensures { result ≡ layout_is_right bytes.now 0 (layout_of tags.now sizes.now) }
{
    let mut fields = [Field { tag: 0, size: 0 }; AT_ONCE];
    let mut at = 0;
    for (some_tags, some_sizes) in tags.chunks(AT_ONCE).zip(sizes.chunks(AT_ONCE)) {
        let n = some_tags.len();
        write_layout(&mut fields[..n], some_tags, some_sizes);
        let layout = &fields[..n];
        if !fields::layout_is_right(&bytes[at..], layout) {
            return false;
        }
        at += layout_size(layout);
    }
    true
}

// Value k of what a scan keeps: the warm sides, the cold, the thermometers.
pub fn compared_kept(table: &[u8], scan: &[u8], k: usize) -> u32
    requires { (length table.now ≡ table_size) × RightRecord scan.now × (k < 2 * channels + thermometers) }
    ensures { result ≡ kept_at (kept_scan (accepted_samples (settings_of ages table.now) scan.now)) k }
{
    let table = <&TableBytes>::try_from(table).unwrap();
    let kept = acceptance::accepted_scan(table, Record::read(scan).unwrap());
    if k < CHANNELS {
        return kept.warm[k];
    }
    if k < SIDES {
        return kept.cold[k - CHANNELS];
    }
    kept.kelvin[k - SIDES]
}

fn alike_channels(constants: Constants) -> [Channel; CHANNELS]
    ensures { result ≡ alike_channels constants }
{
    [Ok(constants); CHANNELS]
}

// A whole product, of channels without a flag that all have these constants, under a scan bias: the writer alone, to be timed. `pairs` has
// two numbers for every position, channel by channel: 65,536 + e and 65,536 (c0 + 32,768) + 32,767.
pub fn compared_product(
    buffer: &mut [u8],
    number: u32,
    tc: i64,
    rise: i64,
    tnl: i64,
    d: i64,
    slope: i64,
    base: i64,
    pairs: &[u32],
    earth: &[u8],
) -> u32
    requires product_size_in_bounds { (product_size ≤ length buffer.old) × (length earth.now ≡ earth_size * channels) × ConstantsRange (record { tc = tc; rise = rise; tnl = tnl; d = d; slope = slope; base = base }) }
    requires pairs_len { (length pairs.now ≡ pairs_size * channels) × ((k : ℕ) → k < channels → PairsRange (pairs_part pairs.now k)) }
    ensures { (result ≡ delivered_count (by_pairs pairs.now) (alike_channels (record { tc = tc; rise = rise; tnl = tnl; d = d; slope = slope; base = base })) earth.now) × (buffer.new ≡ product_of (by_pairs pairs.now) number (alike_channels (record { tc = tc; rise = rise; tnl = tnl; d = d; slope = slope; base = base })) earth.now ++ drop product_size buffer.old) }
{
    let constants = Constants {
        tc,
        rise,
        tnl,
        d,
        slope,
        base,
    };
    product::write_product(buffer, number, alike_channels(constants), pairs, earth)
}
