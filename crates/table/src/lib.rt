// Document 01, "The table" and "Opening a table", and request W4.

#![tactic(auto)]

ghost use Rattle.std.specs.Prelude.{◌≡◌, ◌+◌, ◌*◌, ◌-◌, ◌<◌, ◌≤◌, true, length, get_or, eqb, ◌||◌, IfOk};
ghost use Rattle.std.specs.Int.Signed.{lt_z};
ghost use Rattle.lists.specs.Sum.{sum};
ghost use Rattle.lists.specs.Count.{every};
ghost use Rattle.fields.specs.Fields.{layout_size};
ghost use Rattle.instrument.specs.Instrument.{thermometers, channels};
ghost use Rattle.table.specs.Settings.{pairs, settings_of, corrections_of};
ghost use Rattle.table.specs.Ranges.{size_to, leasts_inside, thermometer_limits_inside, thermometer_inside, channel_inside, pair_inside, sums_inside, values_inside, weight_of};
ghost use Rattle.table.specs.Opening.{ages, verdict_of, opening_by, opening, AcceptedTable, table_by};

use fields::{Field, HEAD};
use instrument::{CHANNELS, KAV_THERMOMETERS, Side, THERMOMETERS, Target, WG_THERMOMETERS};
use std::marker::Model;

// How many scans the window has: a weight of each group for each age.
pub const AGES: usize = 8;

// The layout, and where the value of each field starts.
const LAYOUT: [Field; 4] = [
    Field {
        tag: 0x10,
        size: 2 * AGES as u16 + 21,
    },
    Field {
        tag: 0x11,
        size: 255,
    },
    Field {
        tag: 0x12,
        size: 440,
    },
    Field {
        tag: 0x14,
        size: 660,
    },
];

const SETTINGS_AT: usize = HEAD;

const THERMOMETERS_AT: usize = SETTINGS_AT + LAYOUT[0].size as usize + HEAD;

const CHANNELS_AT: usize = THERMOMETERS_AT + LAYOUT[1].size as usize + HEAD;

const PAIRS_AT: usize = CHANNELS_AT + LAYOUT[2].size as usize + HEAD;

pub const TABLE_SIZE: usize = PAIRS_AT + LAYOUT[3].size as usize;

// The bytes of one thermometer's row and of one channel's.
const THERMOMETER_ROW: usize = 17;

const CHANNEL_ROW: usize = 20;

// How many pairs of shelf temperature and TNL a channel has, the bytes of one, and of a channel's.
pub const SHELF_PAIRS: usize = 5;

const PAIR_SIZE: usize = 6;

const PAIRS_ROW: usize = SHELF_PAIRS * PAIR_SIZE;

// Where the values of the first field stand.
const COUNT_WEIGHTS_AT: usize = SETTINGS_AT;

const THERMOMETER_WEIGHTS_AT: usize = SETTINGS_AT + AGES;

const PERCENTS_AT: usize = SETTINGS_AT + 2 * AGES;

const LEASTS_AT: usize = PERCENTS_AT + 3;

const R_PAM_AT: usize = LEASTS_AT + 2;

const T_LOW_AT: usize = R_PAM_AT + 4;

const T_UPP_AT: usize = T_LOW_AT + 4;

const D_T_AT: usize = T_UPP_AT + 4;

// As many bytes as a table has: what the readers are lent, before and after the tests of an opening.
pub type TableBytes = [u8; TABLE_SIZE];

// An opened table. Only `open` makes one, and every one is accepted.
#[derive(Clone, Copy)]
pub struct Table {
    bytes: TableBytes,
}

impl Model for Table {
    ghost use Rattle.table.specs.Opened.{OpenedTable};

    ghost Value = { OpenedTable };

    ghost use Rattle.table.specs.Opening.{AcceptedTable};

    ghost view = { λ t. record { bytes = t.bytes } };

    ghost invariant = { λ t. AcceptedTable t.bytes };

    ghost inverse = { λ v. record { bytes = v.bytes } };
}

// Why bytes are refused, each with document 01's number.
#[derive(Clone, Copy, Debug, PartialEq, Eq)]
pub enum Refusal {
    LengthWrong = 1,
    FieldWrong = 2,
    ValueOutside = 3,
}

// The limits of four counts, and how far a count may be from another.
#[derive(Clone, Copy)]
pub struct Limits {
    pub low: u16,
    pub upp: u16,
    pub difference: u16,
}

// One thermometer's row.
#[derive(Clone, Copy)]
pub struct Thermometer {
    pub p: u8,
    pub r0: u32,
    pub alpha: u32,
    pub delta: u32,
    pub beta: u32,
}

// b, rj, sl and TNL of a channel's row. TNL there has to be 0: a scan's TNL comes from the channel's pairs.
#[derive(Clone, Copy)]
pub struct Corrections {
    pub b: i64,
    pub rj: u16,
    pub sl: u16,
    pub tnl: i64,
}

// A shelf temperature, and TNL there.
#[derive(Clone, Copy)]
pub struct ShelfPair {
    pub shelf: i64,
    pub tnl: i64,
}

// Whether z is from -most to most.
pub fn size_to(most: u32, z: i64) -> bool
    ensures { result ≡ size_to most z }
{
    let most = i64::from(most);
    (-most..=most).contains(&z)
}

// w of age k, and v: two names of document 01, one line each. An index is a plain number whose bound is asked, here and below, as in `instrument`.
pub fn count_weight(table: &TableBytes, k: usize) -> u8
    requires { k < ages }
    ensures { result ≡ (settings_of ages table.now).w k }
{
    table[COUNT_WEIGHTS_AT + k]
}

pub fn thermometer_weight(table: &TableBytes, k: usize) -> u8
    requires { k < ages }
    ensures { result ≡ (settings_of ages table.now).v k }
{
    table[THERMOMETER_WEIGHTS_AT + k]
}

// The least percentages, and the least number of good thermometers of a target.
pub fn percent_thermometers(table: &TableBytes) -> u8
    ensures { result ≡ (settings_of ages table.now).percent_thermometers }
{
    table[PERCENTS_AT]
}

pub fn percent_of(table: &TableBytes, side: Side) -> u8
    ensures { result ≡ (settings_of ages table.now).percent side }
{
    table[PERCENTS_AT + 1 + instrument::side_place(side)]
}

pub fn least_of(table: &TableBytes, target: Target) -> u8
    ensures { result ≡ (settings_of ages table.now).least target }
{
    table[LEASTS_AT + instrument::target_place(target)]
}

fn leasts_inside(table: &TableBytes) -> bool
    ensures { result ≡ leasts_inside (settings_of ages table.now) }
{
    lists::all_hold(&[
        (1..=100).contains(&percent_thermometers(table)),
        (1..=100).contains(&percent_of(table, Side::Warm)),
        (1..=100).contains(&percent_of(table, Side::Cold)),
        (1..=KAV_THERMOMETERS).contains(&usize::from(least_of(table, Target::Kav))),
        (1..=WG_THERMOMETERS).contains(&usize::from(least_of(table, Target::Wg))),
    ])
}

pub fn r_pam(table: &TableBytes) -> u32
    ensures { result ≡ (settings_of ages table.now).r_pam }
{
    fields::u32_at(table, R_PAM_AT)
}

pub fn t_low(table: &TableBytes) -> i64
    ensures { result ≡ (settings_of ages table.now).t_low }
{
    fields::i32_at(table, T_LOW_AT)
}

pub fn t_upp(table: &TableBytes) -> i64
    ensures { result ≡ (settings_of ages table.now).t_upp }
{
    fields::i32_at(table, T_UPP_AT)
}

pub fn d_t(table: &TableBytes) -> u32
    ensures { result ≡ (settings_of ages table.now).d_t }
{
    fields::u32_at(table, D_T_AT)
}

fn thermometer_limits_inside(table: &TableBytes) -> bool
    ensures { result ≡ thermometer_limits_inside (settings_of ages table.now) }
{
    let low = t_low(table);
    let upp = t_upp(table);
    lists::all_hold(&[
        thermometer::resistance_inside(r_pam(table)),
        size_to(245_760, low),
        size_to(245_760, upp),
        low <= upp,
        d_t(table) <= 491_520,
    ])
}

// Thermometer i, counted from 0.
pub fn thermometer_of(table: &TableBytes, i: usize) -> Thermometer
    requires { i < thermometers }
    ensures { result ≡ (settings_of ages table.now).thermometer i }
{
    let at = THERMOMETERS_AT + THERMOMETER_ROW * i;
    Thermometer {
        p: table[at],
        r0: fields::u32_at(table, at + 1),
        alpha: fields::u32_at(table, at + 5),
        delta: fields::u32_at(table, at + 9),
        beta: fields::u32_at(table, at + 13),
    }
}

fn thermometer_inside(table: &TableBytes, i: usize) -> bool
    requires { i < thermometers }
    ensures { result ≡ thermometer_inside ((settings_of ages table.now).thermometer i) }
{
    let t = thermometer_of(table, i);
    thermometer::coefficients_inside(t.r0, t.alpha, t.delta, t.beta)
}

// The limits of a side of channel c, counted from 0.
pub fn limits_of(table: &TableBytes, c: usize, side: Side) -> Limits
    requires { c < channels }
    ensures { result ≡ ((settings_of ages table.now).channel c).limits side }
{
    let at = CHANNELS_AT + CHANNEL_ROW * c + 6 * instrument::side_place(side);
    Limits {
        low: fields::u16_at(table, at),
        upp: fields::u16_at(table, at + 2),
        difference: fields::u16_at(table, at + 4),
    }
}

// b, rj, sl and TNL of channel c.
pub fn corrections_of(table: &TableBytes, c: usize) -> Corrections
    requires { c < channels }
    ensures { result ≡ corrections_of ((settings_of ages table.now).channel c) }
{
    let at = CHANNELS_AT + CHANNEL_ROW * c;
    Corrections {
        b: fields::i16_at(table, at + 12),
        rj: fields::u16_at(table, at + 14),
        sl: fields::u16_at(table, at + 16),
        tnl: fields::i16_at(table, at + 18),
    }
}

fn channel_inside(table: &TableBytes, c: usize) -> bool
    requires { c < channels }
    ensures { result ≡ channel_inside ((settings_of ages table.now).channel c) }
{
    let warm = limits_of(table, c, Side::Warm);
    let cold = limits_of(table, c, Side::Cold);
    let k = corrections_of(table, c);
    lists::all_hold(&[
        warm.low <= warm.upp,
        cold.low <= cold.upp,
        size_to(4_096, k.b),
        k.rj <= 16_384,
        k.sl <= 16_384,
        size_to(0, k.tnl),
    ])
}

// Pair j of channel c, both counted from 0.
pub fn pair_of(table: &TableBytes, c: usize, j: usize) -> ShelfPair
    requires { (c < channels) × (j < pairs) }
    ensures { result ≡ ((settings_of ages table.now).channel c).pair j }
{
    let at = PAIRS_AT + PAIRS_ROW * c + PAIR_SIZE * j;
    ShelfPair {
        shelf: fields::i32_at(table, at),
        tnl: fields::i16_at(table, at + 4),
    }
}

// Whether pair j of channel c is the first, or above the shelf temperature of the one before.
fn shelf_rises(table: &TableBytes, c: usize, j: usize) -> bool
    requires { (c < channels) × (j < pairs) }
    ensures { result ≡ (eqb j 0 || lt_z (((settings_of ages table.now).channel c).pair (j - 1)).shelf (((settings_of ages table.now).channel c).pair j).shelf) }
{
    j == 0 || pair_of(table, c, j - 1).shelf < pair_of(table, c, j).shelf
}

fn pair_inside(table: &TableBytes, c: usize, j: usize) -> bool
    requires { (c < channels) × (j < pairs) }
    ensures { result ≡ pair_inside ((settings_of ages table.now).channel c).pair j }
{
    let pair = pair_of(table, c, j);
    lists::all_hold(&[
        size_to(245_760, pair.shelf),
        size_to(8_192, pair.tnl),
        shelf_rises(table, c, j),
    ])
}

// Whether all pairs of channel c are in their ranges.
fn pairs_inside(table: &TableBytes, c: usize) -> bool
    requires { c < channels }
    ensures { result ≡ every (pair_inside ((settings_of ages table.now).channel c).pair) pairs }
{
    (0..SHELF_PAIRS).all(|j| pair_inside(table, c, j))
}

// The sum of n bytes that stand `step` apart, the first at `at`.
fn byte_sum(table: &TableBytes, at: usize, step: usize, n: usize) -> u32
    requires { (1 ≤ step) × (n ≤ 255) × (at + step * n ≤ length table.now) }
    ensures { result ≡ sum (λ k. get_or table.now (at + step * k) 0) n }
{
    (0..n).map(|k| u32::from(table[at + step * k])).sum()
}

// The sums of the w, of the v and of the p of a target: names of document 01, one line each over `byte_sum`.
pub fn sum_w(table: &TableBytes) -> u32
    ensures { result ≡ sum (settings_of ages table.now).w ages }
{
    byte_sum(table, COUNT_WEIGHTS_AT, 1, AGES)
}

pub fn sum_v(table: &TableBytes) -> u32
    ensures { result ≡ sum (settings_of ages table.now).v ages }
{
    byte_sum(table, THERMOMETER_WEIGHTS_AT, 1, AGES)
}

pub fn sum_p(table: &TableBytes, target: Target) -> u32
    ensures { result ≡ weight_of (settings_of ages table.now) target }
{
    let at = THERMOMETERS_AT + THERMOMETER_ROW * instrument::first_of(target);
    byte_sum(table, at, THERMOMETER_ROW, instrument::size_of(target))
}

fn sums_inside(table: &TableBytes) -> bool
    ensures { result ≡ sums_inside (settings_of ages table.now) }
{
    lists::all_hold(&[
        (1..=255).contains(&sum_w(table)),
        (1..=255).contains(&sum_v(table)),
        (1..=255).contains(&sum_p(table, Target::Kav)),
        (1..=255).contains(&sum_p(table, Target::Wg)),
    ])
}

// Whether all thermometers, all channels and the pairs of all channels are in their ranges.
fn thermometers_inside(table: &TableBytes) -> bool
    ensures { result ≡ every (λ i. thermometer_inside ((settings_of ages table.now).thermometer i)) thermometers }
{
    (0..THERMOMETERS).all(|i| thermometer_inside(table, i))
}

fn channels_inside(table: &TableBytes) -> bool
    ensures { result ≡ every (λ c. channel_inside ((settings_of ages table.now).channel c)) channels }
{
    (0..CHANNELS).all(|c| channel_inside(table, c))
}

fn all_pairs_inside(table: &TableBytes) -> bool
    ensures { result ≡ every (λ c. every (pair_inside ((settings_of ages table.now).channel c).pair) pairs) channels }
{
    (0..CHANNELS).all(|c| pairs_inside(table, c))
}

#[tactic(auto, unfolding(crate::specs::Ranges::values_inside))]
fn values_inside(table: &TableBytes) -> bool
    ensures { result ≡ values_inside (settings_of ages table.now) }
{
    lists::all_hold(&[
        leasts_inside(table),
        thermometer_limits_inside(table),
        thermometers_inside(table),
        channels_inside(table),
        all_pairs_inside(table),
        sums_inside(table),
    ])
}

// The bytes as an array, where their length, tags and lengths are those of this layout: the first two tests of an opening.
pub fn with_layout<'a, const N: usize>(
    bytes: &'a [u8],
    layout: &[Field],
) -> Result<&'a [u8; N], Refusal>
    requires { layout_size layout.now ≡ N }
    ensures verdict { verdict_of result ≡ opening_by layout.now true bytes.now }
    ensures bytes { IfOk result (λ array. array.now ≡ bytes.now) }
{
    let Ok(array) = <&[u8; N]>::try_from(bytes) else {
        return Err(Refusal::LengthWrong);
    };
    if !fields::layout_is_right(bytes, layout) {
        return Err(Refusal::FieldWrong);
    }
    Ok(array)
}

// Opening a table: any bytes.
pub fn open(bytes: &[u8]) -> Result<Table, Refusal>
    ensures verdict { verdict_of result ≡ opening bytes.now }
    ensures table { IfOk result (λ table. table.bytes ≡ bytes.now) }
    ensures opened { IfOk result (λ table. table.bytes ≡ table_by (opening bytes.now) bytes.now) }
{
    let bytes = with_layout(bytes, &LAYOUT)?;
    if !values_inside(bytes) {
        return Err(Refusal::ValueOutside);
    }
    Ok(Table { bytes: *bytes })
}

impl Table {
    // The bytes, for the readers above.
    pub fn bytes(&self) -> &TableBytes
        ensures bytes { result.now ≡ self.now.bytes }
        ensures accepted { AcceptedTable result.now }
    {
        &self.bytes
    }
}
