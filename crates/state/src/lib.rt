// A calibrator as bytes: written into a caller's memory, and read back from it.

#![tactic(auto)]

ghost use Rattle.std.specs.Prelude.{◌≡◌, true, false, ◌||◌, ◌&&◌, cond, ◌+◌, ◌*◌, ◌≤◌, eqb, length, take, drop, MatchOption, is_some};
ghost use Rattle.lists.specs.Build.{put};
ghost use Rattle.fields.specs.Fields.{head_size, field_bytes};
ghost use Rattle.thermometer.specs.Reading.{from_to};
ghost use Rattle.table.specs.Opening.{AcceptedTable};
ghost use Rattle.bias.specs.Opening.{AcceptedBias};
ghost use Rattle.window.specs.Ranges.{WindowRange};
ghost use Rattle.window.specs.Props.{window_range_prop};
ghost use Rattle.calibrator.specs.Steps.{calibrator_of, calibrator_with};
ghost use Rattle.std.proofs.Props.{props};
ghost use Rattle.lastscan.specs.Ranges.{LastRange};
ghost use Rattle.lastscan.specs.Numbers.{last_inside};
ghost use Rattle.state.specs.State.{state_size, saved, number_bytes, front_bytes, last_bytes, numbers_at, table_in, bias_in, window_in, last_numbers_in, last_in, calibrator_in, ages_reached, numbers_inside, number_is_right, window_inside, front_is_right, is_state};
ghost use Rattle.state.specs.Steps.{values_inside, window_start, window_end, window_bytes};

use bias::{BIAS_SIZE, Bias, BiasBytes};
use fields::{Field, HEAD};
use instrument::{CHANNELS, THERMOMETERS};
use lastscan::{LAST_NUMBERS, LastNumbers, LastScan};
use table::{AGES, TABLE_SIZE, Table, TableBytes};
use window::{COUNTS_KEPT, KELVINS_KEPT, Window};

// `SNDR` in ASCII, and the version of the layout and of the rules.
const MAGIC: u32 = 0x534E4452;

const VERSION: u32 = 6;

// The layout, and where the value of each field starts.
const LAYOUT: [Field; 8] = [
    Field { tag: 0x30, size: 8 },
    Field {
        tag: 0x31,
        size: TABLE_SIZE as u16,
    },
    Field { tag: 0x32, size: 5 },
    Field {
        tag: 0x33,
        size: 4 * COUNTS_KEPT as u16,
    },
    Field {
        tag: 0x34,
        size: 4 * COUNTS_KEPT as u16,
    },
    Field {
        tag: 0x35,
        size: 4 * KELVINS_KEPT as u16,
    },
    Field {
        tag: 0x36,
        size: BIAS_SIZE as u16,
    },
    Field {
        tag: 0x37,
        size: 4 * LAST_NUMBERS as u16,
    },
];

const FRONT_AT: usize = HEAD;

const TABLE_AT: usize = FRONT_AT + LAYOUT[0].size as usize + HEAD;

const LAST_AT: usize = TABLE_AT + LAYOUT[1].size as usize + HEAD;

const WARM_AT: usize = LAST_AT + LAYOUT[2].size as usize + HEAD;

const COLD_AT: usize = WARM_AT + LAYOUT[3].size as usize + HEAD;

const KELVIN_AT: usize = COLD_AT + LAYOUT[4].size as usize + HEAD;

const BIAS_AT: usize = KELVIN_AT + LAYOUT[5].size as usize + HEAD;

const KEPT_AT: usize = BIAS_AT + LAYOUT[6].size as usize + HEAD;

pub const STATE_SIZE: usize = KEPT_AT + LAYOUT[7].size as usize;

// What a thermometer and a side keep, where they keep anything.
const LEAST_KELVIN: u32 = 1_118_822 - 245_760;

const MOST_KELVIN: u32 = 1_118_822 + 245_760;

const MOST_KEPT: u32 = 12 * 65_535 + 1;

// The table and the bias file of a state, opened.
#[derive(Clone, Copy)]
pub struct Files {
    pub table: Table,
    pub bias: Bias,
}

// The parts of a calibrator, lent, as they are saved in a state.
#[derive(Clone, Copy)]
pub struct Parts<'a> {
    pub table: &'a [u8],
    pub bias: &'a [u8],
    pub window: &'a Window,
    pub last: &'a LastScan,
    ghost accepted_table: { AcceptedTable table.now },
    ghost accepted_bias: { AcceptedBias bias.now },
    ghost window_range: { WindowRange window.now } by { window_range_prop window.now },
    ghost last_range: { LastRange last.now } by { Prim.hlevel props },
}

// ---- writing

// Numbers as u32, one after the other, from place `at` on.
fn put_numbers(out: &mut [u8], at: usize, numbers: &[u32])
    requires { at + 4 * length numbers.now ≤ length out.old }
    ensures { out.new ≡ put out.old at (number_bytes numbers.now) }
{
    for (i, &number) in numbers.iter().enumerate() {
        fields::put_u32(out, at + 4 * i, number);
    }
}

// A field whose value is these bytes.
fn put_field(out: &mut [u8], at: usize, field: Field, value: &[u8])
    requires { (length value.now ≡ field.size) × (at + head_size + length value.now ≤ length out.old) }
    ensures { out.new ≡ put out.old at (field_bytes field value.now) }
{
    fields::put_head(out, at, field);
    lists::copy(value, out, at + HEAD);
}

// A field whose value is these numbers. A twin of `put_field`: a trait over bytes and numbers, or a closure at each of eight calls, would be longer.
fn put_number_field(out: &mut [u8], at: usize, field: Field, numbers: &[u32])
    requires { (4 * length numbers.now ≡ field.size) × (at + head_size + 4 * length numbers.now ≤ length out.old) }
    ensures { out.new ≡ put out.old at (field_bytes field (number_bytes numbers.now)) }
{
    fields::put_head(out, at, field);
    put_numbers(out, at + HEAD, numbers);
}

fn front_bytes() -> [u8; 8]
    ensures { result ≡ front_bytes }
{
    let mut front = [0; 8];
    fields::put_u32(&mut front, 0, MAGIC);
    fields::put_u32(&mut front, 4, VERSION);
    front
}

fn last_bytes(last: Option<u32>) -> [u8; 5]
    ensures { result ≡ last_bytes last }
{
    let mut bytes = [0; 5];
    bytes[0] = u8::from(last.is_some());
    fields::put_u32(&mut bytes, 1, last.unwrap_or(0));
    bytes
}

// ---- reading

// A state's length is asked for as the least: a longer state is one too, and the definitions speak of all its bytes.

// N numbers, from place `at` on.
fn numbers_at<const N: usize>(state: &[u8], at: usize) -> [u32; N]
    requires { at + 4 * N ≤ length state.now }
    ensures { result ≡ numbers_at state.now at N }
{
    std::array::from_fn(|i| fields::u32_at(state, at + 4 * i))
}

// The table and the bias file of a state: parts of the caller's bytes, not copied.
pub fn table_in(state: &[u8]) -> &TableBytes
    requires { state_size ≤ length state.now }
    ensures { result.now ≡ table_in state.now }
{
    <&TableBytes>::try_from(&state[TABLE_AT..TABLE_AT + TABLE_SIZE]).unwrap()
}

pub fn bias_in(state: &[u8]) -> &BiasBytes
    requires { state_size ≤ length state.now }
    ensures { result.now ≡ bias_in state.now }
{
    <&BiasBytes>::try_from(&state[BIAS_AT..BIAS_AT + BIAS_SIZE]).unwrap()
}

fn last_numbers_in(state: &[u8]) -> LastNumbers
    requires { state_size ≤ length state.now }
    ensures { result ≡ last_numbers_in state.now }
{
    numbers_at(state, KEPT_AT)
}

// Not inlined, as `last_in`: the arrays that it fills would stand in the frame of a whole feed.
#[inline(never)]
#[tactic(auto, unfolding(crate::specs::State::window_in))]
pub fn window_in(state: &[u8]) -> Window
    requires { state_size ≤ length state.now }
    ensures { result ≡ window_in state.now }
{
    Window {
        last: (state[LAST_AT] == 1).then(|| fields::u32_at(state, LAST_AT + 1)),
        warm: numbers_at(state, WARM_AT),
        cold: numbers_at(state, COLD_AT),
        kelvin: numbers_at(state, KELVIN_AT),
    }
}

// What is kept of the last accepted scan.
#[inline(never)]
pub fn last_in(state: &[u8]) -> LastScan
    requires { (state_size ≤ length state.now) × (last_inside (is_some (window_in state.now).last) (last_numbers_in state.now) ≡ true) }
    ensures { result ≡ last_in state.now }
{
    lastscan::last_by(&last_numbers_in(state))
}

// ---- which bytes are a state

#[tactic(auto, unfolding(crate::specs::State::front_is_right))]
fn front_is_right(state: &[u8]) -> bool
    requires { state_size ≤ length state.now }
    ensures { result ≡ front_is_right state.now }
{
    fields::layout_is_right(state, &LAYOUT)
        && fields::u32_at(state, FRONT_AT) == MAGIC
        && fields::u32_at(state, FRONT_AT + 4) == VERSION
        && state[LAST_AT] <= 1
}

// Before the first accepted scan the number is 0.
fn number_is_right(state: &[u8]) -> bool
    requires { state_size ≤ length state.now }
    ensures { result ≡ number_is_right state.now }
{
    state[LAST_AT] == 1 || fields::u32_at(state, LAST_AT + 1) == 0
}

fn ages_reached(last: Option<u32>) -> usize
    ensures { result ≡ ages_reached last }
{
    last.map_or(0, |last| AGES.min(last as usize + 1))
}

fn number_inside(number: u32, reached: bool, low: u32, high: u32) -> bool
    ensures { result ≡ (eqb number 0 || (reached && from_to low high number)) }
{
    number == 0 || reached && (low..=high).contains(&number)
}

fn numbers_inside(reached: usize, low: u32, high: u32, numbers: &[u32]) -> bool
    ensures { result ≡ numbers_inside reached low high numbers.now }
{
    numbers.iter().enumerate().all(|(i, &number)| number_inside(number, i < reached, low, high))
}

#[tactic(auto, unfolding(crate::specs::State::window_inside))]
fn window_inside(window: &Window) -> bool
    ensures { result ≡ window_inside window.now }
{
    let reached = ages_reached(window.last);
    let counts = CHANNELS * reached;
    numbers_inside(counts, 1, MOST_KEPT, &window.warm)
        && numbers_inside(counts, 1, MOST_KEPT, &window.cold)
        && numbers_inside(
            THERMOMETERS * reached,
            LEAST_KELVIN,
            MOST_KELVIN,
            &window.kelvin,
        )
}

// The tests of the last number, of the window's values and of the last scan's.
#[tactic(auto, unfolding(crate::specs::Steps::values_inside))]
fn values_inside(state: &[u8]) -> bool
    requires { state_size ≤ length state.now }
    ensures { result ≡ values_inside state.now }
{
    let window = window_in(state);
    number_is_right(state)
        && window_inside(&window)
        && lastscan::last_inside(window.last.is_some(), &last_numbers_in(state))
}

// Whether these bytes are a state; bytes behind one are not looked at.
pub fn is_state(state: &[u8]) -> bool
    ensures { result ≡ is_state state.now }
{
    if state.len() < STATE_SIZE {
        return false;
    }
    if !front_is_right(state) {
        return false;
    }
    if table::open(table_in(state)).is_err() {
        return false;
    }
    if bias::open(bias_in(state)).is_err() {
        return false;
    }
    values_inside(state)
}

// The table and the bias file of these bytes, by the same tests, each opened once; none where they are no state.
pub fn read(state: &[u8]) -> Option<Files>
    ensures { MatchOption result (is_state state.now ≡ false) (λ f. (is_state state.now ≡ true) × (calibrator_of f.table f.bias (window_in state.now) (last_in state.now) ≡ calibrator_in state.now)) }
{
    if state.len() < STATE_SIZE {
        return None;
    }
    if !front_is_right(state) {
        return None;
    }
    let table = table::open(table_in(state)).ok()?;
    let bias = bias::open(bias_in(state)).ok()?;
    if !values_inside(state) {
        return None;
    }
    Some(Files { table, bias })
}

// ---- a whole state

// Fields 0x32 to 0x35.
fn put_window(out: &mut [u8], window: &Window)
    requires { state_size ≤ length out.old }
    ensures fields { out.new ≡ put out.old window_start (window_bytes window.now) }
    ensures long { window_start + length (window_bytes window.now) ≡ window_end }
{
    put_field(out, LAST_AT - HEAD, LAYOUT[2], &last_bytes(window.last));
    put_number_field(out, WARM_AT - HEAD, LAYOUT[3], &window.warm);
    put_number_field(out, COLD_AT - HEAD, LAYOUT[4], &window.cold);
    put_number_field(out, KELVIN_AT - HEAD, LAYOUT[5], &window.kelvin);
}

// The calibrator of these parts, in the place of the state.
pub fn save(state: &mut [u8], parts: &Parts<'_>)
    requires { state_size ≤ length state.old }
    ensures { state.new ≡ saved state.old (calibrator_with parts.now.table.now parts.now.bias.now parts.now.window.now parts.now.last.now) }
{
    put_field(state, 0, LAYOUT[0], &front_bytes());
    put_field(state, TABLE_AT - HEAD, LAYOUT[1], parts.table);
    put_window(state, parts.window);
    put_field(state, BIAS_AT - HEAD, LAYOUT[6], parts.bias);
    put_number_field(
        state,
        KEPT_AT - HEAD,
        LAYOUT[7],
        &lastscan::numbers_of(*parts.last),
    );
}
