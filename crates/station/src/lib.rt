// What the C functions for stations do, which include/sounder.h declares and the crate `station_c` exports.

#![tactic(auto)]

ghost use Rattle.std.specs.Prelude.{◌≡◌, length};
ghost use Rattle.lists.specs.Tests.{number_of};
ghost use Rattle.thermometer.specs.Reading.{number, reading};
ghost use Rattle.table.specs.Opening.{verdict_of, opening};
ghost use Rattle.bias.specs.Opening.{bias_opening, both_opening};
ghost use Rattle.state.specs.State.{state_size};
ghost use Rattle.live.specs.Calls.{fresh_verdict, fresh_by, fed_state, CallLeaves, found_in, found_number, count_or};
ghost use Rattle.live.specs.Answers.{answer_number};
ghost use Rattle.station.specs.Calls.{library_version, units_or, answers_by, buffers_by};

use calibrator::Calibrator;

// The answer where no count fits.
const NO_COUNT: u8 = 253;

// 0, or the number of the refusal of an opening, and of a call on a state: C has numbers alone. These two and `answer_number` of `calibrator` are
// three: each type of refusal has its own numbers, and a trait would need an impl with ghost members for each.
fn opening_number<Opened: Drop>(answer: Result<Opened, table::Refusal>) -> u8
    ensures { result ≡ number_of (verdict_of answer) }
{
    match answer {
        Ok(_) => 0,
        Err(refusal) => refusal as u8,
    }
}

fn call_number(answer: Result<(), live::Refusal>) -> u8
    ensures { result ≡ answer_number answer }
{
    match answer {
        Ok(()) => 0,
        Err(refusal) => refusal.number(),
    }
}

// Document 01, "Opening a table": 0, or 1 to 3.
pub fn sounder_open(table: &[u8]) -> u8
    ensures { result ≡ number_of (opening table.now) }
{
    opening_number(table::open(table))
}

// Request W1: opening a bias file: 0, or 1 to 3.
pub fn sounder_open_bias(bias: &[u8]) -> u8
    ensures { result ≡ number_of (bias_opening bias.now) }
{
    opening_number(bias::open(bias))
}

// Document 01, "One thermometer": 0 and t in units of °C, or 8 to 10 and t as it was.
pub fn sounder_thermometer(
    r_pam: u32,
    r0: u32,
    alpha: u32,
    delta: u32,
    beta: u32,
    pam: u16,
    offset: u16,
    count: u16,
    t: &mut i32,
) -> u8
    ensures { (result ≡ number (reading r_pam r0 alpha delta beta pam offset count)) × (t.new ≡ units_or (reading r_pam r0 alpha delta beta pam offset count) t.old) }
{
    match thermometer::thermometer(r_pam, r0, alpha, delta, beta, pam, offset, count) {
        Ok(units) => {
            *t = units as i32;
            0
        }
        Err(refusal) => refusal as u8,
    }
}

// Opens the table and the bias file, feeds a fresh calibrator the list, and answers the first refusal.
fn feed_opened(
    table: &[u8],
    bias: &[u8],
    scans: &[u8],
    sizes: &[u32],
    buffers: &mut [u8],
    rooms: &[u32],
    answers: &mut [u8],
) -> Result<(), table::Refusal>
    ensures verdict { verdict_of result ≡ both_opening table.now bias.now }
    ensures answers { answers.new ≡ answers_by (both_opening table.now bias.now) table.now bias.now (record { scans = scans.now; sizes = sizes.now; buffers = buffers.old; rooms = rooms.now }) answers.old }
    ensures buffers { buffers.new ≡ buffers_by (both_opening table.now bias.now) table.now bias.now (record { scans = scans.now; sizes = sizes.now; buffers = buffers.old; rooms = rooms.now }) (length answers.old) }
{
    let table = table::open(table)?;
    let bias = bias::open(bias)?;
    feeds::feed_list(
        Calibrator::fresh(table, bias),
        scans,
        sizes,
        buffers,
        rooms,
        answers,
    );
    Ok(())
}

// Opens the table and the bias file and, where both are accepted, feeds a fresh calibrator the list: 0, or the number of the first refusal.
pub fn sounder_feed_all(
    table: &[u8],
    bias: &[u8],
    records: &[u8],
    record_lengths: &[u32],
    buffers: &mut [u8],
    buffer_lengths: &[u32],
    answers: &mut [u8],
) -> u8
    ensures { (result ≡ number_of (both_opening table.now bias.now)) × (answers.new ≡ answers_by (both_opening table.now bias.now) table.now bias.now (record { scans = records.now; sizes = record_lengths.now; buffers = buffers.old; rooms = buffer_lengths.now }) answers.old) × (buffers.new ≡ buffers_by (both_opening table.now bias.now) table.now bias.now (record { scans = records.now; sizes = record_lengths.now; buffers = buffers.old; rooms = buffer_lengths.now }) (length answers.old)) }
{
    opening_number(feed_opened(
        table,
        bias,
        records,
        record_lengths,
        buffers,
        buffer_lengths,
        answers,
    ))
}

// ---- scan by scan: the calibrator is a state in the caller's memory

// How many bytes a state has.
pub fn sounder_state_size() -> usize
    ensures { result ≡ state_size }
{
    state::STATE_SIZE
}

// Writes the state of a fresh calibrator under this table and this bias file: 0, 1 to 3, or 254 where the state is too short.
pub fn sounder_fresh(table: &[u8], bias: &[u8], state: &mut [u8]) -> u8
    ensures { (result ≡ number_of (fresh_verdict table.now bias.now state.old)) × (state.new ≡ fresh_by (fresh_verdict table.now bias.now state.old) table.now bias.now state.old) }
{
    call_number(live::fresh(table, bias, state))
}

// Feeds a scan to the calibrator of a state: 0, 254 where the bytes are no state, or 4 to 7.
pub fn sounder_feed(state: &mut [u8], scan: &[u8], buffer: &mut [u8]) -> u8
    ensures { CallLeaves (fed_state state.old (record { scan = scan.now; buffer = buffer.old })) result state.new buffer.new }
{
    call_number(live::feed(state, scan, buffer))
}

// Request W5, the count behind a temperature, by the calibrator of a state: 0 and the count; or 254 where the bytes are no state, 11, 12, or 253
// where no count fits, and the count as it was.
pub fn sounder_count_behind(state: &[u8], channel: u32, wanted: u32, count: &mut u16) -> u8
    ensures { (result ≡ found_number (found_in state.now channel wanted)) × (count.new ≡ count_or (found_in state.now channel wanted) count.old) }
{
    match live::count_behind(state, channel, wanted) {
        Ok(Some(found)) => {
            *count = found;
            0
        }
        Ok(None) => NO_COUNT,
        Err(refusal) => refusal.number(),
    }
}

// 10,000 times the major, 100 times the minor and once the patch number of the version.
pub fn sounder_version() -> u32
    ensures { result ≡ library_version }
{
    60_100
}
