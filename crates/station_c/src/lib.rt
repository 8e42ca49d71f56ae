// The C functions for stations, declared in include/sounder.h: each is the function of `station` of this name, with its contract. This crate is
// built as the static library that is shipped; no other crate can stand on it.

#![tactic(auto)]

ghost use Rattle.std.specs.Prelude.{◌≡◌, length};
ghost use Rattle.lists.specs.Tests.{number_of};
ghost use Rattle.thermometer.specs.Reading.{number, reading};
ghost use Rattle.table.specs.Opening.{opening};
ghost use Rattle.bias.specs.Opening.{bias_opening, both_opening};
ghost use Rattle.state.specs.State.{state_size};
ghost use Rattle.live.specs.Calls.{fresh_verdict, fresh_by, fed_state, CallLeaves, found_in, found_number, count_or};
ghost use Rattle.station.specs.Calls.{library_version, units_or, answers_by, buffers_by};

// Document 01, "Opening a table": 0, or 1 to 3.
#[unsafe(no_mangle)]
pub extern "C" fn sounder_open(table: &[u8]) -> u8
    ensures { result ≡ number_of (opening table.now) }
{
    station::sounder_open(table)
}

// Request W1: opening a bias file: 0, or 1 to 3.
#[unsafe(no_mangle)]
pub extern "C" fn sounder_open_bias(bias: &[u8]) -> u8
    ensures { result ≡ number_of (bias_opening bias.now) }
{
    station::sounder_open_bias(bias)
}

// Document 01, "One thermometer": 0 and t in units of °C, or 8 to 10 and t as it was.
#[unsafe(no_mangle)]
pub extern "C" fn sounder_thermometer(
    r_pam: u32,
    r0: u32,
    alpha: u32,
    delta: u32,
    beta: u32,
    pam: u16,
    offset: u16,
    count: u16,
    t: &mut i32,
) -> u8
    ensures { (result ≡ number (reading r_pam r0 alpha delta beta pam offset count)) × (t.new ≡ units_or (reading r_pam r0 alpha delta beta pam offset count) t.old) }
{
    station::sounder_thermometer(r_pam, r0, alpha, delta, beta, pam, offset, count, t)
}

// Opens the table and the bias file and, where both are accepted, feeds a fresh calibrator the list: 0, or the number of the first refusal.
#[unsafe(no_mangle)]
pub extern "C" fn sounder_feed_all(
    table: &[u8],
    bias: &[u8],
    records: &[u8],
    record_lengths: &[u32],
    buffers: &mut [u8],
    buffer_lengths: &[u32],
    answers: &mut [u8],
) -> u8
    ensures { (result ≡ number_of (both_opening table.now bias.now)) × (answers.new ≡ answers_by (both_opening table.now bias.now) table.now bias.now (record { scans = records.now; sizes = record_lengths.now; buffers = buffers.old; rooms = buffer_lengths.now }) answers.old) × (buffers.new ≡ buffers_by (both_opening table.now bias.now) table.now bias.now (record { scans = records.now; sizes = record_lengths.now; buffers = buffers.old; rooms = buffer_lengths.now }) (length answers.old)) }
{
    station::sounder_feed_all(
        table,
        bias,
        records,
        record_lengths,
        buffers,
        buffer_lengths,
        answers,
    )
}

// How many bytes a state has.
#[unsafe(no_mangle)]
pub extern "C" fn sounder_state_size() -> usize
    ensures { result ≡ state_size }
{
    station::sounder_state_size()
}

// Writes the state of a fresh calibrator under this table and this bias file: 0, 1 to 3, or 254 where the state is too short.
#[unsafe(no_mangle)]
pub extern "C" fn sounder_fresh(table: &[u8], bias: &[u8], state: &mut [u8]) -> u8
    ensures { (result ≡ number_of (fresh_verdict table.now bias.now state.old)) × (state.new ≡ fresh_by (fresh_verdict table.now bias.now state.old) table.now bias.now state.old) }
{
    station::sounder_fresh(table, bias, state)
}

// Feeds a scan to the calibrator of a state: 0, 254 where the bytes are no state, or 4 to 7.
#[unsafe(no_mangle)]
pub extern "C" fn sounder_feed(state: &mut [u8], scan: &[u8], buffer: &mut [u8]) -> u8
    ensures { CallLeaves (fed_state state.old (record { scan = scan.now; buffer = buffer.old })) result state.new buffer.new }
{
    station::sounder_feed(state, scan, buffer)
}

// Request W5, the count behind a temperature, by the calibrator of a state: 0 and the count; or 254 where the bytes are no state, 11, 12, or 253
// where no count fits, and the count as it was.
#[unsafe(no_mangle)]
pub extern "C" fn sounder_count_behind(
    state: &[u8],
    channel: u32,
    wanted: u32,
    count: &mut u16,
) -> u8
    ensures { (result ≡ found_number (found_in state.now channel wanted)) × (count.new ≡ count_or (found_in state.now channel wanted) count.old) }
{
    station::sounder_count_behind(state, channel, wanted, count)
}

// 10,000 times the major, 100 times the minor and once the patch number of the version.
#[unsafe(no_mangle)]
pub extern "C" fn sounder_version() -> u32
    ensures { result ≡ library_version }
{
    station::sounder_version()
}
