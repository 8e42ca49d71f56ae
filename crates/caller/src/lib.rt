// What a station gets from each C function, from plain arguments and with nothing asked of it: every answer, and every byte and number that is
// written. Each contract here is proved only if the function of `station` that is called promises all of it, for all arguments. Nothing of this
// crate is shipped.

#![tactic(auto)]

ghost use Rattle.std.specs.Prelude.{◌≡◌, length};
ghost use Rattle.lists.specs.Tests.{number_of};
ghost use Rattle.thermometer.specs.Reading.{number, reading};
ghost use Rattle.table.specs.Opening.{opening};
ghost use Rattle.bias.specs.Opening.{bias_opening, both_opening};
ghost use Rattle.live.specs.Calls.{fresh_verdict, fresh_by, fed_state, found_in, found_number, count_or};
ghost use Rattle.station.specs.Calls.{units_or, answers_by, buffers_by};

pub fn opening_of_a_table(table: &[u8]) -> u8
    ensures { result ≡ number_of (opening table.now) }
{
    station::sounder_open(table)
}

pub fn opening_of_a_bias_file(bias: &[u8]) -> u8
    ensures { result ≡ number_of (bias_opening bias.now) }
{
    station::sounder_open_bias(bias)
}

pub fn temperature_of_one_thermometer(
    r_pam: u32,
    r0: u32,
    alpha: u32,
    delta: u32,
    beta: u32,
    pam: u16,
    offset: u16,
    count: u16,
    t: &mut i32,
) -> u8
    ensures { (result ≡ number (reading r_pam r0 alpha delta beta pam offset count)) × (t.new ≡ units_or (reading r_pam r0 alpha delta beta pam offset count) t.old) }
{
    station::sounder_thermometer(r_pam, r0, alpha, delta, beta, pam, offset, count, t)
}

pub fn products_of_a_list(
    table: &[u8],
    bias: &[u8],
    records: &[u8],
    record_lengths: &[u32],
    buffers: &mut [u8],
    buffer_lengths: &[u32],
    answers: &mut [u8],
) -> u8
    ensures { (result ≡ number_of (both_opening table.now bias.now)) × (answers.new ≡ answers_by (both_opening table.now bias.now) table.now bias.now (record { scans = records.now; sizes = record_lengths.now; buffers = buffers.old; rooms = buffer_lengths.now }) answers.old) × (buffers.new ≡ buffers_by (both_opening table.now bias.now) table.now bias.now (record { scans = records.now; sizes = record_lengths.now; buffers = buffers.old; rooms = buffer_lengths.now }) (length answers.old)) }
{
    station::sounder_feed_all(
        table,
        bias,
        records,
        record_lengths,
        buffers,
        buffer_lengths,
        answers,
    )
}

pub fn bytes_of_a_state() -> usize
    ensures { result ≡ 12576 }
{
    station::sounder_state_size()
}

pub fn fresh_state(table: &[u8], bias: &[u8], state: &mut [u8]) -> u8
    ensures { (result ≡ number_of (fresh_verdict table.now bias.now state.old)) × (state.new ≡ fresh_by (fresh_verdict table.now bias.now state.old) table.now bias.now state.old) }
{
    station::sounder_fresh(table, bias, state)
}

pub fn product_of_one_scan(state: &mut [u8], scan: &[u8], buffer: &mut [u8]) -> u8
    ensures { (result ≡ (fed_state state.old (record { scan = scan.now; buffer = buffer.old })).answer) × (state.new ≡ (fed_state state.old (record { scan = scan.now; buffer = buffer.old })).state) × (buffer.new ≡ (fed_state state.old (record { scan = scan.now; buffer = buffer.old })).buffer) }
{
    station::sounder_feed(state, scan, buffer)
}

pub fn count_behind_a_temperature(state: &[u8], channel: u32, wanted: u32, count: &mut u16) -> u8
    ensures { (result ≡ found_number (found_in state.now channel wanted)) × (count.new ≡ count_or (found_in state.now channel wanted) count.old) }
{
    station::sounder_count_behind(state, channel, wanted, count)
}

pub fn version_of_the_library() -> u32
    ensures { result ≡ 60100 }
{
    station::sounder_version()
}
