// Scan by scan: what a station calls on a state in its own memory.

#![tactic(auto)]

ghost use Rattle.std.specs.Prelude.{◌≡◌, true, ◌≤◌, length};
ghost use Rattle.lists.specs.Tests.{number_of};
ghost use Rattle.window.specs.Ranges.{WindowRange};
ghost use Rattle.lastscan.specs.Ranges.{LastRange};
ghost use Rattle.calibrator.specs.Feeding.{step};
ghost use Rattle.calibrator.specs.Steps.{calibrator_of};
ghost use Rattle.state.specs.State.{state_size, saved, window_in, last_in, is_state};
ghost use Rattle.live.specs.Calls.{fresh_verdict, fresh_by, left_by, fed_state, CallLeaves, found_in};
ghost use Rattle.live.specs.Answers.{answer_number, refusal_number, found_of};

use bias::{PAIR_NUMBERS, Pairs};
use calibrator::FedWindow;
use state::{Files, Parts, STATE_SIZE};

// Why a call is refused: the bytes are no state, or none has room; or as an opening, a feed or a look-up is refused.
#[derive(Clone, Copy, Debug, PartialEq, Eq)]
pub enum Refusal {
    NoState,
    File(table::Refusal),
    Feed(calibrator::Refusal),
    Lookup(lookup::Refusal),
}

impl From<table::Refusal> for Refusal {
    ghost use Rattle.live.specs.declared.Refusal.TheVariants.{File};

    ghost from_gives = { λ refusal r. r ≡ File refusal };

    fn from(refusal: table::Refusal) -> Refusal {
        Refusal::File(refusal)
    }
}

impl From<calibrator::Refusal> for Refusal {
    ghost use Rattle.live.specs.declared.Refusal.TheVariants.{Feed};

    ghost from_gives = { λ refusal r. r ≡ Feed refusal };

    fn from(refusal: calibrator::Refusal) -> Refusal {
        Refusal::Feed(refusal)
    }
}

impl From<lookup::Refusal> for Refusal {
    ghost use Rattle.live.specs.declared.Refusal.TheVariants.{Lookup};

    ghost from_gives = { λ refusal r. r ≡ Lookup refusal };

    fn from(refusal: lookup::Refusal) -> Refusal {
        Refusal::Lookup(refusal)
    }
}

impl Refusal {
    // The number of a refusal.
    pub fn number(self) -> u8
        ensures { result ≡ refusal_number self }
    {
        match self {
            Refusal::NoState => 254,
            Refusal::File(refusal) => refusal as u8,
            Refusal::Feed(refusal) => refusal as u8,
            Refusal::Lookup(refusal) => refusal as u8,
        }
    }
}

// A fresh state under this table and this bias file. The table's refusal comes first, then the bias file's, then that the state is too short.
pub fn fresh(table: &[u8], bias: &[u8], state: &mut [u8]) -> Result<(), Refusal>
    ensures answer { answer_number result ≡ number_of (fresh_verdict table.now bias.now state.old) }
    ensures state { state.new ≡ fresh_by (fresh_verdict table.now bias.now state.old) table.now bias.now state.old }
{
    table::open(table)?;
    bias::open(bias)?;
    if state.len() < STATE_SIZE {
        return Err(Refusal::NoState);
    }
    let parts = Parts {
        table,
        bias,
        window: &window::empty(),
        last: &None,
    };
    state::save(state, &parts);
    Ok(())
}

// Saves what an accepted scan makes of the calibrator of these files. Not inlined: the window and the last scan, which are lent on, would stand
// in the frame of a whole feed a second time.
#[inline(never)]
fn save_fed(files: &Files, fed: FedWindow, state: &mut [u8])
    requires room { state_size ≤ length state.old }
    requires ranges { WindowRange fed.window × LastRange fed.last }
    ensures { state.new ≡ saved state.old (calibrator_of files.now.table files.now.bias fed.window fed.last) }
{
    let parts = Parts {
        table: files.table.bytes(),
        bias: files.bias.bytes(),
        window: &fed.window,
        last: &fed.last,
    };
    state::save(state, &parts);
}

// Feeds a scan to the calibrator of a state whose files were read, and saves what an accepted scan makes of it.
fn feed_read(files: &Files, state: &mut [u8], scan: &[u8], buffer: &mut [u8]) -> Result<(), Refusal>
    requires { is_state state.old ≡ true }
    ensures { CallLeaves (left_by state.old (step (calibrator_of files.now.table files.now.bias (window_in state.old) (last_in state.old)) (record { scan = scan.now; buffer = buffer.old }))) (answer_number result) state.new buffer.new }
{
    let mut numbers = [0; PAIR_NUMBERS];
    bias::put_pairs(&mut numbers, files.bias.bytes());
    let pairs = Pairs {
        bias: &files.bias,
        numbers: &numbers,
    };
    let window = state::window_in(state);
    let last = state::last_in(state);
    let fed = calibrator::feed_with(&files.table, &pairs, window, last, scan, buffer);
    fed.answer?;
    save_fed(files, fed, state);
    Ok(())
}

// Feeds a scan to the calibrator of a state.
pub fn feed(state: &mut [u8], scan: &[u8], buffer: &mut [u8]) -> Result<(), Refusal>
    ensures { CallLeaves (fed_state state.old (record { scan = scan.now; buffer = buffer.old })) (answer_number result) state.new buffer.new }
{
    let Some(files) = state::read(state) else {
        return Err(Refusal::NoState);
    };
    feed_read(&files, state, scan, buffer)
}

// The count behind a temperature, by the calibrator of a state; none where no count fits.
pub fn count_behind(state: &[u8], channel: u32, wanted: u32) -> Result<Option<u16>, Refusal>
    ensures { found_of result ≡ found_in state.now channel wanted }
{
    if !state::is_state(state) {
        return Err(Refusal::NoState);
    }
    Ok(lookup::count_behind(state::last_in(state), channel, wanted)?)
}
