// What the programs `listing` and `calibrate` do: both read table.bin, then bias.bin, then records from standard input, feed each record
// and write what the crate `lines` makes of it. Stated are what is made of bytes that were read, which calibrator each turn gets, and which
// bytes may go to `write_to`, which alone writes, and for which stream. Open is what std's streams and files do, and runs test it: which bytes
// `read_record` and `read_file` got and how many, that `write_to` is called once for each record and in order, that its bytes are written to
// that stream, and that a failed call is answered as one.

#![tactic(auto)]

ghost use Rattle.std.specs.Prelude.{◌≡◌};
ghost use Rattle.io.specs.Counts.{IsPrefixLen};
ghost use Rattle.table.specs.Opening.{opening};
ghost use Rattle.bias.specs.Opening.{bias_opening};
ghost use Rattle.calibrator.specs.Feeding.{Sound};
ghost use Rattle.programs.specs.Streams.{lines_to, output_took};
ghost use Rattle.programs.specs.Steps.{line_in, product_in, made_of, product_left, next_after, Together, Due};
ghost use Rattle.programs.specs.Runs.{ReadTo, TurnOf, TurnIn, Ran, Unfed, UnderBias, UnderTable, UnderFiles};

use bias::BIAS_SIZE;
use calibrator::Calibrator;
use lines::{Made, Stop, Written};
use product::PRODUCT_SIZE;
use record::RECORD_SIZE;
use std::fs::File;
use std::io::Read;
use table::{TABLE_SIZE, Table};

// Matched in two places: a trait with two impls and their ghost members would be longer.
#[derive(Clone, Copy, Debug, PartialEq, Eq)]
pub enum Program {
    // Document 01, "Listing program".
    Listing,
    // Products to standard output, refusals to standard error (decision 35).
    Calibrate,
}

// What is written to: standard output or standard error.
#[derive(Clone, Copy, Debug, PartialEq, Eq)]
enum Stream {
    Output,
    Errors,
}

// Whether there may be another record. Three ways, in one enum: a `Result` of an `Option` would be taken apart twice at each match.
#[derive(Clone, Copy, Debug, PartialEq, Eq)]
enum Next {
    More,
    Ended,
    Stopped(Stop),
}

// How many bytes of a record were read, and what comes after them. The bytes stay in the lent buffer: `Read` fills a part of it.
#[derive(Clone, Copy)]
struct Got {
    size: usize,
    next: Next,
}

// What comes after a record, and the calibrator that is handed back.
#[derive(Clone, Copy)]
struct Turned {
    next: Next,
    calibrator: Calibrator,
}

// ---- what is made of a record

// Feeds a record: the line of it, or its product in the buffer.
fn write_record(
    program: Program,
    calibrator: Calibrator,
    scan: &[u8],
    product: &mut [u8; PRODUCT_SIZE],
) -> Made
    ensures made { result ≡ made_of program calibrator scan.now }
    ensures product { product.new ≡ product_left program calibrator scan.now product.old }
{
    match program {
        Program::Listing => lines::list_record(calibrator, scan),
        Program::Calibrate => lines::calibrate_record(calibrator, scan, product),
    }
}

// Where standard output did not take all, the program ends.
fn next_after(next: Next, complete: bool) -> Next
    ensures { result ≡ next_after next complete }
{
    if complete {
        next
    } else {
        Next::Stopped(Stop::OutputUnwritten)
    }
}

// ---- what is written

// `rt` and `program` go side by side: a struct of both would have a lifetime, and each contract would name the program through it.

// Where the lines go.
fn lines_to(program: Program) -> Stream
    ensures { result ≡ lines_to program }
{
    match program {
        Program::Listing => Stream::Output,
        Program::Calibrate => Stream::Errors,
    }
}

// Whether standard output took all that was for it: products go on where a refusal cannot be written.
fn output_took(to: Stream, taken: bool) -> bool
    ensures { result ≡ output_took to taken }
{
    match to {
        Stream::Output => taken,
        Stream::Errors => true,
    }
}

// All that is written, with bytes and a stream that are stated. Open: that it writes them there, and answers whether it did.
fn write_to(rt: &HostRuntime, program: Program, to: Stream, bytes: &[u8]) -> bool
    requires { Due program to bytes.now }
{
    let written = match to {
        Stream::Output => rt.stdout().write_all(bytes),
        Stream::Errors => rt.stderr().write_all(bytes),
    };
    written.is_ok()
}

// Writes a line or the product, and answers whether standard output took all.
fn hand_over(rt: &HostRuntime, program: Program, written: &Written, product: &[u8]) -> bool
    requires { Together program (line_in written.now) (product_in written.now product.now) }
{
    match written {
        Written::Product => write_to(rt, program, Stream::Output, product),
        Written::Line(line) => {
            let to = lines_to(program);
            let taken = write_to(rt, program, to, line.as_bytes());
            output_took(to, taken)
        }
    }
}

// Says why the program ends early, as far as standard error can be written.
fn say_stop(rt: &HostRuntime, program: Program, stop: Stop) {
    let line = lines::stop_line(stop);
    write_to(rt, program, Stream::Errors, line.as_bytes());
}

// ---- turns

// Reads until the record is full, the input ends or a read fails, which `read_full` does not tell apart. Nothing is read behind an end:
// a named pipe may get another writer. Open: which bytes were read.
fn read_record(rt: &HostRuntime, scan: &mut [u8; RECORD_SIZE]) -> Got
    ensures prefix_len { IsPrefixLen result.size scan.new }
    ensures read_to { ReadTo result.size result.next }
{
    let mut input = rt.stdin();
    let mut size = 0;
    while size < RECORD_SIZE {
        match input.read(&mut scan[size..]) {
            Err(_) => {
                return Got {
                    size,
                    next: Next::Stopped(Stop::InputUnread),
                };
            }
            Ok(0) => {
                return Got {
                    size,
                    next: Next::Ended,
                };
            }
            Ok(more) => size += more,
        }
    }
    Got {
        size,
        next: Next::More,
    }
}

// Does nothing. Every calibrator keeps to its ranges, which its own methods ensure part by part.
fn keeps_ranges(calibrator: &Calibrator)
    ensures { Sound calibrator.now }
{
    let _ = calibrator.table().bytes();
    let _ = calibrator.bias().bytes();
    let _ = calibrator.window();
    let _ = calibrator.last();
}

// Deals with what was read. What came before an end or a failed read is a short record, which is refused.
fn step(
    rt: &HostRuntime,
    program: Program,
    calibrator: Calibrator,
    scan: &[u8],
    next: Next,
) -> Turned
    ensures { TurnOf calibrator scan.now next result }
{
    if scan.is_empty() {
        return Turned { next, calibrator };
    }
    keeps_ranges(&calibrator);
    let mut product = [0u8; PRODUCT_SIZE];
    let made = write_record(program, calibrator, scan, &mut product);
    let complete = hand_over(rt, program, &made.written, &product);
    Turned {
        next: next_after(next, complete),
        calibrator: made.calibrator,
    }
}

// Reads a record into the buffer and deals with it.
fn turn(
    rt: &HostRuntime,
    program: Program,
    calibrator: Calibrator,
    scan: &mut [u8; RECORD_SIZE],
) -> Turned
    ensures { TurnIn calibrator scan.new result }
{
    let got = read_record(rt, scan);
    step(rt, program, calibrator, &scan[..got.size], got.next)
}

// A proved loop has to end: it has a number of turns that no stream of records uses up.
fn each_record(rt: &HostRuntime, program: Program, calibrator: Calibrator) -> Turned
    ensures { Ran calibrator result }
{
    let mut scan = [0u8; RECORD_SIZE];
    let mut state = calibrator;
    for _ in 0..u64::MAX {
        let turned = turn(rt, program, state, &mut scan);
        match turned.next {
            Next::More => state = turned.calibrator,
            Next::Ended | Next::Stopped(_) => return turned,
        }
    }
    Turned {
        next: Next::More,
        calibrator: state,
    }
}

// ---- the files

// The line of a refused table or bias file. Where standard error does not take that line, it takes no other.
fn refuse(rt: &HostRuntime, program: Program, refusal: table::Refusal) -> Next
    ensures { Unfed result }
{
    let line = lines::opening_line(Err(refusal));
    let complete = hand_over(rt, program, &Written::Line(line), b"");
    next_after(Next::Ended, complete)
}

// Reads until `bytes` is full, the file ends or a read fails, and answers how many bytes were read: `Read` fills a part.
fn read_full(file: &mut File, bytes: &mut [u8]) -> usize
    ensures { IsPrefixLen result bytes.new }
{
    let mut size = 0;
    while size < bytes.len() {
        match file.read(&mut bytes[size..]) {
            Err(_) | Ok(0) => return size,
            Ok(more) => size += more,
        }
    }
    size
}

// Reads a file of the working directory, as far as `bytes` has room, and answers how many bytes were read: none where it cannot be opened
// or read. Room for one byte more than an accepted file has tells a longer one. Open: which bytes were read.
fn read_file(rt: &HostRuntime, name: &str, bytes: &mut [u8]) -> usize
    ensures { IsPrefixLen result bytes.new }
{
    match File::open(rt, name) {
        Err(_) => 0,
        Ok(mut file) => read_full(&mut file, bytes),
    }
}

// A refused bias file gives its line alone, and no record is read.
fn with_bias(rt: &HostRuntime, program: Program, table: Table, bytes: &[u8]) -> Next
    ensures { UnderBias (bias_opening bytes.now) table bytes.now result }
{
    match bias::open(bytes) {
        Ok(bias) => each_record(rt, program, Calibrator::fresh(table, bias)).next,
        Err(refusal) => refuse(rt, program, refusal),
    }
}

// A refused table gives its line alone, and bias.bin is not even opened: it may be a named pipe that nobody writes to.
fn with_table(rt: &HostRuntime, program: Program, bytes: &[u8]) -> Next
    ensures { UnderTable (opening bytes.now) bytes.now result }
{
    match table::open(bytes) {
        Ok(table) => {
            let mut pairs = [0u8; BIAS_SIZE + 1];
            let n = read_file(rt, "bias.bin", &mut pairs);
            with_bias(rt, program, table, &pairs[..n])
        }
        Err(refusal) => refuse(rt, program, refusal),
    }
}

fn with_files(rt: &HostRuntime, program: Program) -> Next
    ensures { UnderFiles result }
{
    let mut bytes = [0u8; TABLE_SIZE + 1];
    let n = read_file(rt, "table.bin", &mut bytes);
    with_table(rt, program, &bytes[..n])
}

pub fn run(rt: &HostRuntime, program: Program) {
    if let Next::Stopped(stop) = with_files(rt, program) {
        say_stop(rt, program, stop);
    }
}
