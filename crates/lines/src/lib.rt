// Document 01, "Listing program": the lines as bytes, and one step of each program.

#![tactic(auto)]

ghost use Rattle.std.specs.Prelude.{◌≡◌, ◌++◌, ◌+◌, ◌≤◌, [], length};
ghost use Rattle.instrument.specs.Instrument.{channels};
ghost use Rattle.table.specs.Opening.{verdict_of};
ghost use Rattle.calibrator.specs.Refusals.{reply_of};
ghost use Rattle.calibrator.specs.Feeding.{step};
ghost use Rattle.lines.specs.Lines.{decimal, refused_line, flag_digits, scan_line, reply_line, opening_line, stop_line};
ghost use Rattle.lines.specs.Steps.{listed_of, written_by, calibrated_of};

use calibrator::Calibrator;
use instrument::CHANNELS;
use product::{FLAGS_AT, NUMBER_AT, PRODUCT_SIZE};
use std::marker::Model;

// Where the flags of a product end.
const FLAGS_END: usize = FLAGS_AT + CHANNELS;

// The longest line: `scan `, ten digits, ` delivered `, ten digits, ` flags `, a digit for each channel and the line feed.
pub const LONGEST: usize = 44 + CHANNELS;

// A line, or the part of it that is written so far. No `Display`: memory has a fixed size, and `Display` ensures no bytes that a proof can use.
// And no vector of std: its memory grows on the heap. Proofs see this one as the list of its bytes too. Behind them stand zeros, so that
// the list has all that a line has, as `Copy` asks.
#[derive(Clone, Copy)]
pub struct Line {
    bytes: [u8; LONGEST],
    size: usize,
}

impl Model for Line {
    ghost use Rattle.std.specs.Prelude.{ℕ, ◌-◌, ◌≤◌, ◌≡◌, List, ◌++◌, length, take, drop, replicate};
    ghost use Rattle.std.proofs.Common.{subst, sym, ap, ◌∙◌, take-append-drop, length-take-le};
    ghost use Rattle.lines.specs.declared.TheConstants.{LONGEST};

    ghost Value = { List ℕ };

    ghost view = { λ l. take l.size l.bytes };

    ghost invariant = { λ l. (l.size ≤ LONGEST) × (length l.bytes ≡ LONGEST) × (drop l.size l.bytes ≡ replicate (LONGEST - l.size) 0) };

    ghost inverse = { λ text. record { bytes = text ++ replicate (LONGEST - length text) 0; size = length text } };

    ghost inverse_ok = { λ l h i.
        let long = length-take-le l.size l.bytes (subst (λ n. l.size ≤ n) (sym h.1) h.0) in
        let rest = ap (λ n. replicate (LONGEST - n) 0) long ∙ sym h.2 in record {
          bytes = (ap (λ zeros. take l.size l.bytes ++ zeros) rest ∙ take-append-drop l.size l.bytes) i;
          size = long i;
        } };
}

// Why a program ends before its input does.
#[derive(Clone, Copy, Debug, PartialEq, Eq)]
pub enum Stop {
    InputUnread,
    OutputUnwritten,
}

// What is written of a record: the product, which stands in the buffer that was lent, or a line.
#[derive(Clone, Copy)]
pub enum Written {
    Product,
    Line(Line),
}

// What is made of a record: the calibrator that is handed back, and what is written.
#[derive(Clone, Copy)]
pub struct Made {
    pub calibrator: Calibrator,
    pub written: Written,
}

impl Line {
    fn empty() -> Self
        ensures { result ≡ [] }
    {
        Line {
            bytes: [0; LONGEST],
            size: 0,
        }
    }

    fn push(&mut self, text: &[u8])
        requires { length self.old + length text.now ≤ LONGEST }
        ensures { self.new ≡ self.old ++ text.now }
    {
        let end = self.size + text.len();
        self.bytes[self.size..end].copy_from_slice(text);
        self.size = end;
    }

    fn push_decimal(&mut self, n: u32)
        requires { length self.old + 10 ≤ LONGEST }
        ensures digits { self.new ≡ self.old ++ decimal n }
        ensures at_most_ten { length self.new ≤ length self.old + 10 }
    {
        let mut text = [0u8; 20];
        let k = io::decimal(u64::from(n), &mut text);
        self.push(&text[..k]);
    }

    pub fn as_bytes(&self) -> &[u8]
        ensures { result.now ≡ self.now }
    {
        &self.bytes[..self.size]
    }
}

fn flag_digits(flags: &[u8]) -> [u8; CHANNELS]
    requires { length flags.now ≡ channels }
    ensures { result ≡ flag_digits flags.now }
{
    std::array::from_fn(|c| b'0' + flags[c] % 10)
}

// ---- lines

pub fn refused_line(number: u8) -> Line
    ensures { result ≡ refused_line number }
{
    let mut line = Line::empty();
    line.push(b"refused ");
    line.push_decimal(u32::from(number));
    line.push(b"\n");
    line
}

fn scan_line(number: u32, delivered: u32, flags: &[u8]) -> Line
    requires { length flags.now ≡ channels }
    ensures { result ≡ scan_line number delivered flags.now }
{
    let mut line = Line::empty();
    line.push(b"scan ");
    line.push_decimal(number);
    line.push(b" delivered ");
    line.push_decimal(delivered);
    line.push(b" flags ");
    line.push(&flag_digits(flags));
    line.push(b"\n");
    line
}

// The line of a feed's answer; of an accepted one, `product` is what it left.
pub fn answer_line(answer: Result<u32, calibrator::Refusal>, product: &[u8; PRODUCT_SIZE]) -> Line
    ensures { result ≡ reply_line (reply_of answer) product.now }
{
    match answer {
        Ok(delivered) => {
            let number = fields::u32_at(product, NUMBER_AT);
            scan_line(number, delivered, &product[FLAGS_AT..FLAGS_END])
        }
        Err(refusal) => refused_line(refusal as u8),
    }
}

// The line of an opening, of a table or of a bias file; an accepted one has none.
pub fn opening_line(opening: Result<(), table::Refusal>) -> Line
    ensures { result ≡ opening_line (verdict_of opening) }
{
    match opening {
        Ok(()) => Line::empty(),
        Err(refusal) => refused_line(refusal as u8),
    }
}

// The last line of a program that ends early.
pub fn stop_line(stop: Stop) -> Line
    ensures { result ≡ stop_line stop }
{
    let mut line = Line::empty();
    match stop {
        Stop::InputUnread => line.push(b"stopped: standard input cannot be read\n"),
        Stop::OutputUnwritten => line.push(b"stopped: standard output cannot be written\n"),
    }
    line
}

// ---- one step of each program

// Feeds a record and makes its line.
pub fn list_record(calibrator: Calibrator, scan: &[u8]) -> Made
    ensures { result ≡ listed_of calibrator scan.now }
{
    let mut product = [0u8; PRODUCT_SIZE];
    let fed = calibrator.feed(scan, &mut product);
    Made {
        calibrator: fed.calibrator,
        written: Written::Line(answer_line(fed.answer, &product)),
    }
}

// What `calibrate` writes by a feed's answer.
fn written_by(answer: Result<u32, calibrator::Refusal>) -> Written
    ensures { result ≡ written_by (reply_of answer) }
{
    match answer {
        Ok(_) => Written::Product,
        Err(refusal) => Written::Line(refused_line(refusal as u8)),
    }
}

// Feeds a record: the product of an accepted one, or the line of a refused one.
pub fn calibrate_record(
    calibrator: Calibrator,
    scan: &[u8],
    product: &mut [u8; PRODUCT_SIZE],
) -> Made
    ensures calibrated { result ≡ calibrated_of calibrator scan.now }
    ensures product { product.new ≡ (step calibrator (record { scan = scan.now; buffer = product.old })).outcome.buffer }
{
    let fed = calibrator.feed(scan, product);
    Made {
        calibrator: fed.calibrator,
        written: written_by(fed.answer),
    }
}
