//! In which line of a text each of its records begins.

ghost use Rattle.std.specs.Prelude.{◌≡◌, ◌≤◌, ◌<◌, ◌^◌, ◌+◌, ◌&&◌, ◌||◌, ◌==◌, ℕ, IfOk, false, length, not, slice_index};
ghost use Rattle.csv.specs.Reading.{strip_bom};
ghost use Rattle.mrp_survey.specs.Lines.{at_start, begins_record, ends_own_line, is_between, is_special, lines_from, record_lines, spot_after, step_to};

use memchr::memchr3;
use mrp_qty::NoMemory;
use mrp_rows::is_line_end;
use std::alloc::Global;

// Where a byte of a text stands among its records.
#[derive(Clone, Copy)]
pub(crate) enum Spot {
    // Between two records.
    Between,
    // In front of a cell.
    Front,
    // In a cell without quotes.
    Bare,
    // In a cell between quotes.
    Quoted,
    // Behind a quote in such a cell.
    Behind,
}

// The same, and the byte's line.
#[derive(Clone, Copy)]
pub(crate) struct Reading {
    pub(crate) spot: Spot,
    // Whether the byte in front is a carriage return, so that a line feed ends no further line.
    pub(crate) after_return: bool,
    pub(crate) line: u64,
}

/// Whether a line ends with a byte: a line feed behind a carriage return ends no further line.
pub fn ends_own_line(after_return: bool, byte: u8) -> bool
    ensures { result ≡ ends_own_line after_return byte }
{
    byte == b'\r' || (byte == b'\n' && !after_return)
}

// Behind a byte that no quote precedes.
fn spot_behind(byte: u8) -> Spot
    ensures { result ≡ spot_after Spot.Bare byte }
{
    if byte == b',' {
        Spot::Front
    } else if is_line_end(byte) {
        Spot::Between
    } else {
        Spot::Bare
    }
}

// Where the next byte stands.
fn spot_after(spot: Spot, byte: u8) -> Spot
    ensures { result ≡ spot_after spot byte }
{
    match spot {
        Spot::Between | Spot::Front => {
            if byte == b'"' {
                Spot::Quoted
            } else {
                spot_behind(byte)
            }
        }
        Spot::Bare => spot_behind(byte),
        Spot::Quoted => {
            if byte == b'"' {
                Spot::Behind
            } else {
                Spot::Quoted
            }
        }
        Spot::Behind => {
            if byte == b'"' {
                Spot::Quoted
            } else {
                spot_behind(byte)
            }
        }
    }
}

fn is_between(spot: Spot) -> bool
    ensures { result ≡ is_between spot }
{
    matches!(spot, Spot::Between)
}

// Whether a record begins with a byte.
fn begins_record(spot: Spot, byte: u8) -> bool
    ensures { result ≡ begins_record spot byte }
{
    is_between(spot) && !is_line_end(byte)
}

impl Reading {
    ghost use Rattle.std.specs.Prelude.{◌≡◌, ◌+◌, ◌<◌, ◌≤◌, ◌^◌, length};
    ghost use Rattle.mrp_survey.specs.Lines.{at_start, lines_from, step_to};

    pub(crate) fn new(line: u64) -> Reading
        ensures { result ≡ at_start line }
    {
        Reading {
            spot: Spot::Between,
            after_return: false,
            line,
        }
    }

    // Behind a byte.
    pub(crate) fn after(self, byte: u8) -> Reading
        requires { self.line + 1 < 2 ^ 64 }
        ensures { result ≡ step_to self byte }
    {
        let ends = ends_own_line(self.after_return, byte);
        Reading {
            spot: spot_after(self.spot, byte),
            after_return: byte == b'\r',
            line: if ends { self.line + 1 } else { self.line },
        }
    }

    // Behind the bytes that follow in a record up to its next quote or line end: nothing begins there. Behind a record it stays.
    fn skip<'a>(self, bytes: &'a [u8]) -> (Reading, &'a [u8])
        requires { self.line + length bytes.now < 2 ^ 64 }
        ensures lines { lines_from self bytes.now ≡ lines_from result.0 result.1.now }
        ensures line { result.0.line ≡ self.line }
        ensures shorter { length result.1.now ≤ length bytes.now }
    {
        if is_between(self.spot) {
            return (self, bytes);
        }
        let (run, rest) = bytes.split_at(plain_len(bytes));
        match run.split_last() {
            Some((last, _)) => (self.after(*last), rest),
            None => (self, rest),
        }
    }
}

// How many bytes come before the first quote or line end.
fn plain_len(bytes: &[u8]) -> usize
    ensures within { result ≤ length bytes.now }
    ensures plain { (k : ℕ) → k < result → is_special (slice_index bytes.now k) ≡ false }
{
    match memchr3(b'"', b'\n', b'\r', bytes) {
        Some(place) => place,
        None => bytes.len(),
    }
}

// A text without a leading byte order mark.
#[tactic(auto, unfolding(csv::specs::Reading::strip_bom))]
pub(crate) fn after_mark(text: &[u8]) -> &[u8]
    ensures mark { result.now ≡ strip_bom text.now }
    ensures shorter { length result.now ≤ length text.now }
{
    match text {
        [0xEF, 0xBB, 0xBF, rest @ ..] => rest,
        _ => text,
    }
}

/// The line of each record's first byte, the header's first, where the text begins in this line of a file.
///
/// Errors: `NoMemory` if an allocation fails.
pub fn record_lines(alloc: Global, text: &[u8], line: u64) -> Result<Vec<u64>, NoMemory>
    requires { line ≤ 2 ^ 63 }
    ensures { IfOk result (λ lines. lines.items ≡ record_lines line text.now) }
{
    let mut lines = Vec::new(alloc);
    let mut reading = Reading::new(line);
    let mut rest = after_mark(text);
    while let [first, others @ ..] = rest {
        if begins_record(reading.spot, *first) {
            lines.push(reading.line)?;
        }
        let begun = reading.after(*first);
        let (inside, behind) = begun.skip(others);
        reading = inside;
        rest = behind;
    }
    Ok(lines)
}
