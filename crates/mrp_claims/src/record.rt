//! The records of a given history.

ghost use Rattle.std.specs.Prelude.{◌≡◌, [], IfOk, option_map};
ghost use Rattle.std.specs.List.{slice_index_or};
ghost use Rattle.csv.specs.Machine.{next_record};
ghost use Rattle.csv.specs.Reading.{default_config, strip_bom};
ghost use Rattle.csv.specs.Records.{fields_of};
ghost use Rattle.csv.specs.declared.parser.State.TheVariants as st;
ghost use Rattle.mrp_qty.specs.Quantity.{greatest_quantity};
ghost use Rattle.mrp_claims.specs.Reading.{NamesReply, ReadsClaim, ReadsNumber, ReadsReply, SplitsRow, TakesRow};

use crate::call::CallCells;
use crate::cell::{is_word, number_in};
use crate::claim::{Claim, ClaimedReply};
use crate::spelling::text_of;
use csv::{ByteRecord, ReaderBuilder};
use mrp_bill::Shop;
use mrp_cal::MOST_WEEKS;
use mrp_qty::{GREATEST_QUANTITY, NoMemory};
use mrp_tables::limits::MOST_DESKS;
use std::alloc::Global;

/// More bytes than any record of a day's history has.
pub const LONGEST: usize = 512;

// How many cells such a record has.
const COLUMNS: usize = 9;

// The cells of the record that a text begins with, however it is spelled; `None` if there is none.
fn first_cells(alloc: Global, text: &[u8]) -> Result<Option<ByteRecord>, NoMemory>
    ensures { IfOk result (λ found. option_map fields_of found ≡ option_map (λ p. p.0) (next_record default_config st.StartRecord [] [] (strip_bom text.now))) }
{
    let mut reader = ReaderBuilder::new()
        .has_headers(false)
        .from_reader(alloc, text);
    let mut cells = ByteRecord::new(alloc);
    match reader.read_byte_record(&mut cells) {
        Ok(true) => Ok(Some(cells)),
        Ok(false) => Ok(None),
        Err(_) => Err(NoMemory),
    }
}

// The cells of a text's first line, cut at its commas: those of its record, if none is between quotes.
fn cut_cells(alloc: Global, text: &[u8]) -> Result<ByteRecord, NoMemory> {
    let line = text.split(|byte| *byte == b'\n').next().unwrap_or(b"");
    let mut cells = ByteRecord::with_capacity(alloc, line.len(), COLUMNS)?;
    for cell in line.split(|byte| *byte == b',') {
        cells.push_field(cell)?;
    }
    Ok(cells)
}

// These cells, and how many bytes a record of them has, if a text begins with it.
fn spelled(
    alloc: Global,
    text: &[u8],
    cells: ByteRecord,
) -> Result<Option<(ByteRecord, usize)>, NoMemory>
    ensures { IfOk result (TakesRow text.now (fields_of cells)) }
{
    let own = text_of(alloc, &cells)?;
    if text.starts_with(own.as_slice()) {
        Ok(Some((cells, own.len())))
    } else {
        Ok(None)
    }
}

/// The cells of the record that a text begins with, and how many bytes it has; `None` if the text
/// does not begin with a record as a day spells it.
///
/// Errors: `NoMemory` if an allocation fails.
pub fn split_record(alloc: Global, text: &[u8]) -> Result<Option<(ByteRecord, usize)>, NoMemory>
    ensures { SplitsRow text.now result }
{
    let (front, _) = text.split_at(text.len().min(LONGEST));
    // Most records have no quotes. A csv reader, which is expensive to make, is for the others.
    let cut = cut_cells(alloc, front)?;
    if let Some(found) = spelled(alloc, text, cut)? {
        return Ok(Some(found));
    }
    match first_cells(alloc, front)? {
        Some(cells) => spelled(alloc, text, cells),
        None => Ok(None),
    }
}

// A number or a quantity, from its cell.
fn value_in(cell: &[u8]) -> Option<u64>
    ensures { ReadsNumber 0 greatest_quantity cell.now result }
{
    number_in(cell, 0, GREATEST_QUANTITY)
}

// A reply without a value.
fn bare_reply(word: &[u8]) -> Option<ClaimedReply>
    ensures { ReadsReply word.now [] result }
{
    if is_word(word, "cancelled") {
        return Some(ClaimedReply::Cancelled);
    }
    if is_word(word, "not-standing") {
        return Some(ClaimedReply::NotStanding);
    }
    if is_word(word, "not-yours") {
        return Some(ClaimedReply::NotYours);
    }
    if is_word(word, "no-week") {
        return Some(ClaimedReply::NoWeek);
    }
    None
}

// A reply with a number or a quantity.
fn valued_reply(word: &[u8], value: u64) -> Option<ClaimedReply>
    ensures { NamesReply word.now value result }
{
    if is_word(word, "booked") {
        return Some(ClaimedReply::Booked(value));
    }
    if is_word(word, "short") {
        return Some(ClaimedReply::Short(value));
    }
    if is_word(word, "available") {
        return Some(ClaimedReply::Available(value));
    }
    if is_word(word, "front") {
        return Some(ClaimedReply::Front(value));
    }
    None
}

// A reply, from the cells of its word and its value.
fn reply_in(word: &[u8], value: &[u8]) -> Option<ClaimedReply>
    ensures { ReadsReply word.now value.now result }
{
    if value.is_empty() {
        return bare_reply(word);
    }
    if is_word(word, "week") {
        return Some(ClaimedReply::Week(number_in(value, 1, MOST_WEEKS)?));
    }
    valued_reply(word, value_in(value)?)
}

// A record's cell. Columns are counted from 0.
pub(crate) fn cell_of(cells: &ByteRecord, column: usize) -> &[u8]
    ensures { result.now ≡ slice_index_or (fields_of cells.now) column [] }
{
    cells.get(column).unwrap_or(b"")
}

/// What the record of the entry with this number claims; `None` if no record of a day's history has
/// such cells.
pub fn claim_in(shop: &Shop, number: u64, cells: &ByteRecord) -> Option<Claim>
    ensures { ReadsClaim shop.now.tables number (fields_of cells.now) result }
{
    if cells.len() != COLUMNS {
        return None;
    }
    number_in(cell_of(cells, 0), number, number)?;
    let desk = number_in(cell_of(cells, 1), 1, MOST_DESKS)?;
    let call = CallCells {
        word: cell_of(cells, 2),
        item: cell_of(cells, 3),
        week: cell_of(cells, 4),
        quantity: cell_of(cells, 5),
        number: cell_of(cells, 6),
    };
    let call = call.call(shop)?;
    let reply = reply_in(cell_of(cells, 7), cell_of(cells, 8))?;
    Some(Claim { desk, call, reply })
}
