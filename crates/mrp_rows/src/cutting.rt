//! A text's records, cut into cells.

ghost use Rattle.std.specs.Prelude.{◌≡◌, ◌++◌, ◌∷◌, ◌==◌, ◌||◌, [], IfOk, IfSome, OnOk, drop, if◌then◌else◌, take};
ghost use Rattle.std.specs.List.{list_any};
ghost use Rattle.csv.specs.declared.parser.State.TheVariants as st;
ghost use Rattle.mrp_rows.specs.CellTexts.{none_held};
ghost use Rattle.mrp_rows.specs.Cutting.{BeginsWith, IsCutFrom, cell_in, cell_length, counts, ends_bare, ends_cell, spot_after};
ghost use Rattle.mrp_rows.specs.Shown.{is_empty};

use crate::bundle::{after_line_ends, is_line_end};
use crate::cell_texts::CellTexts;
use mrp_qty::NoMemory;
use std::alloc::Global;

// Where a byte of a cell stands.
#[derive(Clone, Copy)]
enum Spot {
    // In front of the cell.
    Front,
    // In a cell without quotes, or behind the quotes of one.
    Bare,
    // Between quotes.
    Quoted,
    // Behind a quote that stands there.
    Behind,
}

/// The record that a text begins with.
#[derive(Drop)]
pub(crate) struct Cut<'a> {
    /// Its first cells.
    pub(crate) cells: CellTexts,
    /// How many cells it has.
    pub(crate) count: usize,
    /// Whether those past the first are empty.
    pub(crate) are_others_empty: bool,
    /// The text behind it.
    pub(crate) rest: &'a [u8],
}

// How many cells a record has, whether those past the first are empty, and the text behind it.
#[derive(Clone, Copy)]
pub(crate) struct End<'a> {
    pub(crate) count: usize,
    pub(crate) are_others_empty: bool,
    pub(crate) rest: &'a [u8],
}

// What is behind a cell, and whether the cell may stand past a record's first: it is one of these, or it is empty.
#[derive(Clone, Copy)]
struct Behind<'a> {
    text: &'a [u8],
    is_fit: bool,
}

// Whether a byte ends a cell that is not between quotes.
fn ends_bare(byte: u8) -> bool
    ensures { result ≡ ends_bare byte }
{
    byte == b',' || is_line_end(byte)
}

// Whether a byte ends the cell in front of it.
fn ends_cell(at: Spot, byte: u8) -> bool
    ensures { result ≡ ends_cell at byte }
{
    match at {
        Spot::Quoted => false,
        Spot::Front | Spot::Bare | Spot::Behind => ends_bare(byte),
    }
}

// Behind a byte of a cell.
fn spot_after(at: Spot, byte: u8) -> Spot
    ensures { result ≡ spot_after at byte }
{
    match at {
        Spot::Bare => Spot::Bare,
        Spot::Front | Spot::Behind if byte == b'"' => Spot::Quoted,
        Spot::Front | Spot::Behind => Spot::Bare,
        Spot::Quoted if byte == b'"' => Spot::Behind,
        Spot::Quoted => Spot::Quoted,
    }
}

// Whether a byte of a cell counts.
fn counts(at: Spot, byte: u8) -> bool
    ensures { result ≡ counts at byte }
{
    match at {
        Spot::Front | Spot::Quoted => byte != b'"',
        Spot::Bare | Spot::Behind => true,
    }
}

// How many bytes a text has up to the one that ends its first cell.
fn cell_length(text: &[u8]) -> usize
    ensures { result ≡ cell_length Spot.Front text.now }
{
    let mut spot = Spot::Front;
    for (at, byte) in text.iter().enumerate() {
        if ends_cell(spot, *byte) {
            return at;
        }
        spot = spot_after(spot, *byte);
    }
    text.len()
}

// Adds the bytes of a cell that count, one by one.
fn add_bytes(spelled: &[u8], cells: &mut CellTexts) -> Result<(), NoMemory>
    ensures { OnOk result (cells.new ≡ record cells.old { begun = cells.old.begun ++ cell_in Spot.Front spelled.now }) }
{
    let mut spot = Spot::Front;
    for byte in spelled {
        if counts(spot, *byte) {
            cells.add_byte(*byte)?;
        }
        spot = spot_after(spot, *byte);
    }
    Ok(())
}

fn has_quote(text: &[u8]) -> bool
    ensures { result ≡ list_any (λ byte. byte == 34) text.now }
{
    text.iter().any(|byte| *byte == b'"')
}

// What is between a cell's quotes, if there are two.
fn between_quotes(spelled: &[u8]) -> Option<&[u8]>
    ensures { IfSome result (λ cell. cell_in Spot.Front spelled.now ≡ cell.now) }
{
    let (first, behind) = spelled.split_first()?;
    let (last, cell) = behind.split_last()?;
    if *first != b'"' || *last != b'"' || has_quote(cell) {
        return None;
    }
    Some(cell)
}

// A cell's bytes that count, if they are in one piece.
fn piece_in(spelled: &[u8]) -> Option<&[u8]>
    ensures { IfSome result (λ cell. cell_in Spot.Front spelled.now ≡ cell.now) }
{
    match spelled.split_first() {
        Some((first, _)) if *first == b'"' => between_quotes(spelled),
        Some(_) => Some(spelled),
        None => Some(spelled),
    }
}

// Adds the bytes of a cell that count.
fn add_cell(spelled: &[u8], cells: &mut CellTexts) -> Result<(), NoMemory>
    ensures { OnOk result (cells.new ≡ record cells.old { begun = cells.old.begun ++ cell_in Spot.Front spelled.now }) }
{
    match piece_in(spelled) {
        Some(piece) => cells.add(piece),
        None => add_bytes(spelled, cells),
    }
}

// Whether no byte of a cell counts.
fn is_blank(spelled: &[u8]) -> bool
    ensures { result ≡ is_empty (cell_in Spot.Front spelled.now) }
{
    let mut spot = Spot::Front;
    for byte in spelled {
        if counts(spot, *byte) {
            return false;
        }
        spot = spot_after(spot, *byte);
    }
    true
}

// What is behind a text's first cell, which is added if it is kept.
fn cut_cell<'a>(
    text: &'a [u8],
    is_kept: bool,
    cells: &mut CellTexts,
) -> Result<Behind<'a>, NoMemory>
    requires { cells.old.begun ≡ [] }
    ensures behind { IfOk result (λ behind. behind.text.now ≡ drop (cell_length Spot.Front text.now) text.now) }
    ensures fit { IfOk result (λ behind. behind.is_fit ≡ (is_kept || is_empty (cell_in Spot.Front (take (cell_length Spot.Front text.now) text.now)))) }
    ensures cells { OnOk result (cells.new.cells ≡ (if is_kept
        then cells.old.cells ++ (cell_in Spot.Front (take (cell_length Spot.Front text.now) text.now) ∷ [])
        else cells.old.cells)) }
    ensures begun { OnOk result (cells.new.begun ≡ []) }
{
    let (spelled, behind) = text.split_at(cell_length(text));
    if is_kept {
        add_cell(spelled, cells)?;
        cells.close()?;
    }
    Ok(Behind {
        text: behind,
        is_fit: is_kept || is_blank(spelled),
    })
}

// Cuts off the record that a text begins with, cell by cell, and adds the first ones, so many at most.
fn cut_cells<'a>(text: &'a [u8], most: usize, cells: &mut CellTexts) -> Result<End<'a>, NoMemory>
    requires { cells.old ≡ none_held }
    ensures { IfOk result (λ end. BeginsWith st.StartField text.now most cells.new.cells end.count end.are_others_empty end.rest.now) }
{
    let mut rest = text;
    let mut count = 0;
    let mut are_others_empty = true;
    loop {
        let behind = cut_cell(rest, count < most, cells)?;
        count += 1;
        are_others_empty = are_others_empty & behind.is_fit;
        let Some((byte, more)) = behind.text.split_first() else {
            return Ok(End {
                count,
                are_others_empty,
                rest: behind.text,
            });
        };
        if *byte != b',' {
            return Ok(End {
                count,
                are_others_empty,
                rest: more,
            });
        }
        rest = more;
    }
}

// Cuts off the record that a text begins with, and adds its first cells, so many at most.
pub(crate) fn cut_record<'a>(
    text: &'a [u8],
    most: usize,
    cells: &mut CellTexts,
) -> Result<End<'a>, NoMemory>
    requires { cells.old ≡ none_held }
    ensures { IfOk result (λ end. BeginsWith st.StartField text.now most cells.new.cells end.count end.are_others_empty end.rest.now) }
{
    match cells.take_line(text, most)? {
        Some(len) => Ok(End {
            count: cells.len(),
            are_others_empty: true,
            rest: &text[len..],
        }),
        None => cut_cells(text, most, cells),
    }
}

// No cells, in a spare record's memory if there is one.
fn no_cells(alloc: Global, most: usize, spare: Option<CellTexts>) -> Result<CellTexts, NoMemory>
    ensures { IfOk result (λ cells. cells ≡ none_held) }
{
    match spare {
        Some(mut cells) => {
            cells.clear();
            Ok(cells)
        }
        None => CellTexts::with_room(alloc, most),
    }
}

/// The record that a text begins with, and its first cells, so many at most: a record of more cells takes
/// no memory for the others. `None` if there is none. A spare record's memory is reused.
///
/// Errors: `NoMemory` if an allocation fails.
pub(crate) fn first_record<'a>(
    alloc: Global,
    text: &'a [u8],
    most: usize,
    spare: Option<CellTexts>,
) -> Result<Option<Cut<'a>>, NoMemory>
    ensures { IsCutFrom text.now most result }
{
    let text = after_line_ends(text);
    if text.is_empty() {
        return Ok(None);
    }
    let mut cells = no_cells(alloc, most, spare)?;
    let end = cut_record(text, most, &mut cells)?;
    Ok(Some(Cut {
        cells,
        count: end.count,
        are_others_empty: end.are_others_empty,
        rest: end.rest,
    }))
}
