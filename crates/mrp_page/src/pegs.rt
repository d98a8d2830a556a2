//! The pegs that are kept: those of an item, of an open order, and those that the orders of a parent wait for.

ghost use Rattle.std.specs.Prelude.{◌≡◌, ◌++◌, ◌∷◌, [], IfOk, OnOk, ℕ, List, map};
ghost use Rattle.std.specs.Option.{option_map_or};
ghost use Rattle.mrp_page.specs.Pegs.{HasPieces, HasWaits, pieces_of_order, pieces_in, waits_for, waits_in, with_open, with_pieces};

use crate::amounts::amount;
use crate::limits::MOST_AMOUNT;
use crate::places::Places;
use crate::row::Row;
use crate::template::has_word;
use mrp_qty::NoMemory;
use std::alloc::Global;
use std::collections::HashMap;
use std::marker::Model;

// A sum that saturates.
fn with_pieces(total: u64, peg: &Row) -> u64
    ensures { result ≡ with_pieces total peg.now }
{
    total.saturating_add(amount(peg.cell(8))).min(MOST_AMOUNT)
}

// Adds the pieces of a peg to those of its order, if that is open.
fn note_open<'a>(
    pieces: &mut HashMap<(&'a [u8], &'a [u8]), u64>,
    peg: &'a Row,
) -> Result<(), NoMemory>
    ensures { OnOk result ((name order : List ℕ) → pieces_in pieces.new name order ≡ with_open name order (pieces_in pieces.old name order) peg.now) }
{
    if !has_word(6, b"open", peg) {
        return Ok(());
    }
    let order = (peg.name(), peg.cell(7));
    let total = pieces.get(&order).copied().unwrap_or(0);
    match pieces.insert(order, with_pieces(total, peg)) {
        Ok(_) => Ok(()),
        Err(_) => Err(NoMemory),
    }
}

// How many pieces each open order has, by its item and its name.
fn pieces_of_orders<'a>(
    alloc: Global,
    pegs: &'a [Row],
) -> Result<HashMap<(&'a [u8], &'a [u8]), u64>, NoMemory>
    ensures { IfOk result (λ pieces. HasPieces pieces pegs.now) }
{
    let mut pieces = HashMap::new(alloc);
    for peg in pegs {
        note_open(&mut pieces, peg)?;
    }
    Ok(pieces)
}

// Adds a peg to those that the orders of its parent wait for, if it is for an order.
fn note_wait<'a>(
    alloc: Global,
    waits: &mut HashMap<&'a [u8], Vec<&'a Row>>,
    peg: &'a Row,
) -> Result<(), NoMemory>
    ensures { OnOk result ((name : List ℕ) → map (λ r. r.now) (waits_in waits.new name) ≡ map (λ r. r.now) (waits_in waits.old name) ++ waits_for (peg.now ∷ []) name) }
{
    if !has_word(2, b"parent", peg) {
        return Ok(());
    }
    let parent = peg.cell(4);
    let mut pegs = waits.remove(parent).unwrap_or(Vec::new(alloc));
    pegs.push(peg)?;
    match waits.insert(parent, pegs) {
        Ok(_) => Ok(()),
        Err(_) => Err(NoMemory),
    }
}

// What the orders of each parent wait for.
fn waits_of_parents<'a>(
    alloc: Global,
    pegs: &'a [Row],
) -> Result<HashMap<&'a [u8], Vec<&'a Row>>, NoMemory>
    ensures { IfOk result (λ waits. HasWaits waits pegs.now) }
{
    let mut waits = HashMap::new(alloc);
    for peg in pegs {
        note_wait(alloc, &mut waits, peg)?;
    }
    Ok(waits)
}

/// Pegs, found by their item, their open order and the parent that waits for them; contracts see them as the
/// rows.
#[derive(Drop)]
pub(crate) struct Pegs<'a> {
    rows: Places<'a>,
    pieces: HashMap<(&'a [u8], &'a [u8]), u64>,
    waits: HashMap<&'a [u8], Vec<&'a Row>>,
}

impl<'a> Model for Pegs<'a> {
    ghost use Rattle.std.specs.Prelude.{List};
    ghost use Rattle.mrp_page.specs.Row.{RowView};
    ghost use Rattle.mrp_page.specs.Pegs.{HasPieces, HasWaits};

    ghost Value = { List RowView };

    ghost view = { λ p. p.rows };

    ghost invariant = { λ p. HasPieces p.pieces p.rows × HasWaits p.waits p.rows };
}

impl<'a> Pegs<'a> {
    // The pegs of a report.
    pub(crate) fn of(alloc: Global, pegs: &'a [Row]) -> Result<Pegs<'a>, NoMemory>
        ensures { IfOk result (λ found. found ≡ pegs.now) }
    {
        let rows = Places::of(alloc, pegs)?;
        let pieces = pieces_of_orders(alloc, pegs)?;
        let waits = waits_of_parents(alloc, pegs)?;
        Ok(Pegs {
            rows,
            pieces,
            waits,
        })
    }

    // The same pegs, found by their items.
    pub(crate) fn places(&self) -> &Places<'a>
        ensures { result.now ≡ self.now }
    {
        &self.rows
    }

    // How many pieces the pegs of an open order have together.
    pub(crate) fn pieces_of_order(&self, name: &[u8], order: &[u8]) -> u64
        ensures { result ≡ pieces_of_order self.now name.now order.now }
    {
        self.pieces.get(&(name, order)).copied().unwrap_or(0)
    }

    // The pegs that the orders of an item wait for, if they wait for any.
    pub(crate) fn waits_for(&self, name: &[u8]) -> Option<&Vec<&'a Row>>
        ensures { option_map_or (λ pegs. map (λ r. r.now) pegs.now.items) result [] ≡ waits_for self.now name.now }
    {
        self.waits.get(name)
    }
}
