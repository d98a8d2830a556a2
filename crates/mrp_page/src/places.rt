//! Where the rows of each item stand together in a section, so that they are found without a walk.

ghost use Rattle.std.specs.Prelude.{◌≡◌, ◌+◌, ◌<◌, ◌≤◌, IfOk, OnOk, Some, drop, length, take};
ghost use Rattle.std.specs.HashMap.{UpdatesBy};
ghost use Rattle.std.specs.Str.{bytes_eq};
ghost use Rattle.mrp_page.specs.Draw.{has_item};
ghost use Rattle.mrp_page.specs.Places.{HasStretches, stretch_at};
ghost use Rattle.mrp_page.specs.Rows.{rows_named, start_of};

use crate::row::Row;
use crate::rows::first_other;
use mrp_qty::NoMemory;
use std::alloc::Global;
use std::collections::HashMap;
use std::marker::Model;

// Rows that stand together: the place of the first, and how many they are.
#[derive(Clone, Copy)]
struct Stretch {
    first: usize,
    count: usize,
}

// No rows.
const NO_ROWS: Stretch = Stretch { first: 0, count: 0 };

// The rows of an item that stand together from this place on.
fn stretch_at(rows: &[Row], name: &[u8], first: usize) -> Stretch
    requires { first ≤ length rows.now }
    ensures { result ≡ stretch_at rows.now name.now first }
{
    let (_, rest) = rows.split_at(first);
    let count = first_other(rest, name).unwrap_or(rest.len());
    Stretch { first, count }
}

// Notes where the rows of an item stand.
fn add_stretch<'a>(
    stretches: &mut HashMap<&'a [u8], Stretch>,
    name: &'a [u8],
    stretch: Stretch,
) -> Result<(), NoMemory>
    ensures { OnOk result (UpdatesBy (λ x y. bytes_eq x.now y.now) (λ q. bytes_eq name.now q.now) stretches.old stretches.new (Some stretch)) }
{
    match stretches.insert(name, stretch) {
        Ok(_) => Ok(()),
        Err(_) => Err(NoMemory),
    }
}

// Notes where the rows of the item of a row stand, if that is its first row.
fn note_stretch<'a>(
    stretches: &mut HashMap<&'a [u8], Stretch>,
    rows: &'a [Row],
    place: usize,
) -> Result<(), NoMemory>
    requires { place < length rows.now }
    ensures { OnOk result (HasStretches stretches.old rows.now place → HasStretches stretches.new rows.now (place + 1)) }
{
    let row = &rows[place];
    let name = row.name();
    if stretches.contains_key(name) {
        return Ok(());
    }
    let stretch = stretch_at(rows, name, place);
    add_stretch(stretches, name, stretch)?;
    Ok(())
}

// Where the first rows of each item stand.
fn stretches_of<'a>(alloc: Global, rows: &'a [Row]) -> Result<HashMap<&'a [u8], Stretch>, NoMemory>
    ensures { IfOk result (λ stretches. HasStretches stretches rows.now (length rows.now)) }
{
    let mut stretches = HashMap::new(alloc);
    for place in 0..rows.len() {
        note_stretch(&mut stretches, rows, place)?;
    }
    Ok(stretches)
}

// The rows of a stretch.
fn rows_of(rows: &[Row], stretch: Stretch) -> &[Row]
    requires first { stretch.first ≤ length rows.now }
    requires count { stretch.count ≤ length (drop stretch.first rows.now) }
    ensures { result.now ≡ take stretch.count (drop stretch.first rows.now) }
{
    let (_, rest) = rows.split_at(stretch.first);
    let (front, _) = rest.split_at(stretch.count);
    front
}

/// Rows of a section, with where those of each item stand; contracts see it as the rows.
#[derive(Drop)]
pub(crate) struct Places<'a> {
    rows: &'a [Row],
    stretches: HashMap<&'a [u8], Stretch>,
}

impl<'a> Model for Places<'a> {
    ghost use Rattle.std.specs.Prelude.{List, length};
    ghost use Rattle.mrp_page.specs.Row.{RowView};
    ghost use Rattle.mrp_page.specs.Places.{HasStretches};

    ghost Value = { List RowView };

    ghost view = { λ p. p.rows.now };

    ghost invariant = { λ p. HasStretches p.stretches p.rows.now (length p.rows.now) };
}

impl<'a> Places<'a> {
    // Rows of a section.
    pub(crate) fn of(alloc: Global, rows: &'a [Row]) -> Result<Places<'a>, NoMemory>
        ensures { IfOk result (λ places. places ≡ rows.now) }
    {
        let stretches = stretches_of(alloc, rows)?;
        Ok(Places { rows, stretches })
    }

    // The rows of an item, which stand together.
    pub(crate) fn named(&self, name: &[u8]) -> &'a [Row]
        ensures { result.now ≡ rows_named name.now self.now }
    {
        let stretch = self.stretches.get(name).copied().unwrap_or(NO_ROWS);
        rows_of(self.rows, stretch)
    }

    // The place of the first row of an item; 0 if it has none.
    pub(crate) fn start(&self, name: &[u8]) -> usize
        ensures value { result ≡ start_of self.now name.now }
        ensures within { result ≤ length self.now }
    {
        self.stretches.get(name).copied().unwrap_or(NO_ROWS).first
    }

    // Whether an item has rows.
    pub(crate) fn has(&self, name: &[u8]) -> bool
        ensures { result ≡ has_item self.now name.now }
    {
        self.stretches.contains_key(name)
    }

    // All rows.
    pub(crate) fn rows(&self) -> &'a [Row]
        ensures { result.now ≡ self.now }
    {
        self.rows
    }
}
