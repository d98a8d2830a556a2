//! Sets of items that need one another, with their names and the lines of their file.

ghost use Rattle.std.specs.Prelude.{◌≡◌, IfOk, slice_get};
ghost use Rattle.mrp_loops.specs.Needs.{AreWithin};
ghost use Rattle.mrp_survey.specs.Loops.{AreFound, along, count_of, edges_of, file_lines, first_number, loop_told, name_of, names_along, places_along};

use crate::bill_lines::BillLine;
use crate::found_loop::FoundLoop;
use crate::known::Known;
use crate::sheet::Sheet;
use mrp_loops::{Line, Loop, loops};
use mrp_qty::NoMemory;
use mrp_rows::Name;
use std::alloc::Global;

fn name_of(items: &Option<Known>, place: usize) -> Option<Name>
    ensures { result ≡ name_of items.now place }
{
    match items {
        Some(items) => items.name_at(place),
        None => None,
    }
}

fn count_of(items: &Option<Known>) -> usize
    ensures { result ≡ count_of items.now }
{
    match items {
        Some(items) => items.len(),
        None => 0,
    }
}

fn line_at(lines: &[BillLine], place: usize) -> Option<BillLine>
    ensures { result ≡ slice_get lines.now place }
{
    lines.get(place).copied()
}

// The bill lines along a way.
fn along(alloc: Global, lines: &[BillLine], way: &[usize]) -> Result<Vec<BillLine>, NoMemory>
    ensures { IfOk result (λ own. own.items ≡ along lines.now way.now) }
{
    let own = way
        .iter()
        .filter_map(|place| line_at(lines, *place))
        .collect(alloc)?;
    Ok(own)
}

// The items along bill lines that lead down from one.
fn places_along(alloc: Global, item: usize, lines: &[BillLine]) -> Result<Vec<usize>, NoMemory>
    ensures { IfOk result (λ places. places.items ≡ places_along item lines.now) }
{
    let mut places = Vec::new(alloc);
    places.push(item)?;
    for line in lines {
        places.push(line.line.component)?;
    }
    Ok(places)
}

fn names_along(
    alloc: Global,
    items: &Option<Known>,
    item: usize,
    lines: &[BillLine],
) -> Result<Vec<Name>, NoMemory>
    ensures { IfOk result (λ names. names.items ≡ names_along items.now item lines.now) }
{
    let places = places_along(alloc, item, lines)?;
    let names = places
        .iter()
        .filter_map(|place| name_of(items, *place))
        .collect(alloc)?;
    Ok(names)
}

// The lines of the file in which bill lines begin.
fn file_lines(alloc: Global, sheet: &Sheet<'_>, lines: &[BillLine]) -> Result<Vec<u64>, NoMemory>
    ensures { IfOk result (λ own. own.items ≡ file_lines sheet.now lines.now) }
{
    let own = lines
        .iter()
        .map(|line| sheet.line(line.number))
        .collect(alloc)?;
    Ok(own)
}

fn first_number(lines: &[BillLine]) -> usize
    ensures { result ≡ first_number lines.now }
{
    match lines.first() {
        Some(line) => line.number,
        None => 0,
    }
}

fn found_loop(
    alloc: Global,
    items: &Option<Known>,
    sheet: &Sheet<'_>,
    lines: &[BillLine],
    own: &Loop,
) -> Result<FoundLoop, NoMemory>
    ensures { IfOk result (λ found. found ≡ loop_told items.now sheet.now lines.now own.now) }
{
    let along = along(alloc, lines, &own.way)?;
    Ok(FoundLoop {
        file: sheet.file(),
        number: first_number(&along),
        names: names_along(alloc, items, own.item, &along)?,
        lines: file_lines(alloc, sheet, &along)?,
    })
}

fn edges_of(alloc: Global, lines: &[BillLine]) -> Result<Vec<Line>, NoMemory>
    ensures { IfOk result (λ edges. edges.items ≡ edges_of lines.now) }
{
    let edges = lines.iter().map(|line| line.line).collect(alloc)?;
    Ok(edges)
}

// The sets of items that need one another by these bill lines.
pub(crate) fn loops_among(
    alloc: Global,
    items: &Option<Known>,
    sheet: &Sheet<'_>,
    lines: &[BillLine],
) -> Result<Vec<FoundLoop>, NoMemory>
    requires { AreWithin (count_of items.now) (edges_of lines.now) }
    ensures { IfOk result (λ found. AreFound items.now sheet.now lines.now found.items) }
{
    let edges = edges_of(alloc, lines)?;
    let sets = loops(alloc, count_of(items), &edges)?;
    let mut found = Vec::with_capacity(alloc, sets.len())?;
    for own in &sets {
        found.push(found_loop(alloc, items, sheet, lines, own)?)?;
    }
    Ok(found)
}
