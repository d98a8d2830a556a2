//! The lists of a bill.

ghost use Rattle.std.specs.Prelude.{◌≡◌, ◌≤◌, ◌<◌, ◌+◌, ◌++◌, ◌∷◌, [], ℕ, All, IfOk, OnOk, flat_map, if◌then◌else◌, length, map};
ghost use Rattle.std.specs.List.{list_any, range_with_len};
ghost use Rattle.mrp_bill.specs.Bill.{AreWithin, children_of, lines_of};
ghost use Rattle.mrp_bill.specs.BillLists.{AreLists, has_parent, of_parent, to_component};
ghost use Rattle.mrp_bill.specs.Grouped.{listed, values_of};

use super::Lists;
use crate::groups::{Grouped, Numbered};
use mrp_qty::NoMemory;
use mrp_tables::BillLine;
use std::alloc::Global;

// The places of the lines, each numbered by its line's component.
fn numbered_lines(alloc: Global, lines: &[BillLine]) -> Result<Vec<Numbered<usize>>, NoMemory>
    ensures { IfOk result (λ rows. rows.items ≡ map (to_component lines.now) (range_with_len 0 (length lines.now))) }
{
    let mut rows = Vec::with_capacity(alloc, lines.len())?;
    for (place, line) in lines.iter().enumerate() {
        rows.push(Numbered {
            number: line.component,
            value: place,
        })?;
    }
    Ok(rows)
}

// Numbers an item by each parent in the lines at these places, once: a parent is marked with a number
// above the item once the item is numbered by it.
fn number_by_parents(
    rows: &mut Vec<Numbered<usize>>,
    marks: &mut Vec<usize>,
    lines: &[BillLine],
    places: &[usize],
    item: usize,
) -> Result<(), NoMemory>
    requires lines { AreWithin (length marks.old.items) lines.now }
    requires places { All (λ place. place < length lines.now) places.now }
    requires item { item < length marks.old.items }
    requires unmarked { All (λ mark. mark ≤ item) marks.old.items }
    requires within { All (λ r. r.number < length marks.old.items) rows.old.items }
    ensures size { OnOk result (length marks.new.items ≡ length marks.old.items) }
    ensures marked { OnOk result (All (λ mark. mark ≤ item + 1) marks.new.items) }
    ensures within { OnOk result (All (λ r. r.number < length marks.old.items) rows.new.items) }
    ensures rows { OnOk result ((p : ℕ) → values_of rows.new.items p
        ≡ values_of rows.old.items p ++ (if list_any (has_parent lines.now p) places.now then item ∷ [] else [])) }
{
    for place in places {
        let parent = lines[*place].parent;
        if marks[parent] <= item {
            rows.push(Numbered {
                number: parent,
                value: item,
            })?;
            marks[parent] = item + 1;
        }
    }
    Ok(())
}

// The items, each numbered by each of its parents, once. The lines to each item are given by their
// places.
fn numbered_children(
    alloc: Global,
    lines: &[BillLine],
    by_component: &Grouped<usize>,
) -> Result<Vec<Numbered<usize>>, NoMemory>
    requires lines { AreWithin (length by_component.now) lines.now }
    requires places { (i : ℕ) → i < length by_component.now → listed by_component.now i ≡ lines_of lines.now i }
    ensures within { IfOk result (λ rows. All (λ r. r.number < length by_component.now) rows.items) }
    ensures rows { IfOk result (λ rows. (p : ℕ) → values_of rows.items p ≡ children_of lines.now (length by_component.now) p) }
{
    let count = by_component.count();
    let mut rows = Vec::with_capacity(alloc, lines.len())?;
    let mut marks = vec![in alloc; 0; count]?;
    for item in 0..count {
        number_by_parents(&mut rows, &mut marks, lines, by_component.group(item), item)?;
    }
    Ok(rows)
}

// Numbers a parent by each of its components.
fn number_by_components(
    rows: &mut Vec<Numbered<usize>>,
    components: &[usize],
    parent: usize,
) -> Result<(), NoMemory>
    ensures { OnOk result (rows.new.items ≡ rows.old.items ++ map (of_parent parent) components.now) }
{
    for component in components {
        rows.push(Numbered {
            number: *component,
            value: parent,
        })?;
    }
    Ok(())
}

// The items, each numbered by each of its components. A maximum for the number of all is given.
fn numbered_parents(
    alloc: Global,
    most: usize,
    children: &Grouped<usize>,
) -> Result<Vec<Numbered<usize>>, NoMemory>
    ensures { IfOk result (λ rows. rows.items
        ≡ flat_map (λ p. map (of_parent p) (listed children.now p)) (range_with_len 0 (length children.now))) }
{
    let mut rows = Vec::with_capacity(alloc, most)?;
    for parent in 0..children.count() {
        number_by_components(&mut rows, children.group(parent), parent)?;
    }
    Ok(rows)
}

// For each item the places of the lines to it, its parents and its components. They are counted, and
// then put in their places: this is linear in items and lines.
pub fn lists_of(alloc: Global, count: usize, bill: &[BillLine]) -> Result<Lists, NoMemory>
    requires { AreWithin count bill.now }
    ensures { IfOk result (AreLists bill.now count) }
{
    let lines = Grouped::of(alloc, count, &numbered_lines(alloc, bill)?)?;
    let children = Grouped::of(alloc, count, &numbered_children(alloc, bill, &lines)?)?;
    let parents = Grouped::of(
        alloc,
        count,
        &numbered_parents(alloc, bill.len(), &children)?,
    )?;
    Ok(Lists {
        lines,
        parents,
        children,
    })
}
