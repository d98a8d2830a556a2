//! Which rows of a report belong together.

ghost use Rattle.std.specs.Prelude.{◌≡◌, ◌++◌, ◌≤◌, [], IfOk, IfSome, OnOk, drop, length, map, not, take, unwrap_or};
ghost use Rattle.std.specs.List.{position};
ghost use Rattle.mrp_page.specs.Row.{is_in, is_of};
ghost use Rattle.mrp_page.specs.Rows.{greatest, higher, leader_rows, leaders, rank, ranked, rows_in};

use crate::row::Row;
use mrp_day::Section;
use mrp_qty::NoMemory;
use std::alloc::Global;

// The place of the first row in a section.
fn first_in(rows: &[Row], section: Section) -> Option<usize>
    ensures { result ≡ position (is_in section) rows.now }
{
    rows.iter().position(|row| row.is_in(section))
}

// The place of the first row that is not in a section.
fn first_out(rows: &[Row], section: Section) -> Option<usize>
    ensures { result ≡ position (λ r. not (is_in section r)) rows.now }
{
    rows.iter().position(|row| !row.is_in(section))
}

// The place of the first row that is not of this item or work centre.
pub(crate) fn first_other(rows: &[Row], name: &[u8]) -> Option<usize>
    ensures { result ≡ position (λ r. not (is_of name.now r)) rows.now }
{
    rows.iter().position(|row| !row.is_of(name))
}

// The rows from a place on; none if there is no place.
fn rows_from(rows: &[Row], place: Option<usize>) -> &[Row]
    requires { IfSome place (λ i. i ≤ length rows.now) }
    ensures { result.now ≡ drop (unwrap_or place (length rows.now)) rows.now }
{
    let (_, rest) = rows.split_at(place.unwrap_or(rows.len()));
    rest
}

// The rows before a place; all if there is no place.
fn rows_before(rows: &[Row], place: Option<usize>) -> &[Row]
    requires { IfSome place (λ i. i ≤ length rows.now) }
    ensures { result.now ≡ take (unwrap_or place (length rows.now)) rows.now }
{
    let (front, _) = rows.split_at(place.unwrap_or(rows.len()));
    front
}

// The rows of a section, which stand together.
pub(crate) fn rows_in(rows: &[Row], section: Section) -> &[Row]
    ensures { result.now ≡ rows_in section rows.now }
{
    let rest = rows_from(rows, first_in(rows, section));
    rows_before(rest, first_out(rest, section))
}

// Adds a row that is not of the same item or work centre as the row before it.
pub(crate) fn add_leader<'a>(
    found: &mut Vec<&'a Row>,
    previous: &[u8],
    row: &'a Row,
) -> Result<(), NoMemory>
    ensures { OnOk result (map (λ r. r.now) found.new.items ≡ map (λ r. r.now) found.old.items ++ leader_rows previous.now row.now) }
{
    if !row.is_of(previous) {
        found.push(row)?;
    }
    Ok(())
}

// The first row of each item or work centre.
#[tactic(auto, unfolding(crate::specs::Rows::leaders, crate::specs::Rows::last_name))]
pub(crate) fn leaders<'a>(alloc: Global, rows: &'a [Row]) -> Result<Vec<&'a Row>, NoMemory>
    ensures { IfOk result (λ found. map (λ r. r.now) found.items ≡ leaders [] rows.now) }
{
    let mut found = Vec::new(alloc);
    let mut previous: &[u8] = b"";
    for row in rows {
        add_leader(&mut found, previous, row)?;
        previous = row.name();
    }
    Ok(found)
}

// A number with one more digit; it saturates at the greatest number.
fn ranked(rank: u64, byte: u8) -> u64
    ensures { result ≡ ranked rank byte }
{
    rank.saturating_mul(10).saturating_add(u64::from(byte))
}

// A number by which numbers with equally many decimals are compared.
#[tactic(auto, using(crate::proofs::RowLists::fold_next, crate::proofs::RowLists::fold_end), unfolding(crate::specs::Rows::rank))]
pub(crate) fn rank(text: &[u8]) -> u64
    ensures { result ≡ rank text.now }
{
    let mut rank = 0;
    for byte in text {
        rank = ranked(rank, *byte);
    }
    rank
}

// The greater of two numbers.
fn higher<'a>(top: &'a [u8], cell: &'a [u8]) -> &'a [u8]
    ensures { result.now ≡ higher top.now cell.now }
{
    if rank(top) < rank(cell) { cell } else { top }
}

// The greatest number of a column, and at least this one.
#[tactic(auto, using(crate::proofs::RowLists::fold_next, crate::proofs::RowLists::fold_end), unfolding(crate::specs::Rows::greatest))]
pub(crate) fn greatest<'a>(rows: &'a [Row], column: usize, least: &'a [u8]) -> &'a [u8]
    ensures { result.now ≡ greatest column least.now rows.now }
{
    let mut top = least;
    for row in rows {
        top = higher(top, row.cell(column));
    }
    top
}
