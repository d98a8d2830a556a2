//! The sections of a bundle.
//!
//! A line begins at the start of the bundle and after each line feed or carriage return. A line
//! whose first byte is `[` is a section line, wherever it is, even inside a quoted cell.

ghost use Rattle.std.specs.Prelude.{◌≡◌, ◌≢◌, ◌≤◌, ◌<◌, ◌∷◌, ◌||◌, ◌==◌, ◌-◌, ◌+◌, ℕ, IfSome, OnOk, length, take, drop, position, slice_index};
ghost use Rattle.std.specs.List.{list_all};
ghost use Rattle.mrp_rows.specs.Tables.{table_index};
ghost use Rattle.mrp_rows.specs.Bundle.{ends_line, lines_of, line_text, sections_in, table_of, without_mark, without_line_ends, section_text, all_texts, text_at, bundle_of};
ghost use Rattle.mrp_rows.specs.Placing.{texts_of, Places, PlacesAll, IsAtSection, GivesText, taken};

use crate::fault::{Fault, Table};
use crate::faults::{MISSING_SECTION, SECTION_TWICE, TEXT_BEFORE_SECTION, UNKNOWN_SECTION};
use memchr::memchr;
use std::marker::Model;

/// The texts of the nine tables' sections, borrowed from the bundle.
///
/// Contracts see it as the list of the nine texts, in the order of the tables.
#[derive(Drop)]
pub struct Sections<'a> {
    texts: [&'a [u8]; 9],
}

impl<'a> Model for Sections<'a> {
    ghost use Rattle.std.specs.Prelude.{List, ℕ, map};

    ghost Value = { List (List ℕ) };

    ghost view = { λ s. map (λ t. t.now) s.texts };
}

impl<'a> Sections<'a> {
    ghost use Rattle.std.specs.Prelude.{◌≡◌};
    ghost use Rattle.mrp_rows.specs.Bundle.{text_in};

    /// The text of a table's section: what follows its line, without leading line ends and without
    /// one byte order mark after them. The bundle itself has no section; its text is empty.
    pub fn text_of(&self, table: Table) -> &'a [u8]
        ensures { result.now ≡ text_in self.now table }
    {
        match self.texts.get(table.index()) {
            Some(text) => text,
            None => b"",
        }
    }
}

/// Whether a byte ends a line: a line feed or a carriage return.
pub fn is_line_end(byte: u8) -> bool
    ensures { result ≡ ends_line byte }
{
    byte == b'\n' || byte == b'\r'
}

fn are_line_ends(bytes: &[u8]) -> bool
    ensures { result ≡ list_all ends_line bytes.now }
{
    bytes.iter().all(|byte| is_line_end(*byte))
}

// Whether a line begins at a place.
fn begins_line(bytes: &[u8], at: usize) -> bool
    requires { at ≤ length bytes.now }
    ensures { result ≡ ((at == 0) || ends_line (slice_index bytes.now (at - 1))) }
{
    at == 0 || is_line_end(bytes[at - 1])
}

// The place of the first bracket from a place on, or the length where there is none.
fn bracket_from(bytes: &[u8], from: usize) -> usize
    requires { from ≤ length bytes.now }
    ensures low { from ≤ result }
    ensures within { result ≤ length bytes.now }
    ensures bracket { result < length bytes.now → slice_index bytes.now result ≡ 91 }
    ensures none { (k : ℕ) → from ≤ k → k < result → slice_index bytes.now k ≢ 91 }
{
    let (_, rest) = bytes.split_at(from);
    match memchr(b'[', rest) {
        Some(gap) => from + gap,
        None => bytes.len(),
    }
}

// The length of the text before the first section line.
fn before_section(bytes: &[u8]) -> usize
    ensures within { result ≤ length bytes.now }
    ensures before { (sections_in bytes.now).0 ≡ take result bytes.now }
    ensures sections { (sections_in bytes.now).1 ≡ (sections_in (drop result bytes.now)).1 }
    ensures front { result < length bytes.now → slice_index bytes.now result ≡ 91 }
{
    let mut at = bracket_from(bytes, 0);
    while at < bytes.len() {
        if begins_line(bytes, at) {
            return at;
        }
        at = bracket_from(bytes, at + 1);
    }
    at
}

// The length of the first line, with the byte that ends it.
fn line_len(bytes: &[u8]) -> usize
    requires { 0 < length bytes.now }
    ensures within { result ≤ length bytes.now }
    ensures some { 0 < result }
    ensures line { lines_of bytes.now
        ≡ take result bytes.now ∷ lines_of (drop result bytes.now) }
{
    for (at, byte) in bytes.iter().enumerate() {
        if is_line_end(*byte) {
            return at + 1;
        }
    }
    bytes.len()
}

fn first_line_end(line: &[u8]) -> Option<usize>
    ensures { result ≡ position ends_line line.now }
{
    line.iter().position(|byte| is_line_end(*byte))
}

// The length of a line without the byte that ends it.
fn name_len(line: &[u8]) -> usize
    ensures within { result ≤ length line.now }
    ensures name { take result line.now ≡ line_text line.now }
{
    first_line_end(line).unwrap_or(line.len())
}

// The table that a section line names.
fn table_named(name: &[u8]) -> Option<Table>
    ensures table { result ≡ table_of name.now }
    ensures place { IfSome result (λ t. table_index t < 9) }
{
    if name == b"[calendar]".as_slice() {
        Some(Table::Calendar)
    } else if name == b"[items]".as_slice() {
        Some(Table::Items)
    } else if name == b"[centres]".as_slice() {
        Some(Table::Centres)
    } else if name == b"[stock]".as_slice() {
        Some(Table::Stock)
    } else if name == b"[receipts]".as_slice() {
        Some(Table::Receipts)
    } else if name == b"[bills]".as_slice() {
        Some(Table::Bills)
    } else if name == b"[routings]".as_slice() {
        Some(Table::Routings)
    } else if name == b"[master]".as_slice() {
        Some(Table::Master)
    } else if name == b"[script]".as_slice() {
        Some(Table::Script)
    } else {
        None
    }
}

// The bytes without a leading byte order mark.
#[tactic(auto, unfolding(crate::specs::Bundle::without_mark))]
pub(crate) fn after_mark(bytes: &[u8]) -> &[u8]
    ensures { result.now ≡ without_mark bytes.now }
{
    match bytes {
        [0xEF, 0xBB, 0xBF, rest @ ..] => rest,
        _ => bytes,
    }
}

// The bytes without leading line ends.
pub(crate) fn after_line_ends(bytes: &[u8]) -> &[u8]
    ensures { result.now ≡ without_line_ends bytes.now }
{
    let mut rest = bytes;
    while let [first, others @ ..] = rest {
        if !is_line_end(*first) {
            return rest;
        }
        rest = others;
    }
    rest
}

fn text_after(following: &[u8]) -> &[u8]
    ensures { result.now ≡ section_text following.now }
{
    after_mark(after_line_ends(following))
}

// Stores a section's text at its table's place; `count` is the number of section lines up to it.
fn put_section<'a>(
    texts: &mut [Option<&'a [u8]>; 9],
    count: u32,
    line: &[u8],
    text: &'a [u8],
) -> Result<(), Fault>
    ensures placed { Places (texts_of texts.old) count text.now
        (table_of (line_text line.now)) result (texts_of texts.new) }
    ensures count { OnOk result (taken texts.new ≡ taken texts.old + 1) }
    ensures within { OnOk result (taken texts.new ≤ 9) }
{
    let (name, _) = line.split_at(name_len(line));
    let Some(table) = table_named(name) else {
        return Err(Fault {
            code: UNKNOWN_SECTION,
            table: Table::Bundle,
            row: count,
        });
    };
    if texts[table.index()].is_some() {
        return Err(Fault {
            code: SECTION_TWICE,
            table,
            row: 0,
        });
    }
    texts[table.index()] = Some(text);
    Ok(())
}

// The texts found so far, at the tables' places.
#[derive(Drop)]
struct Texts<'a> {
    places: [Option<&'a [u8]>; 9],
}

// Stores each section's text at its table's place.
fn place_all(sections: &[u8]) -> Result<Texts<'_>, Fault>
    requires { IsAtSection sections.now }
    ensures { PlacesAll (sections_in sections.now).1 (λ t. t.places) result }
{
    let mut texts = [None; 9];
    let mut rest = sections;
    let mut count: u32 = 0;
    while !rest.is_empty() {
        let (line, after) = rest.split_at(line_len(rest));
        let (text, next) = after.split_at(before_section(after));
        count += 1;
        put_section(&mut texts, count, line, text_after(text))?;
        rest = next;
    }
    Ok(Texts { places: texts })
}

fn text_at<'a>(texts: &[Option<&'a [u8]>; 9], table: Table) -> Result<&'a [u8], Fault>
    requires { table_index table < 9 }
    ensures { GivesText result (text_at (texts_of texts.now) table) }
{
    match texts[table.index()] {
        Some(text) => Ok(text),
        None => Err(Fault {
            code: MISSING_SECTION,
            table,
            row: 0,
        }),
    }
}

#[tactic(auto, unfolding(crate::specs::Bundle::all_texts))]
fn sections_at<'a>(texts: &[Option<&'a [u8]>; 9]) -> Result<Sections<'a>, Fault>
    ensures { result ≡ all_texts (texts_of texts.now) }
{
    let calendar = text_at(texts, Table::Calendar)?;
    let items = text_at(texts, Table::Items)?;
    let centres = text_at(texts, Table::Centres)?;
    let stock = text_at(texts, Table::Stock)?;
    let receipts = text_at(texts, Table::Receipts)?;
    let bills = text_at(texts, Table::Bills)?;
    let routings = text_at(texts, Table::Routings)?;
    let master = text_at(texts, Table::Master)?;
    let script = text_at(texts, Table::Script)?;
    Ok(Sections {
        texts: [
            calendar, items, centres, stock, receipts, bills, routings, master, script,
        ],
    })
}

/// The sections of a bundle. It borrows from the bundle and does not allocate.
///
/// A leading byte order mark is dropped. Before the first section line only line ends are allowed;
/// the sections may come in any order, one for each table, and all nine are required.
///
/// Errors, of the first three the one that comes first in the bundle:
/// 1 text before the first section line; 2 a section line that names no table, with the count of
/// section lines up to it as row; 3 a second section of a table; 4 the first table without a section.
#[tactic(auto, unfolding(crate::specs::Bundle::bundle_of))]
pub fn split_bundle(bundle: &[u8]) -> Result<Sections<'_>, Fault>
    ensures { result ≡ bundle_of bundle.now }
{
    let bytes = after_mark(bundle);
    let (front, sections) = bytes.split_at(before_section(bytes));
    if !are_line_ends(front) {
        return Err(Fault {
            code: TEXT_BEFORE_SECTION,
            table: Table::Bundle,
            row: 0,
        });
    }
    let texts = place_all(sections)?;
    sections_at(&texts.places)
}
