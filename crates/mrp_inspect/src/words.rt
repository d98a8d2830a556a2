//! Faults of files and of section lines, in words.

ghost use Rattle.std.specs.Prelude.{◌≡◌, ◌++◌, IfOk, None, OnOk, filter_map, map, option_map, string_bytes};
ghost use Rattle.std.specs.List.{slice_index_or};
ghost use Rattle.mrp_rows.specs.Tables.{table_index};
ghost use Rattle.std.specs.Option.{option_to_list};
ghost use Rattle.mrp_advice.specs.Listing.{listed_in, with_line, with_lines};
ghost use Rattle.mrp_words.specs.Folder.{all_tables};
ghost use Rattle.mrp_inspect.specs.Words.{path_text, path_words, missing_of, missing_text, other_words, reason_words, stray_text};

use crate::found::PathKind;
use crate::names::{Naming, other_name};
use crate::stray::{Reason, Stray, TABLES, first_among};
use mrp_advice::{Listing, shown};
use mrp_qty::NoMemory;
use mrp_rows::Table;
use std::alloc::{AllocError, Global};

// Why a line is told.
fn reason_words(alloc: Global, reason: Reason) -> Result<String, AllocError>
    ensures { IfOk result (λ text. string_bytes text ≡ reason_words reason) }
{
    match reason {
        Reason::NoTable { .. } => String::from_str(alloc, " begins with [, which begins a section"),
        Reason::OfFile(table) => {
            let table = table.name();
            format!(in alloc; " begins the table of {table}.csv")
        }
        Reason::Again { file, line, .. } => {
            let file = file.name();
            format!(in alloc; " begins a table that begins in line {line} of {file}.csv")
        }
    }
}

// A line that begins with a bracket.
fn stray_text(alloc: Global, stray: &Stray<'_>) -> Result<String, NoMemory>
    ensures { IfOk result (λ text. string_bytes text ≡ stray_text stray.now) }
{
    let file = stray.file.name();
    let number = stray.number;
    let line = shown(alloc, stray.text)?;
    let why = reason_words(alloc, stray.reason)?;
    Ok(format!(in alloc;
        "{file}.csv:{number}: row: {line}{why}; expected no line with [ in front"
    )?)
}

// Another name under which a table's file is there.
fn other_words(alloc: Global, table: Table, other: Option<Naming>) -> Result<String, AllocError>
    ensures { IfOk result (λ text. string_bytes text ≡ other_words table other) }
{
    match other {
        Some(naming) => {
            let name = other_name(alloc, table, naming)?;
            format!(in alloc; ", but '{name}' is there")
        }
        None => Ok(String::new(alloc)),
    }
}

// A table that is not there.
fn missing_text(alloc: Global, table: Table, other: Option<Naming>) -> Result<String, AllocError>
    ensures { IfOk result (λ text. string_bytes text ≡ missing_text table other) }
{
    let name = table.name();
    let but = other_words(alloc, table, other)?;
    format!(in alloc; "{name}.csv:0: file: there is no such file{but}; expected a file {name}.csv")
}

impl PathKind {
    ghost use Rattle.std.specs.Prelude.{◌≡◌};
    ghost use Rattle.mrp_inspect.specs.Words.{path_words};

    // What a folder's path has in place of the tables.
    fn words(self) -> &'static str
        ensures { result.now ≡ path_words self }
    {
        match self {
            PathKind::File => {
                "this is a file and no folder (a bundle is planned by mrp plan < FILE)"
            }
            PathKind::Absent => "there is no such folder",
            PathKind::Folder => "none of the nine tables is there",
        }
    }
}

// The line of a folder that has none of the tables.
pub(crate) fn path_text(alloc: Global, path_kind: PathKind) -> Result<String, AllocError>
    ensures { IfOk result (λ text. string_bytes text ≡ path_text path_kind) }
{
    let what = path_kind.words();
    format!(in alloc;
        ".:0: folder: {what}; expected a folder with calendar.csv, items.csv, centres.csv, stock.csv, receipts.csv, bills.csv, routings.csv, master.csv, script.csv"
    )
}

// Another name under which a table's file is there, among those of all tables.
fn other_among(others: &[Option<Naming>], table: Table) -> Option<Naming>
    ensures { result ≡ slice_index_or others.now (table_index table) None }
{
    match others.get(table.index()) {
        Some(other) => *other,
        None => None,
    }
}

// The line of a table that no piece begins.
fn missing_of(
    alloc: Global,
    firsts: &[Option<usize>],
    others: &[Option<Naming>],
    table: Table,
) -> Result<Option<String>, AllocError>
    ensures { IfOk result (λ line. option_map string_bytes line ≡ missing_of firsts.now others.now table) }
{
    match first_among(firsts, table) {
        Some(_) => Ok(None),
        None => {
            let other = other_among(others, table);
            Ok(Some(missing_text(alloc, table, other)?))
        }
    }
}

// Adds a line, if there is one.
#[tactic(auto, using(mrp_advice::proofs::Listings::no_lines, mrp_advice::proofs::Listings::one_line))]
fn push_some(line: Option<String>, lines: &mut Listing) -> Result<(), NoMemory>
    ensures { OnOk result (listed_in lines.new ≡ with_lines (listed_in lines.old) (option_to_list (option_map string_bytes line))) }
{
    if let Some(line) = line {
        lines.push(line.as_str())?;
    }
    Ok(())
}

// Adds the line of one that begins with a bracket.
fn push_stray(alloc: Global, stray: &Stray<'_>, lines: &mut Listing) -> Result<(), NoMemory>
    ensures { OnOk result (listed_in lines.new ≡ with_line (listed_in lines.old) (stray_text stray.now)) }
{
    let line = stray_text(alloc, stray)?;
    lines.push(line.as_str())?;
    Ok(())
}

// Adds the lines of those that begin with a bracket.
fn push_strays(alloc: Global, strays: &[Stray<'_>], lines: &mut Listing) -> Result<(), NoMemory>
    ensures { OnOk result (listed_in lines.new ≡ with_lines (listed_in lines.old) (map stray_text strays.now)) }
{
    for stray in strays {
        push_stray(alloc, stray, lines)?;
    }
    Ok(())
}

// Adds the lines of the tables that no piece begins.
fn push_missing(
    alloc: Global,
    firsts: &[Option<usize>],
    others: &[Option<Naming>],
    lines: &mut Listing,
) -> Result<(), NoMemory>
    ensures { OnOk result (listed_in lines.new ≡ with_lines (listed_in lines.old) (filter_map (missing_of firsts.now others.now) all_tables)) }
{
    for table in TABLES {
        let missing = missing_of(alloc, firsts, others, table)?;
        push_some(missing, lines)?;
    }
    Ok(())
}

// Adds the lines of what is wrong with files.
pub(crate) fn push_files(
    alloc: Global,
    strays: &[Stray<'_>],
    firsts: &[Option<usize>],
    others: &[Option<Naming>],
    lines: &mut Listing,
) -> Result<(), NoMemory>
    ensures { OnOk result (listed_in lines.new ≡ with_lines (listed_in lines.old) (map stray_text strays.now ++ filter_map (missing_of firsts.now others.now) all_tables)) }
{
    push_strays(alloc, strays, lines)?;
    push_missing(alloc, firsts, others, lines)
}
