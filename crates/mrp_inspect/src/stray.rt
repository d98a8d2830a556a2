//! Lines that begin with `[` and begin no table, and where each table's text stands.

ghost use Rattle.std.specs.Prelude.{◌≡◌, ◌++◌, IfOk, OnOk};
ghost use Rattle.std.specs.Option.{option_to_list};
ghost use Rattle.mrp_inspect.specs.Pieces.{begins};
ghost use Rattle.mrp_inspect.specs.Strays as spec;
ghost use Rattle.mrp_inspect.specs.Strays.{first_of, firsts_of};

use crate::piece::{Piece, same_table};
use mrp_qty::NoMemory;
use mrp_rows::Table;
use std::alloc::Global;
use std::marker::Model;

// The tables, in the order of a bundle.
pub(crate) const TABLES: [Table; 9] = [
    Table::Calendar,
    Table::Items,
    Table::Centres,
    Table::Stock,
    Table::Receipts,
    Table::Bills,
    Table::Routings,
    Table::Master,
    Table::Script,
];

// Why a line is told.
#[derive(Clone, Copy)]
pub(crate) enum Reason {
    // It names no table; with the place of the piece that it begins.
    NoTable {
        place: usize,
    },
    // It names a table that has a file.
    OfFile(Table),
    // It names a table that an earlier line of this file begins.
    Again {
        table: Table,
        file: Table,
        line: u64,
    },
}

// A line that is told.
#[derive(Drop)]
pub(crate) struct Stray<'a> {
    pub(crate) file: Table,
    pub(crate) number: u64,
    pub(crate) text: &'a [u8],
    pub(crate) reason: Reason,
}

impl<'a> Model for Stray<'a> {
    ghost use Rattle.mrp_inspect.specs.Strays.{StrayLine};

    ghost Value = { StrayLine };

    ghost view = { λ s. record { file = s.file; number = s.number; text = s.text.now; reason = s.reason } };
}

// The place of the first piece that begins a table.
fn first_of(pieces: &[Piece<'_>], table: Table) -> Option<usize>
    ensures { result ≡ first_of pieces.now table }
{
    pieces.iter().position(|piece| piece.begins(table))
}

// The same of each table, in the order of the tables.
pub(crate) fn firsts_of(alloc: Global, pieces: &[Piece<'_>]) -> Result<Vec<Option<usize>>, NoMemory>
    ensures { IfOk result (λ firsts. firsts.items ≡ firsts_of pieces.now) }
{
    let mut firsts = Vec::with_capacity(alloc, TABLES.len())?;
    for table in TABLES {
        let first = first_of(pieces, table);
        firsts.push(first)?;
    }
    Ok(firsts)
}

// The place of the first piece that begins a table, among those of all tables.
pub(crate) fn first_among(firsts: &[Option<usize>], table: Table) -> Option<usize>
    ensures { result ≡ spec.first_among firsts.now table }
{
    match firsts.get(table.index()) {
        Some(first) => *first,
        None => None,
    }
}

// Whether a table has a file of its own.
fn has_file(pieces: &[Piece<'_>], table: Table) -> bool
    ensures { result ≡ spec.has_file pieces.now table }
{
    pieces.iter().any(|piece| piece.is_own(table))
}

// The line that begins a piece, told for a reason.
fn stray_at<'a>(piece: &Piece<'a>, reason: Reason) -> Stray<'a>
    ensures { result ≡ spec.stray piece.now reason }
{
    Stray {
        file: piece.file(),
        number: piece.line,
        text: piece.head.unwrap_or(b""),
        reason,
    }
}

// Why a line is told whose table an earlier piece begins.
fn repeated(filed: bool, table: Table, first: &Piece<'_>) -> Reason
    ensures { result ≡ spec.repeated filed table first.now }
{
    if filed {
        Reason::OfFile(table)
    } else {
        Reason::Again {
            table,
            file: first.file(),
            line: first.line,
        }
    }
}

// What is told of a piece whose table an earlier one begins.
fn told_again<'a>(
    pieces: &[Piece<'a>],
    table: Table,
    first: &Piece<'a>,
    piece: &Piece<'a>,
) -> Stray<'a>
    ensures { result ≡ spec.told_again pieces.now table first.now piece.now }
{
    if piece.head.is_none() {
        stray_at(first, Reason::OfFile(table))
    } else {
        stray_at(piece, repeated(has_file(pieces, table), table, first))
    }
}

// What is told of the piece at a place.
fn told_of<'a>(
    pieces: &[Piece<'a>],
    firsts: &[Option<usize>],
    place: usize,
    piece: &Piece<'a>,
) -> Option<Stray<'a>>
    requires { firsts.now ≡ firsts_of pieces.now }
    ensures { result ≡ spec.told_of pieces.now place piece.now piece.now.begins }
{
    let Some(table) = piece.begins else {
        return Some(stray_at(piece, Reason::NoTable { place }));
    };
    let first = first_among(firsts, table)?;
    if first == place {
        return None;
    }
    let earlier = pieces.get(first)?;
    Some(told_again(pieces, table, earlier, piece))
}

// Adds a line, if there is one.
fn push_stray<'a>(stray: Option<Stray<'a>>, strays: &mut Vec<Stray<'a>>) -> Result<(), NoMemory>
    ensures { OnOk result (strays.new.items ≡ strays.old.items ++ option_to_list stray.entry) }
{
    if let Some(stray) = stray {
        strays.push(stray)?;
    }
    Ok(())
}

// All lines that are told.
pub(crate) fn strays_of<'a>(
    alloc: Global,
    pieces: &[Piece<'a>],
    firsts: &[Option<usize>],
) -> Result<Vec<Stray<'a>>, NoMemory>
    requires { firsts.now ≡ firsts_of pieces.now }
    ensures { IfOk result (λ strays. strays.items ≡ spec.strays_of pieces.now) }
{
    let mut strays = Vec::new(alloc);
    for (place, piece) in pieces.iter().enumerate() {
        let told = told_of(pieces, firsts, place, piece);
        push_stray(told, &mut strays)?;
    }
    Ok(strays)
}

// Whether a line of a table's file is told.
pub(crate) fn has_stray(strays: &[Stray<'_>], file: Table) -> bool
    ensures { result ≡ spec.has_stray strays.now file }
{
    strays.iter().any(|stray| same_table(stray.file, file))
}
