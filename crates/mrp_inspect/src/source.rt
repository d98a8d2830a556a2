//! Where each table's text stands.

ghost use Rattle.std.specs.Prelude.{◌≡◌, map, option_map, position};
ghost use Rattle.mrp_inspect.specs.Pieces.{is_own};
ghost use Rattle.mrp_inspect.specs.Strays.{AreSources, firsts_of, place_of, strays_of, text_from, text_in, text_of};

use crate::piece::Piece;
use crate::stray::{Stray, first_among, has_stray};
use mrp_rows::Table;
use mrp_survey::Source;

// The place of a table's own file's front.
fn own_of(pieces: &[Piece<'_>], table: Table) -> Option<usize>
    ensures { result ≡ position (is_own table) pieces.now }
{
    pieces.iter().position(|piece| piece.is_own(table))
}

// The place of the piece from which a table is read: its own file's front, or else the first that begins it.
fn place_of(pieces: &[Piece<'_>], firsts: &[Option<usize>], table: Table) -> Option<usize>
    requires { firsts.now ≡ firsts_of pieces.now }
    ensures { result ≡ place_of pieces.now table }
{
    match own_of(pieces, table) {
        Some(place) => Some(place),
        None => first_among(firsts, table),
    }
}

// A piece's text, unless a line of its file is told.
fn text_of<'a>(strays: &[Stray<'_>], piece: &Piece<'a>) -> Option<Source<'a>>
    ensures { option_map text_in result ≡ text_of strays.now piece.now }
{
    if has_stray(strays, piece.file()) {
        None
    } else {
        Some(piece.source)
    }
}

// The text from which a table is read.
fn source_of<'a>(
    pieces: &[Piece<'a>],
    firsts: &[Option<usize>],
    strays: &[Stray<'_>],
    table: Table,
) -> Option<Source<'a>>
    requires firsts { firsts.now ≡ firsts_of pieces.now }
    requires strays { strays.now ≡ strays_of pieces.now }
    ensures { option_map text_in result ≡ text_from pieces.now table }
{
    let place = place_of(pieces, firsts, table)?;
    let piece = pieces.get(place)?;
    text_of(strays, piece)
}

// The texts of the tables, in the order of the tables.
pub(crate) fn sources_of<'a>(
    pieces: &[Piece<'a>],
    firsts: &[Option<usize>],
    strays: &[Stray<'_>],
) -> [Option<Source<'a>>; 9]
    requires firsts { firsts.now ≡ firsts_of pieces.now }
    requires strays { strays.now ≡ strays_of pieces.now }
    ensures { AreSources pieces.now result }
{
    [
        source_of(pieces, firsts, strays, Table::Calendar),
        source_of(pieces, firsts, strays, Table::Items),
        source_of(pieces, firsts, strays, Table::Centres),
        source_of(pieces, firsts, strays, Table::Stock),
        source_of(pieces, firsts, strays, Table::Receipts),
        source_of(pieces, firsts, strays, Table::Bills),
        source_of(pieces, firsts, strays, Table::Routings),
        source_of(pieces, firsts, strays, Table::Master),
        source_of(pieces, firsts, strays, Table::Script),
    ]
}
