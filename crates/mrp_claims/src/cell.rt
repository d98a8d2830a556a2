//! Cells of a given history, read only if they are spelled as a day spells them.

ghost use Rattle.std.specs.Prelude.{◌≡◌, ◌↔◌, IsTrue};
ghost use Rattle.mrp_claims.specs.Reading.{FindsItem, ReadsNumber};

use itoa::Buffer;
use mrp_qty::read_number;
use mrp_rows::Name;
use mrp_tables::Tables;

/// The number from `least` to `most` whose decimal text a cell is.
pub(crate) fn number_in(cell: &[u8], least: u64, most: u64) -> Option<u64>
    ensures { ReadsNumber least most cell.now result }
{
    let Ok(number) = read_number(cell, most) else {
        return None;
    };
    let mut digits = Buffer::new();
    if number < least || digits.format(number).as_bytes() != cell {
        return None;
    }
    Some(number)
}

/// The place of the item whose name a cell is.
pub(crate) fn item_in(tables: &Tables, cell: &[u8]) -> Option<usize>
    ensures { FindsItem tables.now cell.now result }
{
    // Items have names, no two of them the same.
    let _named = tables.items();
    let name = Name::new(cell)?;
    tables.find(&name)
}

/// Whether a cell is a word.
pub(crate) fn is_word(cell: &[u8], word: &str) -> bool
    ensures { IsTrue result ↔ (cell.now ≡ word.now) }
{
    cell == word.as_bytes()
}
