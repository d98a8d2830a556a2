//! The names of items.

ghost use Rattle.std.specs.Prelude.{◌≡◌, IfOk, map};
ghost use Rattle.mrp_tables.specs.Items.{names_of};
ghost use Rattle.mrp_warn.specs.Names.{folded, name_at, small};

use mrp_qty::NoMemory;
use mrp_rows::Name;
use mrp_tables::Item;
use std::alloc::Global;

// A letter in small.
fn small(byte: u8) -> u8
    ensures { result ≡ small byte }
{
    if byte >= b'A' && byte <= b'Z' {
        byte + 32
    } else {
        byte
    }
}

// A text in small letters.
fn small_text(alloc: Global, text: &[u8]) -> Result<Vec<u8>, NoMemory>
    ensures { IfOk result (λ own. own.items ≡ folded text.now) }
{
    let own = text.iter().map(|byte| small(*byte)).collect(alloc)?;
    Ok(own)
}

// A name in small letters.
fn folded(alloc: Global, name: &Name) -> Result<Name, NoMemory>
    ensures { IfOk result (λ own. own ≡ folded name.now) }
{
    let text = small_text(alloc, name.as_bytes())?;
    match Name::new(&text) {
        Some(own) => Ok(own),
        None => unreachable!(),
    }
}

// The names of items in small letters.
pub(crate) fn folded_names(alloc: Global, items: &[Item]) -> Result<Vec<Name>, NoMemory>
    ensures { IfOk result (λ names. names.items ≡ map folded (names_of items.now)) }
{
    let mut names = Vec::with_capacity(alloc, items.len())?;
    for item in items {
        names.push(folded(alloc, &item.name)?)?;
    }
    Ok(names)
}

// The name of the item at a place, if there is one.
pub(crate) fn name_at(items: &[Item], place: usize) -> Option<Name>
    ensures { result ≡ name_at items.now place }
{
    match items.get(place) {
        Some(item) => Some(item.name),
        None => None,
    }
}
