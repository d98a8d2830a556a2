//! Pieces of a line.

ghost use Rattle.std.specs.Prelude.{◌≡◌, ◌++◌, OnOk, decimal, map, string_bytes};
ghost use Rattle.mrp_advice.specs.Texts as spec;
ghost use Rattle.mrp_advice.specs.Texts.{behind_each, counted, listed, of_cell};

use crate::sign::push_shown;
use itoa::Buffer;
use mrp_rows::Name;
use std::alloc::AllocError;

// Adds a number.
pub(crate) fn push_number(number: u64, text: &mut String) -> Result<(), AllocError>
    ensures { OnOk result (string_bytes text.new ≡ string_bytes text.old ++ decimal number) }
{
    let mut digits = Buffer::new();
    text.push_str(digits.format(number))
}

/// What makes a word a plural, by a number: nothing or `s`.
pub fn plural(number: u128) -> &'static str
    ensures { result.now ≡ spec.plural number }
{
    if number == 1 { "" } else { "s" }
}

/// A name as a text.
pub fn text_of_name(name: &Name) -> &str
    ensures { result.now ≡ name.now }
{
    match str::from_utf8(name.as_bytes()) {
        Ok(text) => text,
        Err(_) => unreachable!(),
    }
}

// Adds a number, and what is counted.
pub(crate) fn push_counted(number: u64, word: &str, text: &mut String) -> Result<(), AllocError>
    ensures { OnOk result (string_bytes text.new ≡ string_bytes text.old ++ counted number word.now) }
{
    push_number(number, text)?;
    text.push_str(" ")?;
    text.push_str(word)?;
    text.push_str(plural(number as u128))
}

// Adds a cell, and what is said of it.
pub(crate) fn push_of(cell: &[u8], words: &str, text: &mut String) -> Result<(), AllocError>
    ensures { OnOk result (string_bytes text.new ≡ string_bytes text.old ++ of_cell cell.now words.now) }
{
    push_shown(cell, text)?;
    text.push_str(words)
}

// Adds texts, each behind this one.
fn push_behind_each(separator: &str, pieces: &[&str], text: &mut String) -> Result<(), AllocError>
    ensures { OnOk result (string_bytes text.new ≡ string_bytes text.old ++ behind_each separator.now (map (λ p. p.now) pieces.now)) }
{
    for piece in pieces {
        text.push_str(separator)?;
        text.push_str(piece)?;
    }
    Ok(())
}

// Adds texts with this one between them.
pub(crate) fn push_listed(
    separator: &str,
    pieces: &[&str],
    text: &mut String,
) -> Result<(), AllocError>
    ensures { OnOk result (string_bytes text.new ≡ string_bytes text.old ++ listed separator.now (map (λ p. p.now) pieces.now)) }
{
    match pieces {
        [] => Ok(()),
        [first, others @ ..] => {
            text.push_str(first)?;
            push_behind_each(separator, others, text)
        }
    }
}
