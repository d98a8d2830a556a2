//! The line of items that need one another.

ghost use Rattle.std.specs.Prelude.{◌≡◌, ◌++◌, [], OnOk, codes, decimal, map, slice_index, slice_index_or, string_bytes, take};
ghost use Rattle.mrp_advice.specs.Listing.{listed_in, with_line};
ghost use Rattle.mrp_advice.specs.Loops.{bill_words, lines_words, loop_line, loop_place, names_words, needs_words, rest_words, way_words};
ghost use Rattle.mrp_advice.specs.Shown.{shown};
ghost use Rattle.mrp_advice.specs.Texts.{behind_each, listed};

use crate::listing::Listing;
use crate::sign::push_shown;
use crate::text::{push_number, text_of_name};
use mrp_rows::Name;
use mrp_survey::FoundLoop;
use std::alloc::AllocError;

// The most items, and the most bill lines, that a line names.
const MOST_NAMED: usize = 20;

// What stands for the rest of so many, where there is one.
fn rest_words(words: &'static str, count: usize) -> &'static str
    ensures { result.now ≡ rest_words words.now count }
{
    if count > MOST_NAMED { words } else { "" }
}

fn first_names(names: &[Name]) -> &[Name]
    ensures { result.now ≡ take MOST_NAMED names.now }
{
    match names.get(..MOST_NAMED) {
        Some(first) => first,
        None => names,
    }
}

fn first_lines(lines: &[u64]) -> &[u64]
    ensures { result.now ≡ take MOST_NAMED lines.now }
{
    match lines.get(..MOST_NAMED) {
        Some(first) => first,
        None => lines,
    }
}

fn push_other_names(names: &[Name], text: &mut String) -> Result<(), AllocError>
    ensures { OnOk result (string_bytes text.new ≡ string_bytes text.old ++ behind_each (codes " > ") names.now) }
{
    for name in names {
        text.push_str(" > ")?;
        text.push_str(text_of_name(name))?;
    }
    Ok(())
}

fn push_name_list(names: &[Name], text: &mut String) -> Result<(), AllocError>
    ensures { OnOk result (string_bytes text.new ≡ string_bytes text.old ++ listed (codes " > ") names.now) }
{
    match names {
        [] => Ok(()),
        [first, others @ ..] => {
            text.push_str(text_of_name(first))?;
            push_other_names(others, text)
        }
    }
}

fn push_names(names: &[Name], text: &mut String) -> Result<(), AllocError>
    ensures { OnOk result (string_bytes text.new ≡ string_bytes text.old ++ names_words names.now) }
{
    push_name_list(first_names(names), text)?;
    text.push_str(rest_words(" > ..", names.len()))
}

fn push_other_lines(lines: &[u64], text: &mut String) -> Result<(), AllocError>
    ensures { OnOk result (string_bytes text.new ≡ string_bytes text.old ++ behind_each (codes ", ") (map decimal lines.now)) }
{
    for line in lines {
        text.push_str(", ")?;
        push_number(*line, text)?;
    }
    Ok(())
}

fn push_line_list(lines: &[u64], text: &mut String) -> Result<(), AllocError>
    ensures { OnOk result (string_bytes text.new ≡ string_bytes text.old ++ listed (codes ", ") (map decimal lines.now)) }
{
    match lines {
        [] => Ok(()),
        [first, others @ ..] => {
            push_number(*first, text)?;
            push_other_lines(others, text)
        }
    }
}

fn push_lines(lines: &[u64], text: &mut String) -> Result<(), AllocError>
    ensures { OnOk result (string_bytes text.new ≡ string_bytes text.old ++ lines_words lines.now) }
{
    push_line_list(first_lines(lines), text)?;
    text.push_str(rest_words(", ..", lines.len()))
}

fn first_line(lines: &[u64]) -> u64
    ensures { result ≡ slice_index lines.now 0 }
{
    lines.first().copied().unwrap_or(0)
}

fn push_first_name(names: &[Name], text: &mut String) -> Result<(), AllocError>
    ensures { OnOk result (string_bytes text.new ≡ string_bytes text.old ++ shown (slice_index_or names.now 0 [])) }
{
    match names.first() {
        Some(name) => push_shown(name.as_bytes(), text),
        None => push_shown(b"", text),
    }
}

// Adds where a way begins.
fn push_loop_place(found: &FoundLoop, text: &mut String) -> Result<(), AllocError>
    ensures { OnOk result (string_bytes text.new ≡ string_bytes text.old ++ loop_place found.now) }
{
    text.push_str(found.file().name())?;
    text.push_str(".csv:")?;
    push_number(first_line(found.lines()), text)?;
    text.push_str(": loop: ")
}

// Adds an item that needs itself, and the items on its way.
fn push_needs(names: &[Name], text: &mut String) -> Result<(), AllocError>
    ensures { OnOk result (string_bytes text.new ≡ string_bytes text.old ++ needs_words names.now) }
{
    push_first_name(names, text)?;
    text.push_str(" needs itself: ")?;
    push_names(names, text)
}

// Adds the lines of the bill lines on its way.
fn push_bill(lines: &[u64], text: &mut String) -> Result<(), AllocError>
    ensures { OnOk result (string_bytes text.new ≡ string_bytes text.old ++ bill_words lines.now) }
{
    text.push_str(" (lines ")?;
    push_lines(lines, text)?;
    text.push_str(")")
}

// Adds the way of an item that needs itself.
fn push_way(found: &FoundLoop, text: &mut String) -> Result<(), AllocError>
    ensures { OnOk result (string_bytes text.new ≡ string_bytes text.old ++ way_words found.now) }
{
    push_needs(found.names(), text)?;
    push_bill(found.lines(), text)
}

// Adds the words of the line of items that need one another.
fn push_words(found: &FoundLoop, text: &mut String) -> Result<(), AllocError>
    ensures { OnOk result (string_bytes text.new ≡ string_bytes text.old ++ loop_line found.now) }
{
    push_loop_place(found, text)?;
    push_way(found, text)?;
    text.push_str("; expected no way back")
}

// Adds the line of items that need one another.
pub(crate) fn push_loop(found: &FoundLoop, lines: &mut Listing) -> Result<(), AllocError>
    ensures { OnOk result (listed_in lines.new ≡ with_line (listed_in lines.old) (loop_line found.now)) }
{
    push_words(found, &mut lines.text)?;
    lines.end()
}
