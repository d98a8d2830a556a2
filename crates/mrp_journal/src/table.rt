//! A journal as a table of records.

ghost use Rattle.std.specs.Prelude.{◌≡◌, ◌↔◌, IsTrue};
ghost use Rattle.mrp_rows.specs.Bundle.{without_line_ends, without_mark};
ghost use Rattle.mrp_rows.specs.Together.{has_section_line};
ghost use Rattle.mrp_journal.specs.Table.{TakesRecords, bare_after, body_of, front_after, header_for, place_after, place_behind};

use mrp_rows::is_line_end;

/// The header of a journal that has none yet: the names of the columns of the table `script`.
pub const SCRIPT_HEADER: &[u8] = b"desk,call,item,date,quantity,number\n";

// Where a byte of a table stands.
#[derive(Clone, Copy, PartialEq, Eq)]
enum Place {
    // Between two records.
    Between,
    // In front of a cell.
    Front,
    // In a cell without quotes, or behind the quotes of one.
    Bare,
    // Between quotes.
    Quoted,
    // Behind a quote that stands there.
    Behind,
}

fn bare_after(byte: u8) -> Place
    ensures { result ≡ bare_after byte }
{
    if byte == b',' {
        Place::Front
    } else if is_line_end(byte) {
        Place::Between
    } else {
        Place::Bare
    }
}

fn front_after(byte: u8) -> Place
    ensures { result ≡ front_after byte }
{
    if byte == b'"' {
        Place::Quoted
    } else {
        bare_after(byte)
    }
}

// Behind a byte.
fn place_after(at: Place, byte: u8) -> Place
    ensures { result ≡ place_after at byte }
{
    match at {
        Place::Between if is_line_end(byte) => Place::Between,
        Place::Between | Place::Front | Place::Behind => front_after(byte),
        Place::Bare => bare_after(byte),
        Place::Quoted if byte == b'"' => Place::Behind,
        Place::Quoted => Place::Quoted,
    }
}

// Behind a text that begins between two records.
fn place_behind(text: &[u8]) -> Place
    ensures { result ≡ place_behind Place.Between text.now }
{
    let mut at = Place::Between;
    for byte in text {
        at = place_after(at, *byte);
    }
    at
}

// Whether a line of a text begins a section.
fn has_section_line(text: &[u8]) -> bool
    ensures { result ≡ has_section_line text.now }
{
    let mut begins = true;
    for byte in text {
        if begins && *byte == b'[' {
            return true;
        }
        begins = is_line_end(*byte);
    }
    false
}

// A text without leading line ends.
fn after_line_ends(text: &[u8]) -> &[u8]
    ensures { result.now ≡ without_line_ends text.now }
{
    let mut rest = text;
    while let [first, others @ ..] = rest {
        if !is_line_end(*first) {
            return rest;
        }
        rest = others;
    }
    rest
}

// A text without a leading byte order mark.
#[tactic(auto, unfolding(mrp_rows::specs::Bundle::without_mark))]
fn after_mark(text: &[u8]) -> &[u8]
    ensures { result.now ≡ without_mark text.now }
{
    match text {
        [0xEF, 0xBB, 0xBF, rest @ ..] => rest,
        _ => text,
    }
}

// What a csv reader reads of a journal: a bundle's section drops one byte order mark, and csv another.
fn body_of(journal: &[u8]) -> &[u8]
    ensures { result.now ≡ body_of journal.now }
{
    after_mark(after_mark(after_line_ends(journal)))
}

/// Whether more records can be appended to a journal: no line of it begins a section, and no quoted cell is open at
/// its end.
pub fn takes_records(journal: &[u8]) -> bool
    ensures { IsTrue result ↔ TakesRecords journal.now }
{
    match place_behind(body_of(journal)) {
        Place::Between => !has_section_line(journal),
        Place::Front | Place::Bare | Place::Quoted | Place::Behind => false,
    }
}

/// What is to be appended to a journal's whole lines before any record: its header, where no record stands there.
pub fn header_for(kept: &[u8]) -> &'static [u8]
    ensures { result.now ≡ header_for kept.now }
{
    if after_line_ends(body_of(kept)).is_empty() {
        SCRIPT_HEADER
    } else {
        b""
    }
}
