//! Cutting files into pieces.

ghost use Rattle.std.specs.Prelude.{◌≡◌, ◌≢◌, ◌≤◌, ◌<◌, ◌∷◌, ◌||◌, ◌==◌, ◌-◌, ◌+◌, ◌++◌, ◌^◌, [], ℕ, IfOk, OnOk, Some, flat_map, length, take, drop, position, slice_index};
ghost use Rattle.mrp_rows.specs.Bundle.{ends_line, lines_of, line_text, sections_in};
ghost use Rattle.mrp_rows.specs.Placing.{IsAtSection};
ghost use Rattle.mrp_inspect.specs.Lines.{counted_all};
ghost use Rattle.mrp_inspect.specs.Pieces.{piece_from, pieces_behind, pieces_in};

use crate::lines::Counter;
use crate::piece::Piece;
use memchr::memchr;
use mrp_qty::NoMemory;
use mrp_rows::{Table, is_line_end};
use std::alloc::Global;

// Whether a line begins at a place.
fn begins_line(bytes: &[u8], at: usize) -> bool
    requires { at ≤ length bytes.now }
    ensures { result ≡ ((at == 0) || ends_line (slice_index bytes.now (at - 1))) }
{
    at == 0 || is_line_end(bytes[at - 1])
}

// The place of the first bracket from a place on, or the length where there is none.
fn bracket_from(bytes: &[u8], from: usize) -> usize
    requires { from ≤ length bytes.now }
    ensures low { from ≤ result }
    ensures within { result ≤ length bytes.now }
    ensures bracket { result < length bytes.now → slice_index bytes.now result ≡ 91 }
    ensures none { (k : ℕ) → from ≤ k → k < result → slice_index bytes.now k ≢ 91 }
{
    let (_, rest) = bytes.split_at(from);
    match memchr(b'[', rest) {
        Some(gap) => from + gap,
        None => bytes.len(),
    }
}

// The length of the text before the first line that begins with a bracket.
fn before_section(bytes: &[u8]) -> usize
    ensures within { result ≤ length bytes.now }
    ensures before { (sections_in bytes.now).0 ≡ take result bytes.now }
    ensures sections { (sections_in bytes.now).1 ≡ (sections_in (drop result bytes.now)).1 }
    ensures front { result < length bytes.now → slice_index bytes.now result ≡ 91 }
{
    let mut at = bracket_from(bytes, 0);
    while at < bytes.len() {
        if begins_line(bytes, at) {
            return at;
        }
        at = bracket_from(bytes, at + 1);
    }
    at
}

// The length of the first line, with the byte that ends it.
fn line_len(bytes: &[u8]) -> usize
    requires { 0 < length bytes.now }
    ensures within { result ≤ length bytes.now }
    ensures some { 0 < result }
    ensures line { lines_of bytes.now ≡ take result bytes.now ∷ lines_of (drop result bytes.now) }
{
    for (at, byte) in bytes.iter().enumerate() {
        if is_line_end(*byte) {
            return at + 1;
        }
    }
    bytes.len()
}

fn first_line_end(line: &[u8]) -> Option<usize>
    ensures { result ≡ position ends_line line.now }
{
    line.iter().position(|byte| is_line_end(*byte))
}

// The length of a line without the byte that ends it.
fn text_len(line: &[u8]) -> usize
    ensures within { result ≤ length line.now }
    ensures text { take result line.now ≡ line_text line.now }
{
    first_line_end(line).unwrap_or(line.len())
}

// A line without the byte that ends it.
fn line_text(line: &[u8]) -> &[u8]
    ensures { result.now ≡ line_text line.now }
{
    let (text, _) = line.split_at(text_len(line));
    text
}

// Adds the piece that a line begins here, and returns where what follows it ends.
fn push_piece<'a>(
    file: Table,
    here: Counter,
    line: &'a [u8],
    following: &'a [u8],
    pieces: &mut Vec<Piece<'a>>,
) -> Result<Counter, NoMemory>
    requires { here.line + length line.now + length following.now ≤ 2 ^ 63 }
    ensures behind { IfOk result (λ behind. behind ≡ counted_all (counted_all here line.now) following.now) }
    ensures most { IfOk result (λ behind. behind.line ≤ here.line + length line.now + length following.now) }
    ensures pushed { OnOk result (pieces.new.items ≡ pieces.old.items ++ piece_from file here (counted_all here line.now) (Some (line_text line.now)) following.now ∷ []) }
{
    let below = here.behind(line);
    let head = Some(line_text(line));
    pieces.push(Piece::from(file, here, below, head, following))?;
    Ok(below.behind(following))
}

// Adds the pieces that lines begin, from here on.
fn push_pieces<'a>(
    file: Table,
    front: Counter,
    sections: &'a [u8],
    pieces: &mut Vec<Piece<'a>>,
) -> Result<(), NoMemory>
    requires section { IsAtSection sections.now }
    requires small { front.line + length sections.now ≤ 2 ^ 63 }
    ensures { OnOk result (pieces.new.items ≡ pieces.old.items ++ pieces_behind file front (sections_in sections.now).1) }
{
    let mut here = front;
    let mut rest = sections;
    while !rest.is_empty() {
        let (line, after) = rest.split_at(line_len(rest));
        let (text, next) = after.split_at(before_section(after));
        here = push_piece(file, here, line, text, pieces)?;
        rest = next;
    }
    Ok(())
}

// Adds the pieces of a file's text.
fn cut_file<'a>(file: Table, content: &'a [u8], pieces: &mut Vec<Piece<'a>>) -> Result<(), NoMemory>
    ensures { OnOk result (pieces.new.items ≡ pieces.old.items ++ pieces_in file content.now) }
{
    let front = Counter::new();
    let (text, sections) = content.split_at(before_section(content));
    pieces.push(Piece::from(file, front, front, None, text))?;
    if sections.is_empty() {
        return Ok(());
    }
    push_pieces(file, front.behind(text), sections, pieces)
}

// The pieces of files' texts, in order.
pub(crate) fn cut_files<'a>(
    alloc: Global,
    contents: &[(Table, &'a [u8])],
) -> Result<Vec<Piece<'a>>, NoMemory>
    ensures { IfOk result (λ pieces. pieces.items ≡ flat_map (λ content. pieces_in content.0 content.1.now) contents.now) }
{
    let mut pieces = Vec::new(alloc);
    for content in contents {
        let (file, text) = *content;
        cut_file(file, text, &mut pieces)?;
    }
    Ok(pieces)
}
