//! Records without quotes that stand in one line: their cells are found by masks and copied at once.

ghost use Rattle.std.specs.Prelude.{◌≡◌, ◌+◌, ◌<◌, ◌≤◌, [], IfOk, IfSome, drop, length, take};
ghost use Rattle.std.specs.List.{position_or_len};
ghost use Rattle.mrp_rows.specs.PlainLines.{AreCells, AreCopied, AreFound, IsStop, stops};

use crate::masks::first_set;
use mrp_qty::NoMemory;
use std::simd::prelude::*;

// How many bytes are compared at once. Most cells are shorter.
const BLOCK: usize = 16;

// How many bytes of a block stand in front of the first that ends a cell or is a quote. The block begins at a place of a text.
fn front_in_block(text: &[u8], place: usize) -> usize
    requires { place + BLOCK ≤ length text.now }
    ensures { result ≡ position_or_len stops (take BLOCK (drop place text.now)) }
{
    let bytes = u8x16::from_slice(&text[place..]);
    let stops = bytes.simd_eq(u8x16::splat(b','))
        | bytes.simd_eq(u8x16::splat(b'\n'))
        | bytes.simd_eq(u8x16::splat(b'\r'))
        | bytes.simd_eq(u8x16::splat(b'"'));
    first_set(stops.to_bitmask(), BLOCK)
}

// The place of the first byte from a place on that ends a cell or is a quote, unless it stands among the last bytes of the text.
fn next_stop(text: &[u8], from: usize) -> Option<usize>
    requires { from ≤ length text.now }
    ensures { IfSome result (IsStop text.now from) }
{
    let mut at = from;
    while BLOCK <= text.len() - at {
        let front = front_in_block(text, at);
        if front < BLOCK {
            return Some(at + front);
        }
        at += BLOCK;
    }
    None
}

// Finds the cells of the line that a text begins with, and returns its length with the byte that ends it. `None` where it has a
// quote or more cells, or may be the last.
fn find_cells(
    text: &[u8],
    most: usize,
    places: &mut Vec<(usize, usize)>,
) -> Result<Option<usize>, NoMemory>
    requires { places.old.items ≡ [] }
    ensures { IfOk result (λ found. IfSome found (AreCells text.now most places.new.items)) }
{
    let mut start = 0;
    while places.len() < most {
        let Some(end) = next_stop(text, start) else {
            return Ok(None);
        };
        let byte = text[end];
        if byte == b'"' {
            return Ok(None);
        }
        places.push((start, end))?;
        start = end + 1;
        if byte != b',' {
            return Ok(Some(start));
        }
    }
    Ok(None)
}

// The same, and no cells where it returns no length.
fn find_all_cells(
    text: &[u8],
    most: usize,
    places: &mut Vec<(usize, usize)>,
) -> Result<Option<usize>, NoMemory>
    requires { places.old.items ≡ [] }
    ensures { AreFound text.now most places.new.items result }
{
    match find_cells(text, most, places) {
        Ok(Some(len)) => Ok(Some(len)),
        Ok(None) => {
            places.clear();
            Ok(None)
        }
        Err(refused) => {
            places.clear();
            Err(refused)
        }
    }
}

/// Copies the line that a text begins with, and finds its cells; returns its length with the byte that ends it. `None` where it has
/// a quote or more cells, or may be the last.
///
/// Errors: `NoMemory` if an allocation fails.
pub(crate) fn copy_line(
    text: &[u8],
    most: usize,
    bytes: &mut Vec<u8>,
    places: &mut Vec<(usize, usize)>,
) -> Result<Option<usize>, NoMemory>
    requires bytes { bytes.old.items ≡ [] }
    requires places { places.old.items ≡ [] }
    ensures { AreCopied text.now most bytes.new.items places.new.items result }
{
    let Some(len) = find_all_cells(text, most, places)? else {
        return Ok(None);
    };
    if bytes.extend_from_slice(&text[..len]).is_err() {
        places.clear();
        return Err(NoMemory);
    }
    Ok(Some(len))
}
