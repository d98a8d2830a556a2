//! Counts of commas.

ghost use Rattle.std.specs.Prelude.{◌≡◌, ◌%◌, ◌+◌, ◌^◌, ◌≤◌, count_by, drop, length, take};
ghost use Rattle.mrp_lines.specs.Lines.{is_comma};

use std::simd::prelude::*;

// How many bytes are compared at once.
const BLOCK: usize = 32;

// The lowest bits of a mask.
fn bits_below(mask: u64, count: usize) -> u64
    requires { count ≤ BLOCK }
    ensures { result ≡ mask % 2 ^ count }
{
    mask % (1 << count)
}

// How many of the first bytes of a block are commas. The block begins at a place of a text.
fn count_in_block(text: &[u8], place: usize, len: usize) -> usize
    requires block { place + BLOCK ≤ length text.now }
    requires within { len ≤ BLOCK }
    ensures { result ≡ count_by is_comma (take len (drop place text.now)) }
{
    let block = u8x32::from_slice(&text[place..]);
    let mask = block.simd_eq(u8x32::splat(b',')).to_bitmask();
    bits_below(mask, len).count_ones() as usize
}

// How many of these bytes are commas.
fn count_each(bytes: &[u8]) -> usize
    ensures { result ≡ count_by is_comma bytes.now }
{
    bytes.iter().filter(|byte| **byte == b',').count()
}

// How many of the first bytes of a text are commas. Blocks may reach past these bytes, so few are
// left to be compared one by one.
pub(crate) fn count_commas(text: &[u8], len: usize) -> usize
    requires { len ≤ length text.now }
    ensures { result ≡ count_by is_comma (take len text.now) }
{
    let mut count = 0;
    let mut place = 0;
    while place < len && BLOCK <= text.len() - place {
        let step = (len - place).min(BLOCK);
        count += count_in_block(text, place, step);
        place += step;
    }
    count + count_each(&text[place..len])
}
