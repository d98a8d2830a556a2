//! Putting bytes at a place of a text that has room for them.

ghost use Rattle.std.specs.Prelude.{◌≡◌, ◌+◌, ◌<◌, ◌≤◌, [], ◌∷◌, length, take};
ghost use Rattle.mrp_report.specs.page.Put.{IsPut};

use std::simd::Simd;

// The first bytes of a block of N. The block is one load and one store: the rest of it is
// overwritten too.
#[inline(always)]
pub(crate) fn put_front<const N: usize>(
    text: &mut [u8],
    at: usize,
    block: &[u8],
    len: usize,
) -> usize
    requires { (N ≤ length block.now) × (at + N ≤ length text.old) × (len ≤ N) }
    ensures { IsPut text.old text.new at (take len block.now) result }
{
    Simd::<u8, N>::from_slice(block).copy_to_slice(&mut text[at..]);
    at + len
}

#[inline(always)]
pub(crate) fn put_byte(text: &mut [u8], at: usize, byte: u8) -> usize
    requires { at < length text.old }
    ensures { IsPut text.old text.new at (byte ∷ []) result }
{
    text[at] = byte;
    at + 1
}

#[inline(always)]
pub(crate) fn put_all(text: &mut [u8], at: usize, bytes: &[u8]) -> usize
    requires { at + length bytes.now ≤ length text.old }
    ensures { IsPut text.old text.new at bytes.now result }
{
    let end = at + bytes.len();
    text[at..end].copy_from_slice(bytes);
    end
}
