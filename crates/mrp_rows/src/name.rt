//! Names of items, centres and orders.

ghost use Rattle.std.specs.Prelude.{◌≡◌, ◌≤◌, ◌∷◌, [], nat_eq, length, true};
ghost use Rattle.std.specs.List.{list_all, prefix_len};
ghost use Rattle.std.specs.Cmp.Lexicographic.{pointwise, nat_list_eq_equiv};
ghost use Rattle.std.specs.Cmp.{partial_equiv_from_equiv};
ghost use Rattle.std.specs.Cmp.Rules.{hashing};
ghost use Rattle.std.proofs.Common.{rules};
ghost use Rattle.mrp_rows.specs.Name.{has_name_ends, is_name, is_printable, name_in};
ghost use Rattle.mrp_rows.specs.Padding.{padded};

use crate::masks::first_set;
use std::fmt;
use std::hash::{Hash, Hasher};
use std::marker::Model;
use std::simd::prelude::*;

/// The most bytes that a name has (profile).
pub const LONGEST_NAME: usize = 32;

/// A name: 1 to `LONGEST_NAME` bytes of printable ASCII, with no space at either end, that do not begin with
/// `[` (profile). Names are compared byte for byte.
#[derive(Clone, Copy)]
pub struct Name {
    bytes: [u8; LONGEST_NAME],
    len: u8,
}

impl Model for Name {
    ghost use Rattle.std.specs.Prelude.{◌≡◌, ℕ, List, length, take, true};
    ghost use Rattle.mrp_rows.specs.Name.{is_name};
    ghost use Rattle.mrp_rows.specs.Padding.{IsPadded, padded, padded-take, length-take};

    ghost Value = { List ℕ };

    ghost view = { λ n. take n.len n.bytes };

    ghost invariant = { λ n. record {
      padding : IsPadded n.len n.bytes;
      name : is_name (take n.len n.bytes) ≡ true;
    } };

    ghost inverse = { λ text. record { bytes = padded text; len = length text } };

    ghost inverse_ok = { λ n h i. record {
      bytes = padded-take n.len n.bytes h.padding i;
      len = length-take n.len n.bytes h.padding i;
    } };
}

impl PartialEq for Name {
    ghost eq = { pointwise nat_eq };

    ghost laws = { partial_equiv_from_equiv nat_list_eq_equiv };

    fn eq(&self, other: &Name) -> bool {
        self.as_bytes() == other.as_bytes()
    }
}

impl Eq for Name {
    ghost laws = { nat_list_eq_equiv };
}

impl Hash for Name {
    ghost hash_input = { λ name. padded name ∷ [] };

    ghost respects_eq = { Prim.search (hashing, rules) };

    fn hash<H: Hasher>(&self, state: &mut H) {
        state.write(&self.bytes);
    }
}

impl fmt::Debug for Name {
    fn fmt<W: fmt::Write>(&self, f: &mut fmt::Formatter<W>) -> fmt::Result {
        f.write_str("Name(")?;
        for byte in self.as_bytes() {
            f.write_char(char::from(*byte))?;
        }
        f.write_str(")")
    }
}

impl Name {
    /// A text as a name; `None` if it is not one.
    pub fn new(text: &[u8]) -> Option<Name>
        ensures { result ≡ name_in text.now }
    {
        if text.len() > LONGEST_NAME {
            return None;
        }
        let bytes = padded(text);
        if !is_name_text(text, &bytes) {
            return None;
        }
        Some(Name {
            bytes,
            len: text.len() as u8,
        })
    }

    /// The name's text.
    pub fn as_bytes(&self) -> &[u8]
        ensures text { result.now ≡ self.now }
        ensures name { is_name result.now ≡ true }
    {
        let (text, _) = self.bytes.split_at(usize::from(self.len));
        text
    }
}

// A text with zeros up to the length of the longest name.
fn padded(text: &[u8]) -> [u8; LONGEST_NAME]
    requires { length text.now ≤ LONGEST_NAME }
    ensures { result ≡ padded text.now }
{
    let mut bytes = [0; LONGEST_NAME];
    bytes[..text.len()].copy_from_slice(text);
    bytes
}

// Whether a text is a name. The block has zeros behind it.
fn is_name_text(text: &[u8], block: &[u8; LONGEST_NAME]) -> bool
    requires short { length text.now ≤ LONGEST_NAME }
    requires padded { block.now ≡ padded text.now }
    ensures { result ≡ is_name text.now }
{
    !text.is_empty()
        && is_printable_text(text, block)
        && has_good_ends(text[0], text[text.len() - 1])
}

fn is_printable_text(text: &[u8], block: &[u8; LONGEST_NAME]) -> bool
    requires { block.now ≡ padded text.now }
    ensures { result ≡ list_all is_printable text.now }
{
    printable_front(block) == text.len()
}

// How many bytes of a block stand in front of the first that is not printable. It is not inlined: a block that becomes a name's would be
// loaded byte by byte.
#[inline(never)]
fn printable_front(block: &[u8; LONGEST_NAME]) -> usize
    ensures { result ≡ prefix_len is_printable block.now }
{
    let bytes = u8x32::from_array(*block);
    let others = bytes.simd_lt(u8x32::splat(b' ')) | bytes.simd_gt(u8x32::splat(b'~'));
    first_set(others.to_bitmask(), LONGEST_NAME)
}

fn has_good_ends(first: u8, last: u8) -> bool
    ensures { result ≡ has_name_ends first last }
{
    first != b' ' && last != b' ' && first != b'['
}
