//! Escaping texts for HTML.

ghost use Rattle.std.specs.Prelude.{◌≡◌, ◌++◌, List, ℕ, OnOk, Some};
ghost use Rattle.mrp_page.specs.Escaped.{escaped, escaped_byte, read_back};

use mrp_qty::NoMemory;
use std::alloc::AllocError;

// Adds a byte of a text.
fn put_escaped_byte(page: &mut Vec<u8>, byte: u8) -> Result<(), AllocError>
    ensures { OnOk result (page.new.items ≡ page.old.items ++ escaped_byte byte) }
{
    match byte {
        b'<' => page.extend_from_slice(b"&lt;"),
        b'>' => page.extend_from_slice(b"&gt;"),
        b'&' => page.extend_from_slice(b"&amp;"),
        b'"' => page.extend_from_slice(b"&quot;"),
        b'\'' => page.extend_from_slice(b"&#39;"),
        _ => page.extend_from_slice(&[byte]),
    }
}

/// Appends a text so that HTML shows it unchanged, between tags and in quoted attributes: `<`, `>`,
/// `&`, `"` and `'` are written as character references.
///
/// Errors: `NoMemory` if an allocation fails.
#[tactic(auto, unfolding(crate::specs::Escaped::escaped))]
pub fn put_escaped(page: &mut Vec<u8>, text: &[u8]) -> Result<(), NoMemory>
    ensures { OnOk result (page.new.items ≡ page.old.items ++ escaped text.now) }
{
    for byte in text {
        put_escaped_byte(page, *byte)?;
    }
    Ok(())
}

/// An escaped text reads back as the text. That it reads back at all means that none of the five
/// characters occurs in it except in a reference.
pub fn escaped_texts_read_back()
    ensures { (text : List ℕ) → read_back (escaped text) ≡ Some text }
{}
