//! Which cells are written between quotes, and how.

ghost use Rattle.std.specs.Prelude.{◌≡◌, ◌+◌, ◌*◌, ◌≤◌, [], ◌∷◌, length};
ghost use Rattle.csv.specs.Writing.{default_writer, escaped, needs_byte, needs_quotes, quoted};
ghost use Rattle.mrp_report.specs.page.Put.{IsPut};

use crate::page::put::put_byte;

fn calls_for_quotes(byte: u8) -> bool
    ensures { result ≡ needs_byte default_writer byte }
{
    byte == b',' || byte == b'"' || byte == b'\r' || byte == b'\n'
}

/// Whether csv writes a cell with this text between quotes: if it contains a comma, a quote, or a byte that
/// ends a line.
pub fn is_quoted_text(text: &[u8]) -> bool
    ensures { result ≡ needs_quotes default_writer text.now }
{
    text.iter().any(|byte| calls_for_quotes(*byte))
}

// Puts a byte that stands between quotes.
fn put_escaped(text: &mut [u8], at: usize, byte: u8) -> usize
    requires { at + 2 ≤ length text.old }
    ensures put { IsPut text.old text.new at (escaped default_writer (byte ∷ [])) result }
    ensures near { result ≤ at + 2 }
{
    if byte == b'"' {
        let next = put_byte(text, at, byte);
        put_byte(text, next, byte)
    } else {
        put_byte(text, at, byte)
    }
}

// Puts a text between quotes.
#[inline(never)]
pub(crate) fn put_quoted(text: &mut [u8], at: usize, bytes: &[u8]) -> usize
    requires { at + (2 + 2 * length bytes.now) ≤ length text.old }
    ensures put { IsPut text.old text.new at (quoted default_writer bytes.now) result }
    ensures near { result ≤ at + (2 + 2 * length bytes.now) }
{
    let mut end = put_byte(text, at, b'"');
    for byte in bytes {
        end = put_escaped(text, end, *byte);
    }
    put_byte(text, end, b'"')
}
