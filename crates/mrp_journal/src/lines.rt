//! The whole lines of a text.

ghost use Rattle.std.specs.Prelude.{◌≡◌};
ghost use Rattle.mrp_journal.specs.Lines.{whole_lines};

use memchr::memrchr2;

/// A text up to its last line feed or carriage return. What stands behind it is half a line.
pub fn whole_lines(text: &[u8]) -> &[u8]
    ensures { result.now ≡ whole_lines text.now }
{
    match memrchr2(b'\n', b'\r', text) {
        Some(at) => &text[..at + 1],
        None => &text[..0],
    }
}
