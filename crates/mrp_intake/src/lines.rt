//! Lines of a text.

ghost use Rattle.std.specs.Prelude.{◌≡◌, ◌<◌, ◌∷◌, ◌++◌, length};
ghost use Rattle.mrp_intake.specs.Lines.{lines_of};

use memchr::memchr;

/// The longest line that is read, with its line feed, in bytes.
pub const LONGEST_LINE: usize = 4_096;

/// The first line of a text that is not empty, up to its line feed, with it; and the text behind it.
pub fn first_line(text: &[u8]) -> (&[u8], &[u8])
    requires { 0 < length text.now }
    ensures lines { lines_of text.now ≡ result.0.now ∷ lines_of result.1.now }
    ensures parts { text.now ≡ result.0.now ++ result.1.now }
    ensures some { 0 < length result.0.now }
{
    match memchr(b'\n', text) {
        Some(at) => text.split_at(at + 1),
        None => text.split_at(text.len()),
    }
}
