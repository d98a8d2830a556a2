//! Texts as lines show them.

ghost use Rattle.std.specs.Prelude.{◌≡◌, ◌++◌, ◌∷◌, ◌<◌, [], IfOk, OnOk, encode_utf8, string_bytes, true};
ghost use Rattle.std.specs.Char.{digit_char};
ghost use Rattle.mrp_advice.specs.Shown.{are_letter, behind_sign, byte_sign, escape, first_sign, hex, is_printable, shown, signs};

use mrp_qty::NoMemory;
use std::alloc::{AllocError, Global};

/// The most signs of a text that are shown.
pub const MOST_SIGNS: usize = 40;

pub(crate) fn is_printable(byte: u8) -> bool
    ensures { result ≡ is_printable byte }
{
    byte >= b' ' && byte <= b'~'
}

// Whether two bytes are one letter: those of most alphabets of Europe.
fn are_letter(first: u8, second: u8) -> bool
    ensures { result ≡ are_letter first second }
{
    first >= 0xC3 && first <= 0xD4 && second >= 0x80 && second <= 0xBF
}

// The letter of two such bytes.
fn letter(first: u8, second: u8) -> char
    requires { are_letter first second ≡ true }
    ensures { encode_utf8 result ≡ first ∷ second ∷ [] }
{
    let code = u32::from(first - 0xC0) * 64 + u32::from(second - 0x80);
    match char::from_u32(code) {
        Some(letter) => letter,
        None => unreachable!(),
    }
}

// The digit of a number below 16.
fn hex_digit(number: u8) -> char
    requires { number < 16 }
    ensures digit { result ≡ digit_char number }
    ensures ascii { result < 128 }
{
    if number < 10 {
        char::from(b'0' + number)
    } else {
        char::from(b'a' + (number - 10))
    }
}

fn push_hex(byte: u8, text: &mut String) -> Result<(), AllocError>
    ensures { OnOk result (string_bytes text.new ≡ string_bytes text.old ++ hex byte) }
{
    text.push_str("\\x")?;
    text.push(hex_digit(byte / 16))?;
    text.push(hex_digit(byte % 16))
}

fn push_escape(byte: u8, text: &mut String) -> Result<(), AllocError>
    ensures { OnOk result (string_bytes text.new ≡ string_bytes text.old ++ escape byte) }
{
    match byte {
        b'\t' => text.push_str("\\t"),
        b'\n' => text.push_str("\\n"),
        b'\r' => text.push_str("\\r"),
        _ => push_hex(byte, text),
    }
}

fn push_byte(byte: u8, text: &mut String) -> Result<(), AllocError>
    ensures { OnOk result (string_bytes text.new ≡ string_bytes text.old ++ byte_sign byte) }
{
    if is_printable(byte) {
        text.push(char::from(byte))
    } else {
        push_escape(byte, text)
    }
}

// Adds the first sign of a text, and returns what stands behind it.
fn push_sign<'a>(first: u8, others: &'a [u8], text: &mut String) -> Result<&'a [u8], AllocError>
    ensures behind { IfOk result (λ rest. rest.now ≡ behind_sign first others.now) }
    ensures sign { OnOk result (string_bytes text.new ≡ string_bytes text.old ++ first_sign first others.now) }
{
    match others {
        [second, rest @ ..] if are_letter(first, *second) => {
            text.push(letter(first, *second))?;
            Ok(rest)
        }
        _ => {
            push_byte(first, text)?;
            Ok(others)
        }
    }
}

fn push_signs(bytes: &[u8], text: &mut String) -> Result<(), AllocError>
    ensures { OnOk result (string_bytes text.new ≡ string_bytes text.old ++ signs MOST_SIGNS bytes.now) }
{
    let mut rest = bytes;
    let mut left = MOST_SIGNS;
    while let [first, others @ ..] = rest {
        if left == 0 {
            return text.push_str("..");
        }
        rest = push_sign(*first, others, text)?;
        left -= 1;
    }
    Ok(())
}

// Adds a text as it is shown.
pub(crate) fn push_shown(bytes: &[u8], text: &mut String) -> Result<(), AllocError>
    ensures { OnOk result (string_bytes text.new ≡ string_bytes text.old ++ shown bytes.now) }
{
    text.push_str("'")?;
    push_signs(bytes, text)?;
    text.push_str("'")
}

/// A text as lines show it, in single quotes: printable ASCII, and letters of two bytes, 0xC3 to 0xD4 and 0x80
/// to 0xBF, as they are; a tab and line ends as `\t`, `\n` and `\r`; any other byte as `\x1b`. Behind 40 such signs `..` stands for
/// the rest.
///
/// Errors: `NoMemory` if an allocation fails.
pub fn shown(alloc: Global, bytes: &[u8]) -> Result<String, NoMemory>
    ensures { IfOk result (λ text. string_bytes text ≡ shown bytes.now) }
{
    let mut text = String::new(alloc);
    push_shown(bytes, &mut text)?;
    Ok(text)
}
