//! Numbers as decimal texts.

ghost use Rattle.std.specs.Prelude.{◌≡◌, IfOk, decimal, string_bytes, true};
ghost use Rattle.std.specs.Char.{is_ascii_digit};
ghost use Rattle.std.specs.List.{list_all};
ghost use Rattle.mrp_qty.specs.Digits.{number_of, value_up_to};

use crate::memory::NoMemory;
use itoa::Buffer;
use std::alloc::Global;
use thiserror::Error;

/// Why a text is not a number, in the order in which it is checked.
#[derive(Clone, Copy, Debug, PartialEq, Eq, Error)]
pub enum NumberFault {
    /// The text is empty.
    #[error("no digit")]
    Empty,
    /// A byte is not a digit.
    #[error("not digits alone")]
    NotDigits,
    /// The number is above the given maximum.
    #[error("too large")]
    TooLarge,
}

fn are_digits(text: &[u8]) -> bool
    ensures { result ≡ list_all is_ascii_digit text.now }
{
    text.iter().all(|byte| byte.is_ascii_digit())
}

// The number that digits stand for, up to `max`.
fn value_within(digits: &[u8], max: u64) -> Result<u64, NumberFault>
    requires { list_all is_ascii_digit digits.now ≡ true }
    ensures { result ≡ value_up_to max digits.now }
{
    let mut value: u64 = 0;
    for digit in digits {
        let more = u128::from(value) * 10 + u128::from(*digit - b'0');
        if more > u128::from(max) {
            return Err(NumberFault::TooLarge);
        }
        value = more as u64;
    }
    Ok(value)
}

/// The number that a text's decimal digits stand for, up to `max`; leading zeros are accepted.
///
/// Errors, in this order: `Empty` for an empty text, `NotDigits` if a byte is not a digit,
/// `TooLarge` if the number is above `max`.
pub fn read_number(text: &[u8], max: u64) -> Result<u64, NumberFault>
    ensures { result ≡ number_of max text.now }
{
    if text.is_empty() {
        return Err(NumberFault::Empty);
    }
    if !are_digits(text) {
        return Err(NumberFault::NotDigits);
    }
    value_within(text, max)
}

/// The decimal text of a number, without leading zeros.
///
/// Errors: `NoMemory` if the text cannot be allocated.
pub fn number_text(alloc: Global, number: u64) -> Result<String, NoMemory>
    ensures { IfOk result (λ text. string_bytes text ≡ decimal number) }
{
    let mut buffer = Buffer::new();
    let text = String::from_str(alloc, buffer.format(number))?;
    Ok(text)
}
