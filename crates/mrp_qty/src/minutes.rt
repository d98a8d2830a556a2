//! Standard times.

ghost use Rattle.std.specs.Prelude.{◌≡◌, ◌∷◌, ◌+◌, ◌<◌, [], IfOk, string_bytes};
ghost use Rattle.mrp_qty.specs.Minutes.{digit_of, minutes_text_of};

use crate::memory::NoMemory;
use itoa::Buffer;
use std::alloc::Global;
use std::marker::Model;

// A point and three decimals.
const DECIMALS: usize = 4;

/// A standard time in whole thousandths of a minute (profile).
#[derive(Clone, Copy, Debug, PartialEq, Eq, PartialOrd, Ord)]
pub struct Milli {
    thousandths: u128,
}

impl Model for Milli {
    ghost use Rattle.std.specs.Prelude.{ℕ};

    ghost Value = { ℕ };

    ghost view = { λ m. m.thousandths };

    ghost inverse = { λ n. record { thousandths = n } };
}

impl Milli {
    /// A number of thousandths of a minute as a time.
    pub fn new(thousandths: u128) -> Milli
        ensures { result ≡ thousandths }
    {
        Milli { thousandths }
    }

    /// The number of thousandths of a minute.
    pub fn value(self) -> u128
        ensures { result ≡ self }
    {
        self.thousandths
    }
}

// The digit of a number below ten.
fn digit(number: u128) -> char
    requires { number < 10 }
    ensures { result ≡ digit_of number }
{
    char::from(b'0' + number as u8)
}

/// The text of a time in minutes: the whole minutes in decimal, a point, and three decimals.
///
/// Errors: `NoMemory` if the text cannot be allocated.
pub fn minutes_text(alloc: Global, time: Milli) -> Result<String, NoMemory>
    ensures { IfOk result (λ text. string_bytes text ≡ minutes_text_of time) }
{
    let thousandths = time.value();
    let mut buffer = Buffer::new();
    let minutes = buffer.format(thousandths / 1000);
    let mut text = String::with_capacity(alloc, minutes.len() + DECIMALS)?;
    text.push_str(minutes)?;
    text.push('.')?;
    text.push(digit(thousandths / 100 % 10))?;
    text.push(digit(thousandths / 10 % 10))?;
    text.push(digit(thousandths % 10))?;
    Ok(text)
}
