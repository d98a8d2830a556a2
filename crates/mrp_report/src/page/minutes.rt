//! Times as texts, made without allocating.

ghost use Rattle.std.specs.Prelude.{◌≡◌, ◌<◌, ◌≤◌, ◌∷◌, [], ◌/◌, ◌%◌, length};
ghost use Rattle.mrp_qty.specs.Minutes.{digit_of, minutes_text_of};

use itoa::Buffer;
use mrp_qty::Milli;

// The bytes of a point and three decimals.
const DECIMALS: usize = 4;

// The most bytes of a time: of its whole minutes and its decimals.
const LONGEST: usize = 44;

// The digit of a number below ten.
fn digit(number: u128) -> u8
    requires { number < 10 }
    ensures { result ≡ digit_of number }
{
    b'0' + number as u8
}

// The point after the whole minutes, and the three decimals of a time.
fn decimals(thousandths: u128) -> [u8; DECIMALS]
    ensures { result ≡ 46 ∷ digit_of (thousandths / 100 % 10) ∷ digit_of (thousandths / 10 % 10) ∷ digit_of (thousandths % 10) ∷ [] }
{
    [
        b'.',
        digit(thousandths / 100 % 10),
        digit(thousandths / 10 % 10),
        digit(thousandths % 10),
    ]
}

/// Room for a time's text.
#[derive(Drop)]
pub(crate) struct TimeBuffer {
    bytes: [u8; LONGEST],
}

impl TimeBuffer {
    pub(crate) fn new() -> TimeBuffer {
        TimeBuffer {
            bytes: [0; LONGEST],
        }
    }

    /// A time in minutes with three decimals, as `minutes_text` writes it.
    pub(crate) fn format(&mut self, time: Milli) -> &[u8]
        ensures text { result.now ≡ minutes_text_of time }
        ensures short { length result.now ≤ 44 }
    {
        let thousandths = time.value();
        let mut whole = Buffer::new();
        let minutes = whole.format(thousandths / 1000).as_bytes();
        let end = minutes.len() + DECIMALS;
        let (text, _) = self.bytes.split_at_mut(end);
        let (front, back) = text.split_at_mut(minutes.len());
        front.copy_from_slice(minutes);
        back.copy_from_slice(&decimals(thousandths));
        text
    }
}
