//! The numbers that texts stand for.

ghost use Rattle.std.specs.Prelude.{◌≡◌, ◌≤◌};
ghost use Rattle.std.specs.List.{fold};
ghost use Rattle.mrp_page.specs.Amounts.{amount, with_digit};

use crate::limits::MOST_AMOUNT;

// A number with the digit that a byte is, if it is one.
fn with_digit(number: u64, byte: u8) -> u64
    requires { number ≤ MOST_AMOUNT }
    ensures value { result ≡ with_digit number byte }
    ensures most { result ≤ MOST_AMOUNT }
{
    if byte.is_ascii_digit() {
        (number * 10 + u64::from(byte - b'0')).min(MOST_AMOUNT)
    } else {
        number
    }
}

// The number that is read byte by byte.
#[tactic(auto, using(crate::proofs::RowLists::fold_next, crate::proofs::RowLists::fold_end))]
fn read_digits(text: &[u8]) -> u64
    ensures value { result ≡ fold with_digit 0 text.now }
    ensures most { result ≤ MOST_AMOUNT }
{
    let mut number = 0;
    for byte in text {
        number = with_digit(number, *byte);
    }
    number
}

// The number that the digits of a text stand for; minutes with three decimals stand for their
// thousandths.
pub(crate) fn amount(text: &[u8]) -> u64
    ensures value { result ≡ amount text.now }
    ensures most { result ≤ MOST_AMOUNT }
{
    read_digits(text)
}
