//! Numbers and times.

use super::same;
use mrp_qty::{Milli, NumberFault, minutes_text, number_text, read_number};

// A text, the greatest number, and the expected result.
const NUMBERS: &[(&[u8], u64, Result<u64, NumberFault>)] = &[
    (b"007", 1_000_000_000, Ok(7)),
    (b"", 1_000_000_000, Err(NumberFault::Empty)),
    (b"+1", 1_000_000_000, Err(NumberFault::NotDigits)),
    (b"1.0", 1_000_000_000, Err(NumberFault::NotDigits)),
    (b" 1", 1_000_000_000, Err(NumberFault::NotDigits)),
    (b"1000000000", 1_000_000_000, Ok(1_000_000_000)),
    (b"1000000001", 1_000_000_000, Err(NumberFault::TooLarge)),
    (
        b"99999999999999999999999x",
        1_000_000_000,
        Err(NumberFault::NotDigits),
    ),
    (b"18446744073709551615", u64::MAX, Ok(u64::MAX)),
    (
        b"18446744073709551616",
        u64::MAX,
        Err(NumberFault::TooLarge),
    ),
    (b"000000000000000000000000000000000000007", 7, Ok(7)),
];

#[test]
fn numbers_are_digits_up_to_the_greatest(rt: HostRuntime) {
    for (text, most, want) in NUMBERS {
        same(&rt, (*text, read_number(text, *most)), (*text, *want));
    }
}

#[test]
fn a_number_is_written_in_decimal(rt: HostRuntime) {
    for (number, want) in [(7, "7"), (0, "0"), (u64::MAX, "18446744073709551615")] {
        let text = number_text(rt.alloc(), number).expect(&rt, "memory");
        same(&rt, text.as_str(), want);
    }
}

// Times in thousandths of a minute, and their texts.
const TIMES: &[(u128, &str)] = &[
    (0, "0.000"),
    (5, "0.005"),
    (87_500, "87.500"),
    (175_000, "175.000"),
    (1_234_567, "1234.567"),
    (18_446_744_073_709_551_616, "18446744073709551.616"),
    (
        100_000_000_000_000_000_000_123_456,
        "100000000000000000000123.456",
    ),
    (u128::MAX, "340282366920938463463374607431768211.455"),
];

#[test]
fn a_time_is_written_in_minutes_with_three_decimals(rt: HostRuntime) {
    for (thousandths, want) in TIMES {
        let text = minutes_text(rt.alloc(), Milli::new(*thousandths)).expect(&rt, "memory");
        same(&rt, text.as_str(), *want);
    }
}

#[test]
fn times_are_compared(rt: HostRuntime) {
    assert!(rt; Milli::new(999) < Milli::new(1000));
}
