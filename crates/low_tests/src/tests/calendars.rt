//! Dates, and what is wrong with calendars.

use super::same;
use mrp_cal::{CalFault, read_date};

#[test]
fn faults_have_texts(rt: HostRuntime) {
    const TEXTS: &[(CalFault, &str)] = &[
        (CalFault::StartNotMonday, "the start is not a Monday"),
        (CalFault::Weeks, "the weeks are not 1 to 104"),
        (CalFault::NoWorkday, "no weekday is worked"),
    ];
    for (fault, want) in TEXTS {
        let text = format!(in rt.alloc(); "{fault}").expect(&rt, "memory");
        same(&rt, text.as_str(), *want);
    }
}

// A text, and the expected year, month and day.
const DATES: &[(&[u8], Option<(i16, i8, i8)>)] = &[
    (b"2024-02-29", Some((2024, 2, 29))),
    (b"2025-01-06", Some((2025, 1, 6))),
    (b"2025-06-01", Some((2025, 6, 1))),
    (b"1900-01-01", Some((1900, 1, 1))),
    (b"2999-12-31", Some((2999, 12, 31))),
    (b"2000-02-29", Some((2000, 2, 29))),
    // Days that the calendar does not have, and years outside those of a plan.
    (b"2025-02-29", None),
    (b"1900-02-29", None),
    (b"1899-12-31", None),
    (b"3000-01-01", None),
    (b"0000-01-01", None),
    (b"9999-12-31", None),
    (b"2025-00-06", None),
    (b"2025-13-01", None),
    (b"2025-01-00", None),
    (b"2025-01-32", None),
    (b"2025-04-31", None),
    (b"2025-99-99", None),
    // Other forms.
    (b"", None),
    (b"2025-1-06", None),
    (b"2025-01-6", None),
    (b"2025/01/06", None),
    (b"2025-01/06", None),
    (b"2025-01-06 ", None),
    (b" 2025-01-06", None),
    (b"2025-01-06\n", None),
    (b"20250106", None),
    (b"2025-0106-", None),
    (b"+025-01-06", None),
    (b"-025-01-06", None),
    (b"2025-+1-06", None),
    (b"2025-01- 6", None),
    (b"2o25-01-06", None),
    (b"06-01-2025", None),
    (b"2025-01-0\xD9", None),
    (b"\xEF\xBB\xBF2025-01-06", None),
];

#[test]
fn dates_are_days_of_the_calendar_in_one_form(rt: HostRuntime) {
    for (text, want) in DATES {
        let read = match read_date(text) {
            Some(date) => Some((date.year(), date.month(), date.day())),
            None => None,
        };
        same(&rt, (*text, read), (*text, *want));
    }
}
