//! The records of any text, and a text's only record.

use super::same;
use mrp_rows::{Record, Records, Table, only_row};
use std::process::Abort;

// A byte order mark, a header, an empty line, quotes, and records of one cell and of five.
const TEXT: &[u8] = b"\xEF\xBB\xBFitem,onhand\r\n\r\n\"a\"\"b\",2,,\"\"\nc\n,,x,,\n";

// Of each record the count of its cells, the first two, and whether the others are empty.
const KEPT: &[(usize, &[u8], &[u8], bool)] = &[
    (2, b"item", b"onhand", true),
    (4, b"a\"b", b"2", true),
    (1, b"c", b"", true),
    (5, b"", b"", false),
];

// Fails unless a record has these, and keeps no third cell.
fn is_kept(rt: &impl Abort, record: &Record, want: (usize, &[u8], &[u8], bool)) {
    let others = record.are_others_empty();
    let got = (record.count(), record.cell(0), record.cell(1), others);
    same(rt, (got, record.cell(2)), (want, b"".as_slice()));
}

#[test]
fn records_have_their_first_cells(rt: HostRuntime) {
    let mut records = Records::of(TEXT);
    let mut row = Record::new(rt.alloc());
    for want in KEPT {
        same(&rt, records.next(2, &mut row), Ok(true));
        let copy = row.clone().expect(&rt, "memory");
        is_kept(&rt, &copy, *want);
        drop(copy);
    }
    same(&rt, records.next(2, &mut row), Ok(false));
    drop((records, row));
}

#[test]
fn a_line_is_a_row_of_the_script(rt: HostRuntime) {
    const TEXTS: &[(&[u8], bool)] = &[
        (b"1,run,,,,", true),
        (b"1,run,,,,\n", true),
        (b"\xEF\xBB\xBF\n1,run,,,,\r\n\r\n", true),
        (b"\"1\n\",run,,,,", true),
        (b"", false),
        (b"\n", false),
        (b"1,run,,,", false),
        (b"1,run,,,,,", false),
        (b"1,run,,,,\n2,run,,,,\n", false),
    ];
    for (text, is_row) in TEXTS {
        let row = only_row(rt.alloc(), text, Table::Script, 7, None).expect(&rt, "memory");
        same(&rt, row.is_some(), *is_row);
        drop(row);
    }
}
