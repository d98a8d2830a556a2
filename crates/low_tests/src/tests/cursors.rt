//! Names, and records of a table, in order.

use super::same;
use mrp_rows::{Cursor, Fault, Name, Row, Table, faults, split_bundle};
use std::alloc::Global;
use std::process::Abort;

// The next record, which must exist.
fn next_row(rt: &impl Abort, cursor: &mut Cursor<'_>) -> Row {
    let next = cursor.next().expect(rt, "no fault");
    next.expect(rt, "a record")
}

// Fails unless a record has this number and these cells.
fn is_row(rt: &impl Abort, row: &Row, number: usize, cells: &[&[u8]]) {
    same(rt, row.record() as usize, number);
    assert!(rt; row.cell_count() == cells.len());
    for column in 0..cells.len() {
        same(rt, row.cell(column), cells[column]);
    }
}

// How the records end.
fn end_of(rt: &impl Abort, cursor: &mut Cursor<'_>) -> Option<Fault> {
    match cursor.next() {
        Ok(None) => None,
        Ok(Some(_)) => panic!(rt; "another record"),
        Err(fault) => Some(fault),
    }
}

// Fails unless these records come, and then this end, for good.
fn come(rt: &impl Abort, cursor: &mut Cursor<'_>, records: &[&[&[u8]]], end: Option<Fault>) {
    for place in 0..records.len() {
        let row = next_row(rt, cursor);
        is_row(rt, &row, place + 1, records[place]);
        cursor.reuse(row);
    }
    same(rt, end_of(rt, cursor), end);
    same(rt, end_of(rt, cursor), None);
}

// Fails unless a stock of this text has these records, and then this end.
fn has_records(
    rt: &impl Abort,
    alloc: Global,
    text: &[u8],
    records: &[&[&[u8]]],
    end: Option<Fault>,
) {
    const BEFORE: &[u8] =
        b"[calendar]\n[items]\n[centres]\n[receipts]\n[bills]\n[routings]\n[master]\n[script]\n[stock]\nitem,onhand\n";
    let bundle = [BEFORE, text].concat(alloc).expect(rt, "memory");
    let sections = split_bundle(&bundle).expect(rt, "sections");
    let mut cursor = Cursor::new(alloc, &sections, Table::Stock).expect(rt, "a header");
    come(rt, &mut cursor, records, end);
    drop(cursor);
    drop(bundle);
}

// The text after a header, its records, and the number of one with a wrong count of cells, or 0.
const RECORDS: &[(&[u8], &[&[&[u8]]], u32)] = &[
    (
        b"\r\nBIKE,10\r\nFRAME,12\r\n",
        &[&[b"BIKE", b"10"], &[b"FRAME", b"12"]],
        0,
    ),
    (
        b"\n\nBIKE,10\n\r\n\r\rFRAME,12",
        &[&[b"BIKE", b"10"], &[b"FRAME", b"12"]],
        0,
    ),
    (b"\"A,B\",10\n", &[&[b"A,B", b"10"]], 0),
    (b"\"a\"\"b\",10\n", &[&[b"a\"b", b"10"]], 0),
    (b"\"one\ntwo\",\"\"\n", &[&[b"one\ntwo", b""]], 0),
    (b"BIKE,\"10\n", &[&[b"BIKE", b"10\n"]], 0),
    (b",\n \xFF,\x00\n", &[&[b"", b""], &[b" \xFF", b"\x00"]], 0),
    (b"\"\"\n", &[], 1),
    (b"   \n", &[], 1),
    (b"BIKE,1,\n", &[], 1),
    (b"BIKE,1\n\n\nFRAME\nWHEEL,1\n", &[&[b"BIKE", b"1"]], 2),
    (b"\"BIKE,1\nFRAME,1\n", &[], 1),
];

#[test]
fn records_are_numbered_and_cells_are_unquoted(rt: HostRuntime) {
    for (text, records, wrong) in RECORDS {
        let fault = Fault {
            code: faults::COLUMNS,
            table: Table::Stock,
            row: *wrong,
        };
        let end = if *wrong > 0 { Some(fault) } else { None };
        has_records(&rt, rt.alloc(), text, records, end);
    }
}

#[test]
fn names_are_compared_and_shown_by_their_text(rt: HostRuntime) {
    let bike = Name::new(b"BIKE").expect(&rt, "a name");
    same(&rt, Name::new(b"bike") == Some(bike), false);
    let shown = format!(in rt.alloc(); "{bike:?}").expect(&rt, "memory");
    same(&rt, shown.as_str(), "Name(BIKE)");
    drop(shown);
}
