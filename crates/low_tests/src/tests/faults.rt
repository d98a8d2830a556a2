//! Faults as texts.

use super::same;
use mrp_rows::{Fault, Table, fault_text};

const TEXTS: &[(u8, Table, u32, &str)] = &[
    (13, Table::Bills, 4, "13 unknown-item bills 4"),
    (1, Table::Bundle, 0, "1 text-before-section bundle 0"),
    (2, Table::Bundle, 10, "2 unknown-section bundle 10"),
    (3, Table::Stock, 0, "3 section-twice stock 0"),
    (4, Table::Calendar, 0, "4 missing-section calendar 0"),
    (5, Table::Stock, 0, "5 header stock 0"),
    (6, Table::Script, 1, "6 columns script 1"),
    (7, Table::Centres, 2, "7 name centres 2"),
    (8, Table::Script, 1, "8 number script 1"),
    (9, Table::Receipts, 3, "9 date receipts 3"),
    (10, Table::Items, 2, "10 word items 2"),
    (11, Table::Items, 2, "11 range items 2"),
    (12, Table::Routings, 7, "12 repeated routings 7"),
    (14, Table::Routings, 1, "14 unknown-centre routings 1"),
    (15, Table::Master, 2, "15 date-outside master 2"),
    (16, Table::Script, 9, "16 not-master script 9"),
    (17, Table::Items, 1, "17 master-safety items 1"),
    (18, Table::Receipts, 5, "18 master-receipt receipts 5"),
    (19, Table::Bills, 3, "19 master-component bills 3"),
    (20, Table::Items, 20_001, "20 too-many items 20001"),
    (21, Table::Items, 1, "21 loop items 1"),
    (
        22,
        Table::Master,
        4_294_967_295,
        "22 no-memory master 4294967295",
    ),
    (23, Table::Master, 5, "23 service-master master 5"),
    (24, Table::Items, 1, "24 fault items 1"),
    (0, Table::Items, 1, "0 fault items 1"),
];

#[test]
fn a_fault_is_code_name_table_and_row(rt: HostRuntime) {
    for (code, table, row, want) in TEXTS {
        let fault = Fault {
            code: *code,
            table: *table,
            row: *row,
        };
        let text = fault_text(rt.alloc(), &fault).expect(&rt, "memory");
        same(&rt, text.as_str(), *want);
    }
}
