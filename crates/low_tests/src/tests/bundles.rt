//! Bundles, split into their sections, and tables joined to bundles.

use super::same;
use mrp_rows::{Table, join_bundle, split_bundle};

// What follows a section line, and the section's text.
const FRONTS: &[(&str, &str)] = &[
    ("\nitem\n", "item\n"),
    ("\r\nitem\r\n", "item\r\n"),
    ("\n\n\r\nitem\n", "item\n"),
    ("\n\u{feff}item\n", "item\n"),
    ("\r\n\u{feff}item\r\n", "item\r\n"),
    ("\n\r\n\n\u{feff}item\n", "item\n"),
    ("\r\n\u{feff}\u{feff}item\n", "\u{feff}item\n"),
    ("\n\u{feff}\nitem\n", "\nitem\n"),
    ("\n \u{feff}item\n", " \u{feff}item\n"),
    ("\n\u{feff}[x]\n", "[x]\n"),
    ("\n\n\r", ""),
    ("\n", ""),
    ("", ""),
];

#[test]
fn line_ends_and_then_one_mark_go_from_a_section_text(rt: HostRuntime) {
    const BEFORE: &str =
        "[calendar]\n[items]\n[centres]\n[receipts]\n[bills]\n[routings]\n[master]\n[script]\n[stock]";
    for (following, want) in FRONTS {
        let bundle = [BEFORE, *following]
            .concat(rt.alloc())
            .expect(&rt, "memory");
        let sections = split_bundle(bundle.as_bytes()).expect(&rt, "sections");
        same(
            &rt,
            (*following, sections.text_of(Table::Stock)),
            (*following, want.as_bytes()),
        );
    }
}

#[test]
fn a_part_is_its_section_line_its_bytes_and_a_line_feed(rt: HostRuntime) {
    const PARTS: &[(Table, &[u8])] = &[
        (Table::Stock, b"item,onhand\nBIKE,10"),
        (Table::Items, b""),
        (Table::Script, b"\n"),
    ];
    const BUNDLE: &[u8] = b"[stock]\nitem,onhand\nBIKE,10\n[items]\n\n[script]\n\n\n";
    let bundle = join_bundle(rt.alloc(), PARTS).expect(&rt, "memory");
    same(&rt, bundle.as_slice(), BUNDLE);
    drop(bundle);
}
