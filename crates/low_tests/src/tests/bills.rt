//! Bills of material: parents, components, low-level codes and loops.

use super::{made, same};
use mrp_bill::{Bill, BillFault, Shop};
use mrp_tables::Tables;
use sample_shops::{Records, no_records};
use std::alloc::Global;
use std::process::Abort;

// A line: the places of the parent and of the component.
type Line = (usize, usize);

// The records of a number of items.
fn items(rt: &impl Abort, alloc: Global, count: usize) -> String {
    let mut items = String::new(alloc);
    for item in 0..count {
        let record = format!(in alloc; "P{item},part,0,0,lfl,0,0\n").expect(rt, "memory");
        items.push_str(&record).expect(rt, "memory");
    }
    items
}

// The records of these lines.
fn bills(rt: &impl Abort, alloc: Global, lines: &[Line]) -> String {
    let mut bills = String::new(alloc);
    for (parent, component) in lines {
        let record = format!(in alloc; "P{parent},P{component},1\n").expect(rt, "memory");
        bills.push_str(&record).expect(rt, "memory");
    }
    bills
}

// The tables of a number of items with these lines.
fn tables_of(rt: &impl Abort, alloc: Global, count: usize, lines: &[Line]) -> Tables {
    let items = items(rt, alloc, count);
    let bills = bills(rt, alloc, lines);
    let shop = Records {
        items: &items,
        bills: &bills,
        ..no_records()
    };
    let tables = shop.tables(alloc);
    drop((items, bills));
    made(rt, tables)
}

// The shop of a number of items with these lines, which must be accepted.
fn accepted(rt: &impl Abort, alloc: Global, count: usize, lines: &[Line]) -> Shop {
    Bill::of(alloc, tables_of(rt, alloc, count, lines)).expect(rt, "a shop")
}

// The loop's path of these lines, which must be refused.
fn refused(rt: &impl Abort, alloc: Global, count: usize, lines: &[Line]) -> Vec<usize> {
    match Bill::of(alloc, tables_of(rt, alloc, count, lines)) {
        Ok(_) => panic!(rt; "accepted"),
        Err(BillFault::Loop { path }) => path,
        Err(BillFault::NoMemory) => panic!(rt; "no memory"),
    }
}

// An item: its code, its parents and components, and the lines to it.
type ItemCells = (usize, &'static [usize], &'static [usize], &'static [usize]);

// Lines, their items, an order with parents before their components, and the greatest code.
#[derive(Clone, Copy)]
struct Worked {
    lines: &'static [Line],
    items: &'static [ItemCells],
    order: &'static [usize],
    depth: usize,
}

const ACCEPTED: &[Worked] = &[
    // A bike with a frame of tubes, and screws in the bike and the tubes.
    Worked {
        lines: &[(0, 3), (0, 1), (1, 2), (2, 3)],
        items: &[
            (0, &[], &[1, 3], &[]),
            (1, &[0], &[2], &[1]),
            (2, &[1], &[3], &[2]),
            (3, &[0, 2], &[], &[0, 3]),
        ],
        order: &[0, 1, 2, 3],
        depth: 3,
    },
    // A diamond is not a loop.
    Worked {
        lines: &[(3, 1), (3, 2), (1, 0), (2, 0)],
        items: &[
            (2, &[1, 2], &[], &[2, 3]),
            (1, &[3], &[0], &[0]),
            (1, &[3], &[0], &[1]),
            (0, &[], &[1, 2], &[]),
        ],
        order: &[3, 2, 1, 0],
        depth: 2,
    },
    // Two lines with the same parent and component give one parent.
    Worked {
        lines: &[(2, 0), (1, 0), (2, 0), (2, 1), (1, 0)],
        items: &[
            (2, &[1, 2], &[], &[0, 1, 2, 4]),
            (1, &[2], &[0], &[3]),
            (0, &[], &[0, 1], &[]),
        ],
        order: &[2, 1, 0],
        depth: 2,
    },
    Worked {
        lines: &[],
        items: &[(0, &[], &[], &[]), (0, &[], &[], &[])],
        order: &[0, 1],
        depth: 0,
    },
    Worked {
        lines: &[],
        items: &[],
        order: &[],
        depth: 0,
    },
];

// Fails unless an item has these cells.
fn is_item(rt: &impl Abort, shop: &Shop, item: usize, want: &ItemCells) {
    let (code, parents, children, lines) = *want;
    assert!(rt; item < shop.tables().items().len());
    same(rt, shop.code(item), code);
    same(rt, shop.parents(item), parents);
    same(rt, shop.children(item), children);
    same(rt, shop.lines_to(item), lines);
}

// Fails unless a shop has these lines, order and codes.
fn is_worked(rt: &impl Abort, shop: &Shop, want: &Worked) {
    same(rt, shop.tables().bills().len(), want.lines.len());
    same(rt, shop.order(), want.order);
    same(rt, shop.depth(), want.depth);
    for item in 0..want.items.len() {
        is_item(rt, shop, item, &want.items[item]);
    }
}

#[test]
fn items_have_their_parents_components_and_codes(rt: HostRuntime) {
    for want in ACCEPTED {
        let shop = accepted(&rt, rt.alloc(), want.items.len(), want.lines);
        is_worked(&rt, &shop, want);
        drop(shop);
    }
}

// How many items there are, their lines, and the path from the first item that needs itself.
const REFUSED: &[(usize, &[Line], &[usize])] = &[
    (3, &[(0, 1), (1, 2), (2, 0)], &[0, 1, 2, 0]),
    (1, &[(0, 0)], &[0, 0]),
    (3, &[(0, 1), (1, 2), (2, 2)], &[2, 2]),
    // 0 is above the loop of 2 and 3, and 1 below it.
    (4, &[(0, 2), (2, 3), (3, 2), (3, 1)], &[2, 3, 2]),
    // 3 and 4 need each other, and 1 and 2; 0 is between them.
    (
        5,
        &[(3, 4), (4, 3), (4, 0), (0, 2), (2, 1), (1, 2)],
        &[1, 2, 1],
    ),
    // A walk up from 0 first finds the loop of 4 and 5; the first item on a loop is 1.
    (
        6,
        &[(4, 0), (5, 4), (4, 5), (1, 4), (2, 1), (1, 2)],
        &[1, 2, 1],
    ),
    // A loop below a diamond.
    (
        5,
        &[(0, 1), (0, 2), (1, 3), (2, 3), (3, 4), (4, 2)],
        &[2, 3, 4, 2],
    ),
];

#[test]
fn the_first_item_that_needs_itself_is_named_with_its_path(rt: HostRuntime) {
    for (count, lines, want) in REFUSED {
        let path = refused(&rt, rt.alloc(), *count, lines);
        same(&rt, path.as_slice(), *want);
    }
}
