//! Messages of items and of plans.

use super::{made, same};
use mrp_item::Plan;
use mrp_notes::{Advice, Message, Supplied, item_messages, messages};
use sample_shops::{bicycles_in_lots, morning, product_bookings, products};
use std::alloc::Global;
use std::process::Abort;

// Fails unless these are the messages of a plan, and those of its items in order.
fn has_messages(rt: &impl Abort, alloc: Global, plan: &Plan, want: &[Message]) {
    let told = messages(alloc, plan).expect(rt, "messages");
    same(rt, told.as_slice(), want);
    let mut by_item = Vec::new(alloc);
    for item in 0..plan.inputs().shop().tables().items().len() {
        let own = item_messages(alloc, plan.item(item)).expect(rt, "messages");
        by_item
            .extend_from_slice(own.as_slice())
            .expect(rt, "memory");
        drop(own);
    }
    same(rt, by_item.as_slice(), want);
    drop((told, by_item));
}

const LOT_MESSAGES: &[Message] = &[
    Message {
        item: 0,
        supply: Supplied::Order(1),
        advice: Advice::Release,
    },
    Message {
        item: 0,
        supply: Supplied::Order(2),
        advice: Advice::Earlier(2),
    },
    Message {
        item: 0,
        supply: Supplied::Order(3),
        advice: Advice::Earlier(4),
    },
    Message {
        item: 1,
        supply: Supplied::Order(1),
        advice: Advice::PastDue(1),
    },
    Message {
        item: 1,
        supply: Supplied::Order(2),
        advice: Advice::Release,
    },
    Message {
        item: 1,
        supply: Supplied::Receipt(1),
        advice: Advice::Earlier(1),
    },
    Message {
        item: 2,
        supply: Supplied::Order(1),
        advice: Advice::PastDue(1),
    },
];

const PRODUCT_MESSAGES: &[Message] = &[
    Message {
        item: 0,
        supply: Supplied::Order(1),
        advice: Advice::PastDue(1),
    },
    Message {
        item: 0,
        supply: Supplied::Order(1),
        advice: Advice::Later(3),
    },
    Message {
        item: 0,
        supply: Supplied::Order(3),
        advice: Advice::Later(4),
    },
    Message {
        item: 1,
        supply: Supplied::Order(1),
        advice: Advice::PastDue(1),
    },
    Message {
        item: 1,
        supply: Supplied::Receipt(1),
        advice: Advice::Earlier(1),
    },
    Message {
        item: 1,
        supply: Supplied::Receipt(3),
        advice: Advice::Earlier(1),
    },
    Message {
        item: 1,
        supply: Supplied::Order(2),
        advice: Advice::Release,
    },
    Message {
        item: 2,
        supply: Supplied::Receipt(4),
        advice: Advice::Cancel,
    },
];

#[test]
fn late_orders_and_open_receipts_are_told(rt: HostRuntime) {
    let shops = [
        (bicycles_in_lots(), morning(), LOT_MESSAGES),
        (products(), product_bookings(), PRODUCT_MESSAGES),
    ];
    for (shop, calls, want) in shops {
        let plan = made(&rt, shop.plan(rt.alloc(), calls));
        has_messages(&rt, rt.alloc(), &plan, want);
        drop(plan);
    }
}
