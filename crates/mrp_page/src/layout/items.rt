//! The parts of a page: the items, their orders and pegs.

ghost use Rattle.std.specs.Prelude.{◌≡◌, map};
ghost use Rattle.mrp_page.specs.Template.{drawn_of};
ghost use Rattle.mrp_page.specs.layout.Items.{facts_end, facts_open, facts_steps, index_count, item_head, items_end, items_open, lists_open, order, order_address, orders_open, peg_back, peg_booking, peg_middle, peg_need, peg_parent, peg_supply, pegs_open, wait_end, wait_late, wait_order, wait_supply, waits_open};

use crate::template::Part;

// What a link to an order begins with, before its number.
#[tactic(auto, unfolding(crate::specs::layout::Items::order_address))]
pub(crate) fn order_address() -> &'static [u8]
    ensures { result.now ≡ order_address }
{
    b"<a href=\"#o-"
}

// The heading of an item, with its name.
#[tactic(auto, unfolding(crate::specs::layout::Items::item_head))]
pub(crate) fn item_head() -> &'static [Part]
    ensures { map drawn_of result.now ≡ item_head }
{
    &[
        Part::Markup(b"<section class=item id=\"i-"),
        Part::Cell(0),
        Part::Markup(b"\">\n<h2>"),
        Part::Cell(0),
        Part::Markup(b"<a href=\"#items\">all items</a><a href=\"#todo\">to do</a></h2>\n"),
    ]
}

// What the index of the items begins with.
#[tactic(auto, unfolding(crate::specs::layout::Items::items_open))]
pub(crate) fn items_open() -> &'static [u8]
    ensures { result.now ≡ items_open }
{
    b"<section id=items>\n<h2>Items</h2>\n<ul class=index>\n"
}

// What the index of the items ends with.
#[tactic(auto, unfolding(crate::specs::layout::Items::items_end))]
pub(crate) fn items_end() -> &'static [u8]
    ensures { result.now ≡ items_end }
{
    b"</ul>\n</section>\n"
}

// How many messages an item has.
#[tactic(auto, unfolding(crate::specs::layout::Items::index_count))]
pub(crate) fn index_count() -> &'static [Part]
    ensures { map drawn_of result.now ≡ index_count }
{
    &[
        Part::Markup(b" <small>"),
        Part::Cell(0),
        Part::Markup(b"</small>"),
    ]
}

// What the orders and pegs of an item are folded behind.
#[tactic(auto, unfolding(crate::specs::layout::Items::lists_open))]
pub(crate) fn lists_open() -> &'static [u8]
    ensures { result.now ≡ lists_open }
{
    b"<details><summary>Orders and pegs</summary>\n"
}

// What the orders of an item begin with.
#[tactic(auto, unfolding(crate::specs::layout::Items::orders_open))]
pub(crate) fn orders_open() -> &'static [u8]
    ensures { result.now ≡ orders_open }
{
    b"<div class=scroll tabindex=0 role=region aria-label=Orders><table class=list>\n<caption><span>Firm and planned orders</span></caption>\n<thead><tr><th class=t scope=col>Order</th><th class=t scope=col>Kind</th><th scope=col>Due week</th><th scope=col>Quantity</th><th scope=col>Pieces to start</th><th scope=col>Release week</th><th scope=col>Weeks late (shop days from version 2 on)</th></tr></thead>\n<tbody>"
}

// What the pegs of an item begin with.
#[tactic(auto, unfolding(crate::specs::layout::Items::pegs_open))]
pub(crate) fn pegs_open() -> &'static [u8]
    ensures { result.now ≡ pegs_open }
{
    b"<div class=scroll tabindex=0 role=region aria-label=\"Where it goes\"><table class=list>\n<caption><span>Where it goes: which supply serves which requirement</span></caption>\n<thead><tr><th class=t scope=col>Supply</th><th scope=col>Pieces</th><th class=t scope=col>Requirement</th><th scope=col>Week</th></tr></thead>\n<tbody>"
}

// The supply of a peg.
#[tactic(auto, unfolding(crate::specs::layout::Items::peg_supply))]
pub(crate) fn peg_supply() -> &'static [Part]
    ensures { map drawn_of result.now ≡ peg_supply }
{
    &[Part::Cell(6), Part::Markup(b" "), Part::Cell(7)]
}

// The pieces of a peg, before its requirement.
#[tactic(auto, unfolding(crate::specs::layout::Items::peg_middle))]
pub(crate) fn peg_middle() -> &'static [Part]
    ensures { map drawn_of result.now ≡ peg_middle }
{
    &[
        Part::Markup(b"</th>"),
        Part::Number(8),
        Part::Markup(b"<td class=t>"),
    ]
}

// What stands before the number of a booking.
#[tactic(auto, unfolding(crate::specs::layout::Items::peg_booking))]
pub(crate) fn peg_booking() -> &'static [u8]
    ensures { result.now ≡ peg_booking }
{
    b"booking "
}

// The order of a parent that a peg is for.
#[tactic(auto, unfolding(crate::specs::layout::Items::peg_parent))]
pub(crate) fn peg_parent() -> &'static [Part]
    ensures { map drawn_of result.now ≡ peg_parent }
{
    &[
        Part::Markup(b"order "),
        Part::Cell(3),
        Part::Markup(b" of "),
        Part::Cell(4),
    ]
}

// Any other requirement of a peg.
#[tactic(auto, unfolding(crate::specs::layout::Items::peg_need))]
pub(crate) fn peg_need() -> &'static [Part]
    ensures { map drawn_of result.now ≡ peg_need }
{
    &[
        Part::If(2, b"forecast", b"forecast"),
        Part::If(2, b"service", b"service part demand, master record "),
        Part::If(2, b"surplus", b"left over"),
        Part::Cell(3),
    ]
}

// The week of a peg.
#[tactic(auto, unfolding(crate::specs::layout::Items::peg_back))]
pub(crate) fn peg_back() -> &'static [Part]
    ensures { map drawn_of result.now ≡ peg_back }
{
    &[
        Part::If(2, b"parent", b", bill line "),
        Part::Cell(5),
        Part::Markup(b"</td>"),
        Part::Week(1),
        Part::Markup(b"</tr>\n"),
    ]
}

// The order that waits for a component.
#[tactic(auto, unfolding(crate::specs::layout::Items::wait_order))]
pub(crate) fn wait_order() -> &'static [Part]
    ensures { map drawn_of result.now ≡ wait_order }
{
    &[Part::Markup(b"order "), Part::Cell(3)]
}

// What comes between a component and its supply.
#[tactic(auto, unfolding(crate::specs::layout::Items::wait_supply))]
pub(crate) fn wait_supply() -> &'static [u8]
    ensures { result.now ≡ wait_supply }
{
    b"</td><td class=t>"
}

// How late the supply of a component is.
#[tactic(auto, unfolding(crate::specs::layout::Items::wait_late))]
pub(crate) fn wait_late() -> &'static [Part]
    ensures { map drawn_of result.now ≡ wait_late }
{
    &[
        Part::Markup(b"</td>"),
        Part::Number(7),
        Part::Markup(b"</tr>\n"),
    ]
}

// What a component ends with whose supply is no firm or planned order.
#[tactic(auto, unfolding(crate::specs::layout::Items::wait_end))]
pub(crate) fn wait_end() -> &'static [u8]
    ensures { result.now ≡ wait_end }
{
    b"</td><td></td></tr>\n"
}

// What the components that an item's orders wait for begin with.
#[tactic(auto, unfolding(crate::specs::layout::Items::waits_open))]
pub(crate) fn waits_open() -> &'static [u8]
    ensures { result.now ≡ waits_open }
{
    b"<div class=scroll tabindex=0 role=region aria-label=\"What its orders wait for\"><table class=\"list waits\">\n<caption><span>What its orders wait for</span></caption>\n<thead><tr><th class=t scope=col>Order</th><th scope=col>Pieces</th><th class=t scope=col>Component</th><th class=t scope=col>Supply</th><th scope=col>Weeks late</th></tr></thead>\n<tbody>"
}

// What the tables say of an item: its class, lead time and lot rule.
#[tactic(auto, unfolding(crate::specs::layout::Items::facts_open))]
pub(crate) fn facts_open() -> &'static [Part]
    ensures { map drawn_of result.now ≡ facts_open }
{
    &[
        Part::Markup(b"<p class=note>"),
        Part::If(0, b"master", b"Master item"),
        Part::If(0, b"part", b"Part"),
        Part::If(2, b"weeks", b"; lead time in weeks: "),
        Part::If(2, b"days", b"; lead time in shop days: "),
        Part::Cell(1),
        Part::If(3, b"lfl", b"; lot for lot"),
        Part::If(3, b"fixed", b"; fixed order quantity: "),
        Part::If(3, b"period", b"; period order quantity, weeks: "),
        Part::Cell(4),
    ]
}

// An item's minimum order quantity and order multiple.
#[tactic(auto, unfolding(crate::specs::layout::Items::facts_steps))]
pub(crate) fn facts_steps() -> &'static [Part]
    ensures { map drawn_of result.now ≡ facts_steps }
{
    &[
        Part::Markup(b"; minimum: "),
        Part::Cell(5),
        Part::Markup(b"; multiple: "),
        Part::Cell(6),
    ]
}

// An item's scrap, safety stock and stock on hand.
#[tactic(auto, unfolding(crate::specs::layout::Items::facts_end))]
pub(crate) fn facts_end() -> &'static [Part]
    ensures { map drawn_of result.now ≡ facts_end }
{
    &[
        Part::Markup(b"; scrap: "),
        Part::Cell(7),
        Part::Markup(b"."),
        Part::Cell(8),
        Part::Markup(b"&nbsp;%; safety stock: "),
        Part::Cell(9),
        Part::Markup(b"; on hand: "),
        Part::Cell(10),
        Part::Markup(b"</p>\n"),
    ]
}

// An order.
#[tactic(auto, unfolding(crate::specs::layout::Items::order))]
pub(crate) fn order() -> &'static [Part]
    ensures { map drawn_of result.now ≡ order }
{
    &[
        Part::Markup(b"<tr id=\"o-"),
        Part::Cell(1),
        Part::Markup(b"-"),
        Part::Cell(0),
        Part::Markup(b"\">"),
        Part::Markup(b"<th scope=row>"),
        Part::Cell(1),
        Part::Markup(b"</th><td class=t>"),
        Part::Cell(2),
        Part::Markup(b"</td>"),
        Part::Week(3),
        Part::Number(4),
        Part::Number(5),
        Part::Week(6),
        Part::Number(7),
        Part::Markup(b"</tr>\n"),
    ]
}
