//! Orders by their numbers, and links to them.

ghost use Rattle.std.specs.Prelude.{◌≡◌, ◌++◌, OnOk, map};
ghost use Rattle.std.specs.Option.{option_copied};
ghost use Rattle.mrp_page.specs.Orders.{is_numbered, is_order, linked_html, numbered, order_link, order_words, ordered, place_of};
ghost use Rattle.mrp_page.specs.Template.{drawn_of, row_html};

use crate::amounts::amount;
use crate::draw::has_item;
use crate::html::Html;
use crate::layout::items::order_address;
use crate::layout::lists::{link_end, link_middle};
use crate::row::Row;
use crate::scene::Scene;
use crate::template::{Part, has_word, put_row};
use mrp_qty::NoMemory;

// Whether an order is that of this item with this number.
pub(crate) fn is_numbered(name: &[u8], number: &[u8], order: &Row) -> bool
    ensures { result ≡ is_numbered name.now number.now order.now }
{
    order.is_of(name) && has_word(1, number, order)
}

// Whether an order is that of this item, of this kind, with this number.
pub(crate) fn is_order(name: &[u8], kind: &[u8], number: &[u8], order: &Row) -> bool
    ensures { result ≡ is_order name.now kind.now number.now order.now }
{
    order.is_of(name) && has_word(1, number, order) && has_word(2, kind, order)
}

// The place of the order with this number among those of its item, which are numbered from 1.
pub(crate) fn place_of(number: &[u8]) -> usize
    ensures { result ≡ place_of number.now }
{
    amount(number).saturating_sub(1) as usize
}

// The order of an item with this number, if it is kept.
pub(crate) fn numbered<'a>(scene: &Scene<'_, 'a>, name: &[u8], number: &[u8]) -> Option<&'a Row>
    ensures { option_copied result ≡ numbered scene.now name.now number.now }
{
    match scene.orders_of(name).get(place_of(number)) {
        Some(order) if is_numbered(name, number, order) => Some(order),
        _ => None,
    }
}

// The order of an item with this number and kind, if it is kept.
pub(crate) fn ordered<'a>(
    scene: &Scene<'_, 'a>,
    name: &[u8],
    kind: &[u8],
    number: &[u8],
) -> Option<&'a Row>
    ensures { option_copied result ≡ ordered scene.now name.now kind.now number.now }
{
    match scene.orders_of(name).get(place_of(number)) {
        Some(order) if is_order(name, kind, number, order) => Some(order),
        _ => None,
    }
}

// Adds what a link to an order begins with.
#[tactic(auto, unfolding(crate::specs::Orders::order_link))]
fn put_order_link(page: &mut Html, number: &[u8], name: &[u8]) -> Result<(), NoMemory>
    ensures { OnOk result (page.new ≡ page.old ++ order_link number.now name.now) }
{
    page.markup(order_address())?;
    page.text(number)?;
    page.markup(b"-")?;
    page.text(name)?;
    page.markup(link_middle())
}

// Adds what is said of an order, as a link to it if its item is shown.
#[tactic(auto, unfolding(crate::specs::Orders::order_words))]
fn put_order_words(
    page: &mut Html,
    scene: &Scene<'_, '_>,
    order: &Row,
    words: &[Part],
    row: &Row,
) -> Result<(), NoMemory>
    ensures { OnOk result (page.new ≡ page.old ++ order_words scene.now order.now (row_html (map drawn_of words.now) row.now)) }
{
    if !has_item(scene.shown(), order.name()) {
        return put_row(page, words, row);
    }
    put_order_link(page, order.cell(1), order.name())?;
    put_row(page, words, row)?;
    page.markup(link_end())
}

// Adds what is said of an order, as a link to it if it is on the page.
pub(crate) fn put_linked(
    page: &mut Html,
    scene: &Scene<'_, '_>,
    order: Option<&Row>,
    words: &[Part],
    row: &Row,
) -> Result<(), NoMemory>
    ensures { OnOk result (page.new ≡ page.old ++ linked_html scene.now (option_copied order.entry) (row_html (map drawn_of words.now) row.now)) }
{
    match order {
        Some(order) => put_order_words(page, scene, order, words, row),
        None => put_row(page, words, row),
    }
}
