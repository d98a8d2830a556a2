//! What the numbers of a column are, and their limits.

ghost use Rattle.std.specs.Prelude.{◌≡◌, ◌++◌, OnOk, string_bytes};
ghost use Rattle.mrp_advice.specs.Measures.{dated_measure, example, item_measure, lead_measure, limits_words, measure_of, noun, routing_measure, script_measure, size_measure};

use crate::text::push_number;
use mrp_rows::Table;
use mrp_tables::limits::MOST_PIECES;
use mrp_tables::{LeadUnit, MOST_VERSION, Version};
use std::alloc::AllocError;

// What a number is.
#[derive(Clone, Copy)]
pub(crate) enum Measure {
    Version,
    Weeks,
    ShopDays,
    // Pieces of a thousand that are scrapped.
    Scrap,
    Pieces,
    // The pieces of a fixed lot.
    Lot,
    MinimumOrder,
    OrderMultiple,
    MinutesPerShopDay,
    // The pieces of a component in one of the parent.
    Per,
    // The number of an operation.
    Operation,
    // A setup time, in minutes.
    Setup,
    // A run time, in thousandths of a minute.
    Run,
    Desk,
    // The number of an entry of the order book.
    Entry,
}

fn dated_measure(most: u64) -> Measure
    ensures { result ≡ dated_measure most }
{
    if most == MOST_VERSION {
        Measure::Version
    } else {
        Measure::Weeks
    }
}

fn lead_measure(unit: LeadUnit) -> Measure
    ensures { result ≡ lead_measure unit }
{
    match unit {
        LeadUnit::Weeks => Measure::Weeks,
        LeadUnit::ShopDays => Measure::ShopDays,
    }
}

// What a lot size is: its limits are those of its lot rule.
fn size_measure(least: u64, most: u64) -> Measure
    ensures { result ≡ size_measure least most }
{
    if least == 0 {
        Measure::Pieces
    } else if most == MOST_PIECES {
        Measure::Lot
    } else {
        Measure::Weeks
    }
}

fn item_measure(version: Version, column: usize, least: u64, most: u64) -> Measure
    ensures { result ≡ item_measure version column least most }
{
    match column {
        2 => lead_measure(version.lead_unit()),
        3 => Measure::Scrap,
        5 => size_measure(least, most),
        7 => Measure::MinimumOrder,
        8 => Measure::OrderMultiple,
        _ => Measure::Pieces,
    }
}

fn routing_measure(column: usize) -> Measure
    ensures { result ≡ routing_measure column }
{
    match column {
        1 => Measure::Operation,
        3 => Measure::Setup,
        4 => Measure::Run,
        _ => Measure::Weeks,
    }
}

fn script_measure(column: usize) -> Measure
    ensures { result ≡ script_measure column }
{
    match column {
        0 => Measure::Desk,
        4 => Measure::Pieces,
        _ => Measure::Entry,
    }
}

// What a number in a table's column is, by its limits.
pub(crate) fn measure_of(
    version: Version,
    table: Table,
    column: usize,
    least: u64,
    most: u64,
) -> Measure
    ensures { result ≡ measure_of version table column least most }
{
    match table {
        Table::Calendar => dated_measure(most),
        Table::Items => item_measure(version, column, least, most),
        Table::Centres => Measure::MinutesPerShopDay,
        Table::Bills => Measure::Per,
        Table::Routings => routing_measure(column),
        Table::Script => script_measure(column),
        Table::Stock | Table::Receipts | Table::Master | Table::Bundle => Measure::Pieces,
    }
}

fn noun(measure: Measure) -> &'static str
    ensures { result.now ≡ noun measure }
{
    match measure {
        Measure::Version => "a version",
        Measure::Weeks => "weeks",
        Measure::ShopDays => "shop days",
        Measure::Scrap => "thousandths",
        Measure::Pieces => "pieces",
        Measure::Lot => "pieces in a lot",
        Measure::MinimumOrder => "a minimum order quantity in pieces",
        Measure::OrderMultiple => "an order multiple in pieces",
        Measure::MinutesPerShopDay => "minutes on a shop day",
        Measure::Per => "pieces in one of the parent",
        Measure::Operation => "an operation's number",
        Measure::Setup => "minutes",
        Measure::Run => "thousandths of a minute",
        Measure::Desk => "a desk",
        Measure::Entry => "an entry's number",
    }
}

// An example, where one helps.
fn example(measure: Measure) -> &'static str
    ensures { result.now ≡ example measure }
{
    match measure {
        Measure::Scrap => " (25 is 2.5 %)",
        Measure::Run => " (2500 is 2.5 minutes)",
        _ => "",
    }
}

// Adds what a number is, and its limits.
pub(crate) fn push_limits(
    measure: Measure,
    least: u64,
    most: u64,
    text: &mut String,
) -> Result<(), AllocError>
    ensures { OnOk result (string_bytes text.new ≡ string_bytes text.old ++ limits_words measure least most) }
{
    text.push_str(noun(measure))?;
    text.push_str(", ")?;
    push_number(least, text)?;
    text.push_str(" to ")?;
    push_number(most, text)?;
    text.push_str(example(measure))
}
