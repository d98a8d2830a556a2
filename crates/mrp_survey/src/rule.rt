//! What a record's right cells have to be beside other records and other tables.

ghost use Rattle.std.specs.Prelude.{◌≡◌};
ghost use Rattle.mrp_survey.specs.Rules.{broken, class_fault, has_gone_out, is_unknown, is_unstocked, key_column, key_of, marked_if, misfit, not_master, repeated, row_fault, rules_of, service_fault};
ghost use Rattle.mrp_survey.specs.Sought.{item_columns, named_of, sought_in};

use crate::finding::What;
use crate::form::Form;
use crate::known::Known;
use crate::record::Record;
use crate::seen::{Key, Seen};
use mrp_cal::Calendar;
use mrp_rows::Table;
use mrp_tables::{Class, Version};

// A rule of a table's records, in the order of the numbers of their faults.
#[derive(Clone, Copy)]
pub(crate) enum Rule {
    // No earlier record has the record's key.
    Once,
    // An item has the name in this column.
    Item(usize),
    // A work centre has the name in this column.
    Centre(usize),
    // The date in this column is in the horizon.
    Within(usize),
    // The item in this column is of the class that the record is for.
    OfClass(usize),
    // A master item has no safety stock.
    Unstocked,
}

// The tables that others look at, each if it was read to its end.
#[derive(Drop)]
pub(crate) struct Beside {
    pub(crate) items: Option<Known>,
    pub(crate) centres: Option<Known>,
    pub(crate) calendar: Option<Calendar>,
}

// What a name of an item is among the known items.
#[derive(Clone, Copy)]
pub(crate) struct Sought {
    // Whether it is known to be none of them.
    pub(crate) is_unknown: bool,
    pub(crate) place: Option<usize>,
    pub(crate) class: Option<Class>,
}

const UNSOUGHT: Sought = Sought {
    is_unknown: false,
    place: None,
    class: None,
};

// What a record's names of items are among the known items, looked up once.
#[derive(Clone, Copy)]
pub(crate) struct Named {
    first_column: usize,
    first: Sought,
    second_column: usize,
    second: Sought,
}

// The columns of a table's items: twice the same where it has one.
fn item_columns(table: Table) -> (usize, usize)
    ensures { result ≡ item_columns table }
{
    match table {
        Table::Bills => (0, 1),
        Table::Script => (2, 2),
        _ => (0, 0),
    }
}

// What the name in a column is among the known items.
fn seek(items: &Option<Known>, entry: &Record<'_>, column: usize) -> Sought
    ensures { result ≡ sought_in items.now entry.now column }
{
    let Some(items) = items else {
        return UNSOUGHT;
    };
    let Some(name) = entry.name(column) else {
        return UNSOUGHT;
    };
    match items.find(&name) {
        Some((place, class)) => Sought {
            is_unknown: false,
            place: Some(place),
            class,
        },
        None => Sought {
            is_unknown: true,
            ..UNSOUGHT
        },
    }
}

// Looks a record's names of items up.
pub(crate) fn look_up(items: &Option<Known>, entry: &Record<'_>) -> Named
    ensures { result ≡ named_of items.now entry.now }
{
    let (first_column, second_column) = item_columns(entry.table());
    let first = seek(items, entry, first_column);
    let second = if first_column == second_column {
        first
    } else {
        seek(items, entry, second_column)
    };
    Named {
        first_column,
        first,
        second_column,
        second,
    }
}

// What the name in a column is among the known items, looked up before for a column of items.
pub(crate) fn found_in(
    items: &Option<Known>,
    named: &Named,
    entry: &Record<'_>,
    column: usize,
) -> Sought
    requires { named.now ≡ named_of items.now entry.now }
    ensures { result ≡ sought_in items.now entry.now column }
{
    if column == named.first_column {
        named.first
    } else if column == named.second_column {
        named.second
    } else {
        seek(items, entry, column)
    }
}

// The rules of a table's records, in the order of their faults.
pub(crate) fn rules(table: Table) -> &'static [Rule]
    ensures { result.now ≡ rules_of table }
{
    match table {
        Table::Calendar => &[],
        Table::Items => &[Rule::Once, Rule::Unstocked],
        Table::Centres => &[Rule::Once],
        Table::Stock => &[Rule::Once, Rule::Item(0)],
        Table::Receipts => &[Rule::Once, Rule::Item(0), Rule::Within(2), Rule::OfClass(0)],
        Table::Bills => &[Rule::Item(0), Rule::Item(1), Rule::OfClass(1)],
        Table::Routings => &[Rule::Once, Rule::Item(0), Rule::Centre(2)],
        Table::Master => &[Rule::Item(0), Rule::Within(2), Rule::OfClass(0)],
        Table::Script => &[Rule::Item(2), Rule::Within(3), Rule::OfClass(2)],
        Table::Bundle => &[],
    }
}

// What a record has to itself, where its cells are right.
pub(crate) fn key_of(entry: &Record<'_>) -> Option<Key>
    ensures { result ≡ key_of entry.now }
{
    match entry.table() {
        Table::Items | Table::Centres | Table::Stock => {
            let name = entry.name(0)?;
            Some((name, (name, 0)))
        }
        Table::Receipts => {
            let item = entry.name(0)?;
            let order = entry.name(1)?;
            Some((item, (order, 0)))
        }
        Table::Routings => {
            let item = entry.name(0)?;
            let operation = entry.number(1)?;
            Some((item, (item, operation)))
        }
        _ => None,
    }
}

// The column of what a record has to itself beside its item.
fn key_column(table: Table) -> usize
    ensures { result ≡ key_column table }
{
    match table {
        Table::Receipts | Table::Routings => 1,
        _ => 0,
    }
}

// The line of an earlier record that has the record's key.
fn repeated(entry: &Record<'_>, seen: &Seen) -> Option<u64>
    ensures { result ≡ repeated seen.now entry.now }
{
    let key = key_of(entry)?;
    seen.line_of(&key)
}

// Whether a right name is known to be none of those of a table that was read to its end.
fn is_unknown(known: &Option<Known>, entry: &Record<'_>, column: usize) -> bool
    ensures { result ≡ is_unknown known.now entry.now column }
{
    let Some(known) = known else {
        return false;
    };
    match entry.name(column) {
        Some(name) => !known.has(&name),
        None => false,
    }
}

// Whether a right date is outside a horizon that is known.
fn has_gone_out(calendar: &Option<Calendar>, entry: &Record<'_>, column: usize) -> bool
    ensures { result ≡ has_gone_out calendar.now entry.now column }
{
    let Some(calendar) = calendar else {
        return false;
    };
    match entry.date(column) {
        Some(date) => calendar.week_of(date).is_none(),
        None => false,
    }
}

// Whether a master item has safety stock.
fn is_unstocked(entry: &Record<'_>) -> bool
    ensures { result ≡ is_unstocked entry.now }
{
    match (entry.word(1), entry.number(6)) {
        (Some(0), Some(safety)) => safety == 0,
        _ => true,
    }
}

fn not_master(class: Class) -> Option<What>
    ensures { result ≡ not_master class }
{
    match class {
        Class::Master => None,
        Class::Part => Some(What::NotMaster),
    }
}

fn service_fault(class: Class) -> Option<What>
    ensures { result ≡ service_fault class }
{
    match class {
        Class::Master => Some(What::ServiceMaster),
        Class::Part => None,
    }
}

// A wrong kind of row could be `service`, where the version has such rows.
fn row_fault(form: Form, kind: Option<usize>, class: Class) -> Option<What>
    ensures { result ≡ row_fault form.version kind class }
{
    match (kind, form.version) {
        (Some(2), _) => service_fault(class),
        (Some(_), _) => not_master(class),
        (None, Version::Three) => None,
        (None, Version::One | Version::Two) => not_master(class),
    }
}

// The fault of an item of a class that the record is not for.
fn class_fault(entry: &Record<'_>, class: Class) -> Option<What>
    ensures { result ≡ class_fault entry.now class }
{
    match (entry.table(), class) {
        (Table::Receipts, Class::Master) => Some(What::MasterReceipt),
        (Table::Bills, Class::Master) => Some(What::MasterComponent),
        (Table::Script, class) => not_master(class),
        (Table::Master, class) => row_fault(entry.form, entry.word(1), class),
        _ => None,
    }
}

// The same of the item in a column, where its class is known.
pub(crate) fn misfit(
    items: &Option<Known>,
    named: &Named,
    entry: &Record<'_>,
    column: usize,
) -> Option<What>
    requires { named.now ≡ named_of items.now entry.now }
    ensures { result ≡ misfit items.now entry.now column }
{
    let class = found_in(items, named, entry, column).class?;
    class_fault(entry, class)
}

// A mark, if this holds.
fn marked_if(wrong: bool, column: usize, what: What) -> Option<(usize, What)>
    ensures { result ≡ marked_if wrong (column, what) }
{
    if wrong { Some((column, what)) } else { None }
}

// Where a record breaks a rule, and how.
pub(crate) fn broken(
    rule: Rule,
    beside: &Beside,
    named: &Named,
    seen: &Seen,
    entry: &Record<'_>,
) -> Option<(usize, What)>
    requires { named.now ≡ named_of beside.now.items entry.now }
    ensures { result ≡ broken beside.now seen.now entry.now rule }
{
    match rule {
        Rule::Once => {
            let line = repeated(entry, seen)?;
            Some((key_column(entry.table()), What::Repeated { line }))
        }
        Rule::Item(column) => {
            let found = found_in(&beside.items, named, entry, column);
            marked_if(found.is_unknown, column, What::UnknownItem)
        }
        Rule::Centre(column) => {
            let wrong = is_unknown(&beside.centres, entry, column);
            marked_if(wrong, column, What::UnknownCentre)
        }
        Rule::Within(column) => {
            let wrong = has_gone_out(&beside.calendar, entry, column);
            marked_if(wrong, column, What::DateOutside)
        }
        Rule::OfClass(column) => {
            let what = misfit(&beside.items, named, entry, column)?;
            Some((column, what))
        }
        Rule::Unstocked => marked_if(!is_unstocked(entry), 6, What::MasterSafety),
    }
}
