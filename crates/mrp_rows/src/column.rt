//! The columns of the tables.

ghost use Rattle.std.specs.Prelude.{◌≡◌, length, map, nat_eq};
ghost use Rattle.std.specs.Cmp.Lexicographic.{pointwise};
ghost use Rattle.mrp_rows.specs.Columns.{columns_of, stepped_columns};

use crate::fault::Table;
use crate::row::Row;

/// The names of a table's columns, in order; none for the bundle as a whole.
pub(crate) fn columns(table: Table) -> &'static [&'static str]
    ensures { map (λ c. c.now) result.now ≡ columns_of table }
{
    match table {
        Table::Calendar => &["key", "value"],
        Table::Items => &["item", "class", "lead", "scrap", "lot", "size", "safety"],
        Table::Centres => &["centre", "minutes"],
        Table::Stock => &["item", "onhand"],
        Table::Receipts => &["item", "order", "date", "quantity"],
        Table::Bills => &["parent", "component", "per"],
        Table::Routings => &["item", "op", "centre", "setup", "run", "offset"],
        Table::Master => &["item", "row", "date", "quantity"],
        Table::Script => &["desk", "call", "item", "date", "quantity", "number"],
        Table::Bundle => &[],
    }
}

/// The names of the items' columns where they also have a minimum order quantity and an order
/// multiple, in order.
pub(crate) fn stepped_columns() -> &'static [&'static str]
    ensures { map (λ c. c.now) result.now ≡ stepped_columns }
{
    &[
        "item", "class", "lead", "scrap", "lot", "size", "safety", "least", "step",
    ]
}

// Whether a record's cells are these names, in order.
pub(crate) fn is_header(row: &Row, names: &[&str]) -> bool
    ensures { result ≡ pointwise (pointwise nat_eq) row.now.cells (map (λ c. c.now) names.now) }
{
    if row.cell_count() != names.len() {
        return false;
    }
    for (column, name) in names.iter().enumerate() {
        if row.cell(column) != name.as_bytes() {
            return false;
        }
    }
    true
}
