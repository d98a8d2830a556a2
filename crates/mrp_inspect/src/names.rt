//! Other names under which a table's file may be there.

ghost use Rattle.std.specs.Prelude.{◌≡◌, IfOk, string_bytes};
ghost use Rattle.mrp_inspect.specs.Names as spec;
ghost use Rattle.mrp_inspect.specs.Names.{capital_name, name_in_capitals, stem_of};

use mrp_rows::Table;
use std::alloc::{AllocError, Global};

/// How another name of a table's file differs from its own, as `items.csv`.
#[derive(Clone, Copy)]
pub enum Naming {
    /// `Items.csv`
    Capital,
    /// `ITEMS.csv`
    Capitals,
    /// `ITEMS.CSV`
    AllCapitals,
    /// `Items.CSV`
    CapitalAndEnding,
    /// `items.CSV`
    CapitalEnding,
    /// `items.csv.csv`
    Twice,
    /// `items.csv.txt`
    TextBehind,
    /// `items.txt`
    Text,
    /// `items.xlsx`
    Workbook,
}

// The other names, in the order in which they are looked for.
pub(crate) const NAMINGS: [Naming; 9] = [
    Naming::Capital,
    Naming::Capitals,
    Naming::AllCapitals,
    Naming::CapitalAndEnding,
    Naming::CapitalEnding,
    Naming::Twice,
    Naming::TextBehind,
    Naming::Text,
    Naming::Workbook,
];

// A table's name with a capital.
fn capital_name(table: Table) -> &'static str
    ensures { result.now ≡ capital_name table }
{
    match table {
        Table::Calendar => "Calendar",
        Table::Items => "Items",
        Table::Centres => "Centres",
        Table::Stock => "Stock",
        Table::Receipts => "Receipts",
        Table::Bills => "Bills",
        Table::Routings => "Routings",
        Table::Master => "Master",
        Table::Script => "Script",
        Table::Bundle => "Bundle",
    }
}

// The same in capitals.
fn name_in_capitals(table: Table) -> &'static str
    ensures { result.now ≡ name_in_capitals table }
{
    match table {
        Table::Calendar => "CALENDAR",
        Table::Items => "ITEMS",
        Table::Centres => "CENTRES",
        Table::Stock => "STOCK",
        Table::Receipts => "RECEIPTS",
        Table::Bills => "BILLS",
        Table::Routings => "ROUTINGS",
        Table::Master => "MASTER",
        Table::Script => "SCRIPT",
        Table::Bundle => "BUNDLE",
    }
}

// A name without its ending.
fn stem_of(table: Table, naming: Naming) -> &'static str
    ensures { result.now ≡ stem_of table naming }
{
    match naming {
        Naming::Capital | Naming::CapitalAndEnding => capital_name(table),
        Naming::Capitals | Naming::AllCapitals => name_in_capitals(table),
        Naming::CapitalEnding
        | Naming::Twice
        | Naming::TextBehind
        | Naming::Text
        | Naming::Workbook => table.name(),
    }
}

impl Naming {
    ghost use Rattle.std.specs.Prelude.{◌≡◌};
    ghost use Rattle.mrp_inspect.specs.Names.{ending_of};

    // The ending of a name.
    fn ending(self) -> &'static str
        ensures { result.now ≡ ending_of self }
    {
        match self {
            Naming::Capital | Naming::Capitals => ".csv",
            Naming::AllCapitals | Naming::CapitalAndEnding | Naming::CapitalEnding => ".CSV",
            Naming::Twice => ".csv.csv",
            Naming::TextBehind => ".csv.txt",
            Naming::Text => ".txt",
            Naming::Workbook => ".xlsx",
        }
    }
}

// Another name of a table's file.
pub(crate) fn other_name(alloc: Global, table: Table, naming: Naming) -> Result<String, AllocError>
    ensures { IfOk result (λ name. string_bytes name ≡ spec.other_name table naming) }
{
    let stem = stem_of(table, naming);
    let ending = naming.ending();
    format!(in alloc; "{stem}{ending}")
}
