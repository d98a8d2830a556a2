//! What warnings are told of.

ghost use Rattle.std.specs.Prelude.{◌≡◌, IfOk};
ghost use Rattle.mrp_master.specs.Supply.{supply_of};
ghost use Rattle.mrp_book.specs.History.{asked};
ghost use Rattle.mrp_script.specs.Script.{script_of};

use crate::texts::{lot_sizes, workdays_place};
use mrp_bill::Shop;
use mrp_book::{Book, Call, Entry, Reply};
use mrp_qty::NoMemory;
use mrp_rows::Sections;
use mrp_script::answer_records;
use mrp_tables::Tables;
use std::alloc::Global;
use std::marker::Model;

/// The tables of an accepted bundle, with what warnings look at beside them. Contracts see the tables, the
/// history that answers their script in row order, the lot sizes in the records of the items, and the place
/// of the record of the workdays.
#[derive(Drop)]
pub struct Inspection<'t> {
    tables: &'t Tables,
    book: Book,
    sizes: Vec<u64>,
    workdays: usize,
}

impl<'t> Model for Inspection<'t> {
    ghost use Rattle.mrp_warn.specs.Inspection.{Inspected};

    ghost Value = { Inspected };

    ghost view = { λ i. record {
      tables = i.tables.now;
      history = i.book.entries;
      sizes = i.sizes.items;
      workdays = i.workdays;
    } };
}

impl<'t> Inspection<'t> {
    ghost use Rattle.std.specs.Prelude.{◌≡◌, IfOk};
    ghost use Rattle.mrp_warn.specs.Texts.{Inspects};

    /// Looks at an accepted bundle: at its shop, and at the texts of its sections. The script is answered
    /// in row order; nothing is planned. The caller guarantees that the tables are those of the sections.
    ///
    /// Errors: `NoMemory` if an allocation fails.
    pub fn of(
        alloc: Global,
        sections: &Sections<'_>,
        shop: &'t Shop,
    ) -> Result<Inspection<'t>, NoMemory>
        ensures { IfOk result (Inspects sections.now shop.now.tables) }
    {
        let tables = shop.tables();
        let book = answer_records(alloc, shop)?;
        let _legal = book.entries();
        let sizes = lot_sizes(alloc, sections, tables)?;
        let workdays = workdays_place(alloc, sections)?;
        Ok(Inspection {
            tables,
            book,
            sizes,
            workdays,
        })
    }

    // The tables.
    pub(crate) fn tables(&self) -> &'t Tables
        ensures { result.now ≡ self.now.tables }
    {
        self.tables
    }

    // The history that answers the script.
    pub(crate) fn history(&self) -> &[Entry<Call, Reply>]
        ensures { result.now ≡ self.now.history }
    {
        self.book.entries()
    }

    // The lot sizes in the records of the items.
    pub(crate) fn sizes(&self) -> &[u64]
        ensures { result.now ≡ self.now.sizes }
    {
        &self.sizes
    }

    // The place of the record of the workdays.
    pub(crate) fn workdays(&self) -> usize
        ensures { result ≡ self.now.workdays }
    {
        self.workdays
    }
}
