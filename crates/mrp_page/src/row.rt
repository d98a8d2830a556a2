//! Rows of a day.

ghost use Rattle.std.specs.Prelude.{◌≡◌};
ghost use Rattle.csv.specs.Records.{fields_of};
ghost use Rattle.mrp_page.specs.Row.{cell_at, is_in, is_of};

use crate::cells::cell_of;
use crate::section::same_section;
use csv::ByteRecord;
use mrp_day::Section;
use std::marker::Model;

/// A row of a day and its section; contracts see it as the section and the cells.
#[derive(Drop)]
pub(crate) struct Row {
    section: Section,
    cells: ByteRecord,
}

impl Model for Row {
    ghost use Rattle.mrp_page.specs.Row.{RowView};
    ghost use Rattle.csv.specs.Records.{fields_of};

    ghost Value = { RowView };

    ghost view = { λ r. record { section = r.section; cells = fields_of r.cells } };
}

impl Row {
    pub(crate) fn new(section: Section, cells: ByteRecord) -> Row
        ensures { result ≡ record { section = section; cells = fields_of cells } }
    {
        Row { section, cells }
    }

    /// The bytes of a cell, counted from 0; empty if the row has no such cell.
    pub(crate) fn cell(&self, column: usize) -> &[u8]
        ensures { result.now ≡ cell_at self.now column }
    {
        cell_of(&self.cells, column)
    }

    /// Whether the row stands in this section.
    pub(crate) fn is_in(&self, section: Section) -> bool
        ensures { result ≡ is_in section self.now }
    {
        same_section(self.section, section)
    }

    /// The name of the row's item or work centre: its first cell.
    pub(crate) fn name(&self) -> &[u8]
        ensures { result.now ≡ cell_at self.now 0 }
    {
        self.cell(0)
    }

    /// Whether the row is of this item or work centre.
    pub(crate) fn is_of(&self, name: &[u8]) -> bool
        ensures { result ≡ is_of name.now self.now }
    {
        self.name() == name
    }
}
