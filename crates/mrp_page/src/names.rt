//! The names of the items that a page is asked to show.

ghost use Rattle.std.specs.Prelude.{◌≡◌, [], IfOk, map};
ghost use Rattle.csv.specs.Records.{fields_of};
ghost use Rattle.mrp_page.specs.Names.{names_of, record_names};

use crate::cells::cell_of;
use crate::read::read_cells;
use csv::{ByteRecord, ReaderBuilder};
use mrp_qty::NoMemory;
use std::alloc::Global;
use std::marker::Model;

/// Names of items; contracts see them as their list.
#[derive(Drop)]
pub struct ItemNames {
    cells: ByteRecord,
}

impl Model for ItemNames {
    ghost use Rattle.std.specs.Prelude.{List, ℕ};
    ghost use Rattle.csv.specs.Records.{fields_of};

    ghost Value = { List (List ℕ) };

    ghost view = { λ names. fields_of names.cells };
}

impl ItemNames {
    /// No names.
    pub fn new(alloc: Global) -> ItemNames
        ensures { result ≡ [] }
    {
        ItemNames {
            cells: ByteRecord::new(alloc),
        }
    }

    // The names of a record, if one was found.
    fn of(alloc: Global, found: bool, cells: ByteRecord) -> ItemNames
        ensures { result ≡ record_names found (fields_of cells) }
    {
        if found {
            ItemNames { cells }
        } else {
            ItemNames::new(alloc)
        }
    }

    /// The names in a line, which is a csv record: `A,B`, or `"A,B",C` if a name has a comma.
    ///
    /// Errors: `NoMemory` if an allocation fails.
    pub fn read(alloc: Global, line: &[u8]) -> Result<ItemNames, NoMemory>
        ensures { IfOk result (λ names. names ≡ names_of line.now) }
    {
        let mut reader = ReaderBuilder::new()
            .has_headers(false)
            .flexible(true)
            .from_reader(alloc, line);
        let mut cells = ByteRecord::new(alloc);
        match read_cells(&mut reader, &mut cells) {
            Ok(found) => Ok(ItemNames::of(alloc, found, cells)),
            Err(_) => Err(NoMemory),
        }
    }

    /// The names as a list of slices.
    ///
    /// Errors: `NoMemory` if an allocation fails.
    pub fn slices(&self, alloc: Global) -> Result<Vec<&[u8]>, NoMemory>
        ensures { IfOk result (λ slices. map (λ s. s.now) slices.items ≡ self.now) }
    {
        let mut slices = Vec::new(alloc);
        for place in 0..self.cells.len() {
            slices.push(cell_of(&self.cells, place))?;
        }
        Ok(slices)
    }
}
