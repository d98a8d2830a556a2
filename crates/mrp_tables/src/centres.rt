//! The work centres' table.

ghost use Rattle.std.specs.Prelude.{◌≡◌, length, IfOk};
ghost use Rattle.mrp_tables.specs.Centres.{centre_cells};
ghost use Rattle.mrp_tables.specs.Facts.{IsCentre};

use crate::limits::{MOST_MINUTES, most_records};
use crate::reading::{TableRows, read_table};
use crate::rows::Centre;
use indexmap::IndexSet;
use mrp_rows::faults::{NO_MEMORY, REPEATED};
use mrp_rows::{Fault, Name, Row, Sections, Table};
use std::alloc::Global;
use std::marker::Model;

/// The work centres in table order, with their names for look-ups.
#[derive(Drop)]
pub(crate) struct Centres {
    centres: Vec<Centre>,
    names: IndexSet<Name>,
}

impl Model for Centres {
    ghost use Rattle.std.specs.Prelude.{List, ◌≡◌, All};
    ghost use Rattle.mrp_tables.specs.declared.rows.Centre.{Centre};
    ghost use Rattle.mrp_tables.specs.Centres.{centre_names};
    ghost use Rattle.mrp_tables.specs.Facts.{AllDiffer, IsCentre};

    ghost Value = { List Centre };

    ghost view = { λ t. t.centres.items };

    ghost invariant = { λ t. record {
      keys : t.names.keys ≡ centre_names t.centres.items;
      within : All IsCentre t.centres.items;
      distinct : AllDiffer (centre_names t.centres.items);
    } };
}

impl TableRows for Centres {
    type Line = Centre;

    ghost use Rattle.mrp_tables.specs.Gathered.{nothing};
    ghost use Rattle.std.specs.Prelude.{◌≡◌};
    ghost use Rattle.mrp_rows.specs.declared.fault.Table.TheVariants as own;
    ghost use Rattle.mrp_tables.specs.Reading.{reads_of};
    ghost use Rattle.mrp_tables.specs.Centres.{centre_row};

    ghost takes = { λ given count. count ≡ 2 };

    ghost rows = { λ t. t };

    ghost reads = { λ t. reads_of own.Centres (centre_row) };

    ghost beside = { λ t. nothing };

    fn most_records(&self) -> Option<u32> {
        most_records(Table::Centres)
    }

    fn add(&mut self, row: &Row) -> Result<(), Fault> {
        let centre = centre_cells(row)?;
        if self.names.contains(&centre.name) {
            return Err(row.fault(REPEATED));
        }
        if self.centres.push(centre).is_err() {
            return Err(row.fault(NO_MEMORY));
        }
        if self.names.insert(centre.name).is_err() {
            let _ = self.centres.pop();
            return Err(row.fault(NO_MEMORY));
        }
        Ok(())
    }
}

#[tactic(auto, unfolding(crate::specs::Centres::centre_cells))]
fn centre_cells(row: &Row) -> Result<Centre, Fault>
    requires { length row.now.cells ≡ 2 }
    ensures cells { result ≡ centre_cells row.now }
    ensures within { IfOk result IsCentre }
{
    let name = row.name(0)?;
    let minutes = row.number(1, 0, MOST_MINUTES)?;
    Ok(Centre { name, minutes })
}

impl Centres {
    ghost use Rattle.std.specs.Prelude.{◌≡◌, ◌<◌, ◌≤◌, [], length, All, IfOk, IfSome};
    ghost use Rattle.mrp_tables.specs.declared.limits.TheConstants.{MOST_CENTRES};
    ghost use Rattle.mrp_tables.specs.Centres.{centre_names, centre_place};
    ghost use Rattle.mrp_tables.specs.Facts.{AllDiffer, IsCentre};
    ghost use Rattle.mrp_tables.specs.Readers.{GivesTable};

    pub(crate) fn read(alloc: Global, sections: &Sections<'_>) -> Result<Centres, Fault>
        ensures table { GivesTable sections.now Table.Centres result (λ centres. centres) }
        ensures count { IfOk result (λ centres. length centres ≤ MOST_CENTRES) }
    {
        read_table(alloc, sections, Table::Centres, Centres::new(alloc))
    }

    fn new(alloc: Global) -> Centres
        ensures { result ≡ [] }
    {
        Centres {
            centres: Vec::new(alloc),
            names: IndexSet::new(alloc),
        }
    }

    // The place of a name.
    pub(crate) fn find(&self, name: &Name) -> Option<usize>
        ensures place { result ≡ centre_place name.now self.now }
        ensures within { IfSome result (λ place. place < length self.now) }
    {
        self.names.get_index_of(name)
    }

    pub(crate) fn into_rows(self) -> Vec<Centre>
        ensures rows { result.items ≡ self }
        ensures within { All IsCentre result.items }
        ensures distinct { AllDiffer (centre_names result.items) }
    {
        let Centres { centres, names: _ } = self;
        centres
    }
}
