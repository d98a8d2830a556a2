//! A record of a table, and what its cells are read as.

ghost use Rattle.std.specs.Prelude.{◌≡◌};
ghost use Rattle.mrp_survey.specs.Entries.{are_empty, are_empty_from};

use crate::finding::Place;
use crate::form::{Form, cell_in, kind_of};
use crate::kind::{Kind, read_within, read_word, wrong};
use jiff::civil::Date;
use mrp_cal::read_date;
use mrp_rows::{Name, Table};
use std::marker::Model;

// A record of a table.
#[derive(Drop)]
pub(crate) struct Record<'a> {
    pub(crate) form: Form,
    pub(crate) place: Place,
    pub(crate) row: &'a mrp_rows::Record,
}

impl<'a> Model for Record<'a> {
    ghost use Rattle.mrp_survey.specs.Entry.{Entry};

    ghost Value = { Entry };

    ghost view = { λ r. record { form = r.form; place = r.place; row = r.row.now } };
}

impl<'a> Record<'a> {
    ghost use Rattle.std.specs.Prelude.{◌≡◌};
    ghost use Rattle.mrp_survey.specs.Entries.{date_in, kind_in, name_in, number_in, word_in, wrong_in};

    pub(crate) fn of(form: Form, place: Place, row: &'a mrp_rows::Record) -> Record<'a>
        ensures { result ≡ record { form = form; place = place; row = row.now } }
    {
        Record { form, place, row }
    }

    // How many cells it has.
    pub(crate) fn len(&self) -> usize
        ensures { result ≡ self.now.row.count }
    {
        self.row.count()
    }

    pub(crate) fn table(&self) -> Table
        ensures { result ≡ self.now.form.table }
    {
        self.form.table
    }

    // Of which kind a cell has to be.
    pub(crate) fn kind(&self, column: usize) -> Kind
        ensures { result ≡ kind_in self.now column }
    {
        kind_of(self.form, self.place.number, self.row, column)
    }

    // The number of the fault of a cell that is not of its kind.
    pub(crate) fn wrong(&self, column: usize) -> Option<u8>
        ensures { result ≡ wrong_in self.now column }
    {
        wrong(self.kind(column), cell_in(self.row, column))
    }

    // A right cell's name.
    pub(crate) fn name(&self, column: usize) -> Option<Name>
        ensures { result ≡ name_in self.now column }
    {
        match self.kind(column) {
            Kind::Name => Name::new(cell_in(self.row, column)),
            _ => None,
        }
    }

    // A right cell's number.
    pub(crate) fn number(&self, column: usize) -> Option<u64>
        ensures { result ≡ number_in self.now column }
    {
        match self.kind(column) {
            Kind::Number { least, most } => read_within(
                cell_in(self.row, column),
                least,
                most,
            ).ok(),
            _ => None,
        }
    }

    // A right cell's date.
    pub(crate) fn date(&self, column: usize) -> Option<Date>
        ensures { result ≡ date_in self.now column }
    {
        match self.kind(column) {
            Kind::Date => read_date(cell_in(self.row, column)),
            _ => None,
        }
    }

    // The place of a right cell's word.
    pub(crate) fn word(&self, column: usize) -> Option<usize>
        ensures { result ≡ word_in self.now column }
    {
        match self.kind(column) {
            Kind::Word(words) => read_word(cell_in(self.row, column), words),
            _ => None,
        }
    }
}

/// Whether all cells of a record are empty from a column on, one that is kept or the first that is not.
pub fn are_empty_from(row: &mrp_rows::Record, place: usize) -> bool
    ensures { result ≡ are_empty_from row.now place }
{
    for column in place..row.kept() {
        if !cell_in(row, column).is_empty() {
            return false;
        }
    }
    row.are_others_empty()
}

// Whether all cells of a record are empty.
pub(crate) fn are_empty(row: &mrp_rows::Record) -> bool
    ensures { result ≡ are_empty row.now }
{
    are_empty_from(row, 0)
}
