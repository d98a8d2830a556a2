//! A record's first cells, of any text.

use crate::cell_texts::CellTexts;
use crate::cutting::cut_record;
use mrp_qty::NoMemory;
use std::alloc::Global;
use std::marker::Model;

/// A record's first cells, how many cells it has, and whether the others are empty. A record of many cells
/// takes no memory for the others.
#[derive(Drop)]
pub struct Record {
    texts: CellTexts,
    count: usize,
    are_others_empty: bool,
}

impl Model for Record {
    ghost use Rattle.mrp_rows.specs.Shown.{Shown};

    ghost Value = { Shown };

    ghost view = { λ r. record { first = r.texts.cells; count = r.count; are_others_empty = r.are_others_empty } };
}

impl Record {
    ghost use Rattle.std.specs.Prelude.{◌≡◌, [], IfOk, length, slice_index_or};
    ghost use Rattle.csv.specs.declared.parser.State.TheVariants as st;
    ghost use Rattle.mrp_rows.specs.Cutting.{BeginsWith};
    ghost use Rattle.mrp_rows.specs.Shown.{nothing_shown};

    /// A record without cells, which takes no memory.
    pub fn new(alloc: Global) -> Record
        ensures { result ≡ nothing_shown }
    {
        Record::of(CellTexts::new(alloc), 0, true)
    }

    pub(crate) fn of(texts: CellTexts, count: usize, are_others_empty: bool) -> Record
        ensures { result ≡ record { first = texts.cells; count = count; are_others_empty = are_others_empty } }
    {
        Record {
            texts,
            count,
            are_others_empty,
        }
    }

    // Reads the record that a text begins with, which begins with no line end, and returns the text behind it.
    pub(crate) fn read<'a>(&mut self, text: &'a [u8], most: usize) -> Result<&'a [u8], NoMemory>
        ensures { IfOk result (λ rest. BeginsWith st.StartField text.now most self.new.first self.new.count self.new.are_others_empty rest.now) }
    {
        self.texts.clear();
        let end = cut_record(text, most, &mut self.texts)?;
        self.count = end.count;
        self.are_others_empty = end.are_others_empty;
        Ok(end.rest)
    }

    /// How many cells it has.
    pub fn count(&self) -> usize
        ensures { result ≡ self.now.count }
    {
        let Record { count, .. } = self;
        *count
    }

    /// How many of them are kept, the first.
    pub fn kept(&self) -> usize
        ensures { result ≡ length self.now.first }
    {
        self.texts.len()
    }

    /// The bytes of a cell that is kept, by its column from 0; empty past these.
    pub fn cell(&self, column: usize) -> &[u8]
        ensures { result.now ≡ slice_index_or self.now.first column [] }
    {
        if column < self.texts.len() {
            self.texts.get(column)
        } else {
            b""
        }
    }

    /// Whether the cells that are not kept are empty.
    pub fn are_others_empty(&self) -> bool
        ensures { result ≡ self.now.are_others_empty }
    {
        let Record {
            are_others_empty,
            ..
        } = self;
        *are_others_empty
    }

    /// The same record, in memory of its own.
    ///
    /// Errors: `NoMemory` if an allocation fails.
    pub fn clone(&self) -> Result<Record, NoMemory>
        ensures { IfOk result (λ own. own ≡ self.now) }
    {
        let texts = self.texts.clone()?;
        Ok(Record::of(texts, self.count, self.are_others_empty))
    }
}
