//! The texts of a record's cells, one after the other.

ghost use Rattle.std.specs.Prelude.{◌≡◌, ◌<◌, ◌++◌, ◌∷◌, [], IfOk, OnOk, length, slice_index_or};
ghost use Rattle.mrp_rows.specs.CellTexts.{none_held};
ghost use Rattle.mrp_rows.specs.PlainLines.{IsTaken};

use crate::plain_lines::copy_line;
use mrp_qty::NoMemory;
use std::alloc::Global;
use std::marker::Model;

// Initial capacity for a record's bytes: most are shorter, and a longer one grows it.
const USUAL_LENGTH: usize = 64;

/// The texts of cells; contracts see them, and the bytes of a cell that is begun.
#[derive(Drop)]
pub(crate) struct CellTexts {
    bytes: Vec<u8>,
    // Where each cell starts and ends.
    places: Vec<(usize, usize)>,
    // Where the cell starts that is begun.
    begun: usize,
}

impl Model for CellTexts {
    ghost use Rattle.mrp_rows.specs.CellTexts.{Held, IsHeld, held_in};

    ghost Value = { Held };

    ghost view = { held_in };

    ghost invariant = { IsHeld };
}

impl CellTexts {
    /// No cell, with room for so many.
    ///
    /// Errors: `NoMemory` if an allocation fails.
    pub(crate) fn with_room(alloc: Global, cells: usize) -> Result<CellTexts, NoMemory>
        ensures { IfOk result (λ texts. texts ≡ none_held) }
    {
        let bytes = Vec::with_capacity(alloc, USUAL_LENGTH)?;
        let places = Vec::with_capacity(alloc, cells)?;
        Ok(CellTexts {
            bytes,
            places,
            begun: 0,
        })
    }

    /// No cell, and no memory for any.
    pub(crate) fn new(alloc: Global) -> CellTexts
        ensures { result ≡ none_held }
    {
        CellTexts {
            bytes: Vec::new(alloc),
            places: Vec::new(alloc),
            begun: 0,
        }
    }

    /// The same texts, in memory of their own.
    ///
    /// Errors: `NoMemory` if an allocation fails.
    pub(crate) fn clone(&self) -> Result<CellTexts, NoMemory>
        ensures { IfOk result (λ texts. texts ≡ self.now) }
    {
        let bytes = self.bytes.clone()?;
        let places = self.places.clone()?;
        Ok(CellTexts {
            bytes,
            places,
            begun: self.begun,
        })
    }

    /// Takes all cells away.
    pub(crate) fn clear(&mut self)
        ensures { self.new ≡ none_held }
    {
        self.bytes.clear();
        self.places.clear();
        self.begun = 0;
    }

    /// How many cells there are.
    pub(crate) fn len(&self) -> usize
        ensures { result ≡ length self.now.cells }
    {
        self.places.len()
    }

    /// The cell at this place.
    pub(crate) fn get(&self, place: usize) -> &[u8]
        requires { place < length self.now.cells }
        ensures { result.now ≡ slice_index_or self.now.cells place [] }
    {
        let (start, end) = self.places.as_slice()[place];
        &self.bytes.as_slice()[start..end]
    }

    /// Adds bytes to the cell that is begun.
    pub(crate) fn add(&mut self, piece: &[u8]) -> Result<(), NoMemory>
        ensures { OnOk result (self.new ≡ record self.old { begun = self.old.begun ++ piece.now }) }
    {
        self.bytes.extend_from_slice(piece)?;
        Ok(())
    }

    /// Adds a byte to it.
    pub(crate) fn add_byte(&mut self, byte: u8) -> Result<(), NoMemory>
        ensures { OnOk result (self.new ≡ record self.old { begun = self.old.begun ++ (byte ∷ []) }) }
    {
        self.bytes.push(byte)?;
        Ok(())
    }

    /// Ends it.
    pub(crate) fn close(&mut self) -> Result<(), NoMemory>
        ensures { OnOk result (self.new ≡ record { cells = self.old.cells ++ (self.old.begun ∷ []); begun = [] }) }
    {
        let end = self.bytes.len();
        self.places.push((self.begun, end))?;
        self.begun = end;
        Ok(())
    }

    /// Takes the record that a text begins with in place of these cells, where its own stand in one line without quotes, so many at
    /// most, and returns its length with the byte that ends it. It is not taken where it may be the last.
    ///
    /// Errors: `NoMemory` if an allocation fails.
    pub(crate) fn take_line(&mut self, text: &[u8], most: usize) -> Result<Option<usize>, NoMemory>
        ensures { IfOk result (IsTaken text.now most self.new) }
    {
        self.bytes.clear();
        self.places.clear();
        let taken = copy_line(text, most, &mut self.bytes, &mut self.places);
        self.begun = self.bytes.len();
        taken
    }
}
