//! Pages that are filled in parallel.

ghost use Rattle.std.specs.Prelude.{◌≡◌, ◌≤◌, ◌++◌, All, IfOk, IfSome, None, OnErr, OnOk, Some, false, true};
ghost use Rattle.mrp_report.specs.wave.Chunks.{IsMade, count_of, rows_from};

use crate::page::Page;
use crate::wave::cut::Chunks;
use mrp_qty::NoMemory;
use std::alloc::Global;
use std::mem;

// The bytes that most chunks do not exceed.
const ROOM_OF_A_CHUNK: usize = 393_216;

// A page for the rows of the chunk from a place, if there is one, and whether memory ran out for it.
#[derive(Drop)]
pub(crate) struct Slot {
    page: Page,
    chunk: Option<usize>,
    is_refused: bool,
}

impl Slot {
    // A page that has no chunk, and no memory.
    pub(crate) fn new(alloc: Global) -> Slot
        ensures { result.chunk ≡ None }
    {
        Slot {
            page: Page::new(alloc),
            chunk: None,
            is_refused: false,
        }
    }

    // A page on which the rows of the chunk from a place were put, or for which memory ran out.
    fn of(page: Page, from: usize, added: Result<(), NoMemory>) -> Slot
        ensures page { result.page ≡ page }
        ensures added { OnOk added ((result.chunk ≡ Some from) × (result.is_refused ≡ false)) }
        ensures refused { OnErr added ((result.chunk ≡ None) × (result.is_refused ≡ true)) }
    {
        Slot {
            page,
            chunk: if added.is_ok() { Some(from) } else { None },
            is_refused: added.is_err(),
        }
    }

    // Puts the rows of the chunk from a place on the page, and nothing else.
    pub(crate) fn fill(&mut self, alloc: Global, chunks: &Chunks<'_>, from: usize)
        requires { from ≤ count_of chunks.now }
        ensures { IsMade chunks.now self.new }
    {
        // Slots are neighbours in memory, and each row moves its page's end: a page filled in its slot would
        // make processors contend for one cache line at every row.
        let mut page = mem::replace(&mut self.page, Page::new(alloc));
        page.clear();
        let added = add_rows(alloc, chunks, from, &mut page);
        *self = Slot::of(page, from, added);
    }

    // Puts nothing on the page. Its memory stays.
    pub(crate) fn empty(&mut self)
        ensures { self.new.chunk ≡ None }
    {
        self.chunk = None;
        self.is_refused = false;
    }

    // The page, if it has the chunk from a place.
    //
    // Errors: `NoMemory` if memory ran out for the chunk that the page should have.
    fn page_of(&self, from: usize) -> Result<Option<&Page>, NoMemory>
        ensures page { IfOk result (λ found. IfSome found (λ page. (self.now.chunk ≡ Some from) × (page.now ≡ self.now.page))) }
        ensures refused { OnErr result (self.now.is_refused ≡ true) }
    {
        if self.is_refused {
            return Err(NoMemory);
        }
        match self.chunk {
            Some(first) if first == from => Ok(Some(&self.page)),
            _ => Ok(None),
        }
    }
}

// Adds the rows of the chunk from a place to a page, which gets room for them at once, in most cases: each growth
// may copy it.
fn add_rows(
    alloc: Global,
    chunks: &Chunks<'_>,
    from: usize,
    page: &mut Page,
) -> Result<(), NoMemory>
    requires { from ≤ count_of chunks.now }
    ensures { OnOk result (page.new ≡ page.old ++ rows_from chunks.now from 1) }
{
    page.reserve(ROOM_OF_A_CHUNK)?;
    chunks.add(alloc, page, from)
}

// The page of the chunk from a place.
//
// Errors: `NoMemory` if memory ran out for a chunk.
pub(crate) fn page_of(slots: &[Slot], from: usize) -> Result<Option<&Page>, NoMemory>
    ensures { (chunks : Chunks) → All (IsMade chunks) slots.now → IfOk result (λ found. IfSome found (λ page. page.now ≡ rows_from chunks from 1)) }
{
    for slot in slots {
        if let Some(page) = slot.page_of(from)? {
            return Ok(Some(page));
        }
    }
    Ok(None)
}
