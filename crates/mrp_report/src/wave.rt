//! How the rows of a section reach the writer: in turn, or in chunks that are made in parallel, wave by wave.

ghost use denote.Param.Send.{IsSync};
ghost use Rattle.std.specs.Prelude.{◌≡◌, ◌≤◌, All};
ghost use Rattle.mrp_report.specs.wave.Chunks.{IsMade, count_of, rows_from, rows_in};
ghost use Rattle.mrp_report.specs.Written.{Writes};

mod chunks;
mod claims;
mod cut;
mod in_turn;
mod pages;
mod slot;

use crate::fault::ReportFault;
use crate::page::Page;
use claims::Wave;
pub(crate) use cut::Chunks;
pub(crate) use in_turn::write_in_turn;
use mrp_rows::{Told, Tries};
use pages::OF_EACH;
pub(crate) use pages::Pages;
use slot::{Slot, page_of};
use std::alloc::Global;
use std::io::Write;
use std::thread;
use std::thread::Threads;

// Makes a chunk that no thread has claimed, if there is one.
fn fill_next(alloc: Global, chunks: &Chunks<'_>, wave: &Wave, slot: &mut Slot)
    ensures { IsMade chunks.now slot.new }
{
    match wave.claim(chunks) {
        Some(from) => slot.fill(alloc, chunks, from),
        None => slot.empty(),
    }
}

// Makes chunks as long as there are some, and pages.
fn fill_pages(alloc: Global, chunks: &Chunks<'_>, wave: &Wave, slots: &mut [Slot])
    ensures { All (IsMade chunks.now) slots.new }
{
    for slot in slots.iter_mut() {
        fill_next(alloc, chunks, wave, slot);
    }
}

// Makes the chunks of a wave: the last pages are filled by this thread, those of each other worker in a thread
// of its own if one can be started. This thread starts them all. When started threads started others, two of
// them shared a processor in each wave while another processor was idle.
#[cycle(wave)]
fn fill_wave<R: Threads + Sync>(
    rt: &R,
    alloc: Global,
    chunks: &Chunks<'_>,
    wave: &Wave,
    slots: &mut [Slot],
)
    ensures { All (IsMade chunks.now) slots.new }
{
    if slots.len() <= OF_EACH {
        fill_pages(alloc, chunks, wave, slots);
        return;
    }
    let (own, rest) = slots.split_at_mut(OF_EACH);
    fill_parallel(rt, alloc, chunks, wave, own, rest);
}

// Fills the pages of a worker in a thread of its own, and meanwhile those of the others.
#[cycle(wave)]
fn fill_parallel<R: Threads + Sync>(
    rt: &R,
    alloc: Global,
    chunks: &Chunks<'_>,
    wave: &Wave,
    own: &mut [Slot],
    rest: &mut [Slot],
)
    ensures own { All (IsMade chunks.now) own.new }
    ensures rest { All (IsMade chunks.now) rest.new }
{
    let mut beside = ||
        ensures { All (IsMade chunks.entry.now) own.exit.now }
    { fill_pages(alloc, chunks, wave, own) };
    let mut here = ||
        requires { IsSync R.row }
        ensures { All (IsMade chunks.entry.now) rest.exit.now }
    { fill_wave(rt, alloc, chunks, wave, rest) };
    thread::join_mut(rt, &mut beside, &mut here);
}

// Writes the chunk from a place. No clause says that a counter gives each number once: a chunk that is on no
// page is made here.
fn write_chunk<W: Write>(
    alloc: Global,
    chunks: &Chunks<'_>,
    from: usize,
    slots: &[Slot],
    writer: &mut Told<W>,
    tries: &mut Tries,
) -> Result<(), ReportFault>
    requires made { All (IsMade chunks.now) slots.now }
    requires from { from ≤ count_of chunks.now }
    ensures { Writes W.contents writer.old writer.new (rows_from chunks.now from 1) tries.old tries.new result }
{
    if let Some(page) = page_of(slots, from)? {
        return page.write(writer, tries);
    }
    let mut page = Page::new(alloc);
    chunks.add(alloc, &mut page, from)?;
    page.write(writer, tries)
}

// Makes a wave, and writes its chunks in order.
fn write_wave<W: Write>(
    rt: &(impl Threads + Sync),
    alloc: Global,
    chunks: &Chunks<'_>,
    wave: &Wave,
    slots: &mut [Slot],
    writer: &mut Told<W>,
    tries: &mut Tries,
) -> Result<(), ReportFault>
    requires from { wave.now.from ≤ count_of chunks.now }
    ensures { Writes W.contents writer.old writer.new (rows_from chunks.now wave.now.from wave.now.count) tries.old tries.new result }
{
    fill_wave(rt, alloc, chunks, wave, slots);
    for k in 0..wave.count {
        let from = chunks.reach(wave.from, k);
        write_chunk(alloc, chunks, from, slots, writer, tries)?;
    }
    Ok(())
}

/// Writes the rows of a section, wave by wave. Each wave reuses the memory of the pages.
///
/// Errors: `Write` if a write failed in this call or was interrupted with no try left; otherwise
/// `NoMemory` if an allocation fails. A prefix of the rows has been written then.
pub(crate) fn write_waves<W: Write>(
    rt: &(impl Threads + Sync),
    alloc: Global,
    chunks: &Chunks<'_>,
    pages: &mut Pages,
    writer: &mut Told<W>,
    tries: &mut Tries,
) -> Result<(), ReportFault>
    ensures { Writes W.contents writer.old writer.new (rows_in chunks.now) tries.old tries.new result }
{
    let count = chunks.count();
    let most = chunks.in_wave(pages.workers);
    let slots = pages.slots.as_mut_slice();
    let mut from = 0;
    while from < count {
        let size = chunks.left(from).min(most);
        let wave = Wave::new(from, size);
        let used = OF_EACH.saturating_mul(size).min(slots.len());
        write_wave(rt, alloc, chunks, &wave, &mut slots[..used], writer, tries)?;
        from = chunks.reach(from, size);
    }
    Ok(())
}
