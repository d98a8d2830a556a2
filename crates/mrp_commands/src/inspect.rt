//! Inspecting the tables of a folder, as the words of the command line ask.

ghost use Rattle.std.specs.Prelude.{◌≡◌, OnErr, OnOk, flat_map, option_map, string_bytes};
ghost use Rattle.mrp_report.specs.Written.{HasGivenUp, HasTakenFront};
ghost use Rattle.mrp_report.specs.Taken.{HasTakenAll};
ghost use Rattle.mrp_commands.specs.Telling.{Says};
ghost use Rattle.mrp_commands.specs.InspectEnds.{InspectEnds, InspectEndsIn, TellsInspected, inspected_end};

use crate::ending::{Ending, write_whole};
use mrp_inspect::{Inspected, find_files, inspect};
use mrp_qty::NoMemory;
use mrp_rows::{Told, WRITE_TRIES, WriteFault};
use mrp_words::FileStore;
use std::alloc::Global;
use std::io::Write;
use std::thread::Threads;

// The end of an inspection that was written whole, by whether faults were told.
fn inspected_end(has_faults: bool) -> Ending
    ensures { result ≡ inspected_end has_faults }
{
    if has_faults {
        Ending::Wrong
    } else {
        Ending::Done
    }
}

// Writes texts, one behind the other.
fn write_texts<W: Write>(output: &mut Told<W>, texts: &[String]) -> Result<(), WriteFault>
    ensures whole { OnOk result (HasTakenAll W.contents output.old output.new (flat_map string_bytes texts.now)) }
    ensures front { OnErr result (HasTakenFront W.contents output.old output.new (flat_map string_bytes texts.now)) }
    ensures gave_up { OnErr result (HasGivenUp output.old output.new WRITE_TRIES) }
{
    for text in texts {
        write_whole(output, text.as_bytes())?;
    }
    Ok(())
}

// Writes what is told of files.
fn write_inspected<W: Write>(inspected: &Inspected, output: &mut Told<W>) -> Ending
    ensures { Says W.contents output.old output.new (flat_map string_bytes inspected.now.texts.items) (inspected_end inspected.now.has_faults) result }
{
    match write_texts(output, inspected.texts.as_slice()) {
        Ok(()) => inspected_end(inspected.has_faults),
        Err(_) => Ending::Write,
    }
}

// The same, unless memory ran out.
fn tell_inspected<W: Write>(inspected: &Result<Inspected, NoMemory>, output: &mut Told<W>) -> Ending
    ensures { TellsInspected W.contents output.old output.new inspected.now result }
{
    match inspected {
        Ok(inspected) => write_inspected(inspected, output),
        Err(_) => Ending::NoMemory,
    }
}

// Inspects the files of a folder.
fn inspect_folder<F: FileStore, W: Write>(
    rt: &(impl Threads + Sync),
    alloc: Global,
    files: &F,
    folder: &str,
    output: &mut Told<W>,
) -> Ending
    ensures { InspectEnds (F.known files.now) folder.now W.contents output.old output.new result }
{
    match find_files(files, alloc, folder) {
        Ok(found) => {
            let inspected = inspect(rt, alloc, &found);
            tell_inspected(&inspected, output)
        }
        Err(fault) => Ending::of_read(fault),
    }
}

/// Inspects the files of the folder that is named, writes what is told of them to the output, and returns
/// how that ended.
pub fn inspect_asked<F: FileStore, W: Write>(
    rt: &(impl Threads + Sync),
    alloc: Global,
    files: &F,
    folder: &Option<String>,
    output: &mut Told<W>,
) -> Ending
    ensures { InspectEndsIn (F.known files.now) (option_map string_bytes folder.now) W.contents output.old output.new result }
{
    match folder {
        Some(folder) => inspect_folder(rt, alloc, files, folder, output),
        None => Ending::Usage(String::new(alloc)),
    }
}
