//! An order desk, from its start to its end, with a thread that makes the files of its runs.

ghost use Rattle.std.specs.Prelude.{◌≡◌, ◌≢◌, ◌<◌, ◌↔◌, ◌⊎◌, ℕ, true, IfErr, IfOk, IfSome, IsTrue, OnErr, OnOk, codes};
ghost use Rattle.std.specs.Int.{IsInRange};
ghost use Rattle.std.specs.List.{All};
ghost use Rattle.std.specs.Path.{path_join};
ghost use Rattle.mrp_journal.specs.Held.{IsSettled};
ghost use Rattle.mrp_folder.specs.Disk.{part_of, path_of as folder_path};
ghost use Rattle.mrp_folder.specs.Sealed.{journal_of};
ghost use Rattle.mrp_engine.specs.declared.day.run.TheConstants.{MOST_WORKERS};
ghost use Rattle.mrp_words.specs.Folder.{IsThere};
ghost use Rattle.mrp_commands.specs.Telling.{words_of};
ghost use Rattle.mrp_commands.specs.declared.ending.Ending.TheVariants as ending;
ghost use Rattle.mrp_book.specs.declared.reply.Reply.TheVariants as reply;
ghost use Rattle.mrp_runs.specs.File.{IsRun, run_name};
ghost use Rattle.mrp_runs.specs.declared.run.Run.{Run};
ghost use Rattle.mrp_open.specs.Disk.{opening_of, path_of};
ghost use Rattle.mrp_open.specs.Ends.{DeskEnds, FailsToBegin, FailsToStart, FailsWithLock, IsServed, IsTold, ServesPrepared, TellsEnd};
ghost use Rattle.mrp_open.specs.Made.{MakesAll};
ghost use Rattle.mrp_open.specs.Opening.{FailsToAnswer, FailsToServe, FailsToWrite, IsUntouched, with_failures};
ghost use Rattle.mrp_open.specs.Runs.{HandsAllMissing, HandsMissing, IsRunOf, handed_of};
ghost use Rattle.mrp_open.specs.Served.{MakesUp, sealed_stand, source_of, stand_of};

use crate::batches::{RunTaker, hand_run, serve};
use crate::beginning::{BegunDesk, begin_desk};
use crate::disk::{DeskFolder, LockFault, has_file};
use crate::handing::{Given, RunKind, RunReceiver, RunSender, RunSource, make_all};
use crate::notes::Notes;
use crate::opening::tell_cut;
use crate::start::{Prepared, prepare};
use crate::whole_lines::WholeLines;
use crossbeam_channel::unbounded;
use mrp_book::{Call, Entry, Reply, Snapshot};
use mrp_calls::OpenDesk;
use mrp_commands::Ending;
use mrp_engine::MOST_WORKERS;
use mrp_folder::{DiskFolder, Folder};
use mrp_journal::Store;
use mrp_qty::NoMemory;
use mrp_rows::{Told, WRITE_TRIES};
use mrp_runs::{RunMaker, run_name};
use mrp_words::FileStore;
use std::alloc::Global;
use std::fs::File;
use std::io::{Read, Write};
use std::marker::Brand;
use std::rt::Files;
use std::sync::Wait;
use std::thread;
use std::thread::Threads;

// The name that a run's file is begun with.
const RUN_PART: &str = "run.part";

// Whether the file of a run is there.
fn has_run<F: FileStore>(
    files: &F,
    alloc: Global,
    folder: &str,
    front: u64,
) -> Result<bool, NoMemory>
    ensures { IfOk result (IsThere (F.known files.now) (path_join folder.now (run_name front))) }
{
    let name = run_name(alloc, front)?;
    has_file(files, alloc, folder, &name)
}

// Hands over a run whose file is not there.
fn hand_missing_run<F: FileStore, T: RunTaker>(
    files: &F,
    alloc: Global,
    folder: &str,
    desk: u64,
    snapshot: &Snapshot,
    taker: &mut T,
)
    requires { T.takes (record { desk = desk; snapshot = snapshot.now }) }
    ensures { HandsMissing (F.known files.now) folder.now desk (reply.Taken snapshot.now) (handed_of T.told T.given taker.old) (handed_of T.told T.given taker.new) }
{
    match has_run(files, alloc, folder, snapshot.front()) {
        Ok(true) => {}
        Ok(false) => hand_run(desk, snapshot, taker),
        Err(NoMemory) => taker.miss(snapshot.front()),
    }
}

// Hands over an entry, if it is a run whose file is not there.
fn hand_missing<F: FileStore, T: RunTaker>(
    files: &F,
    alloc: Global,
    folder: &str,
    entry: &Entry<Call, Reply>,
    taker: &mut T,
)
    requires { IsRunOf T.takes entry.now }
    ensures { HandsMissing (F.known files.now) folder.now entry.now.who entry.now.reply (handed_of T.told T.given taker.old) (handed_of T.told T.given taker.new) }
{
    match &entry.reply {
        Reply::Taken(snapshot) => {
            hand_missing_run(files, alloc, folder, entry.who, snapshot, taker)
        }
        _ => {}
    }
}

/// Hands over the runs of a journal whose files are not in its folder.
pub fn hand_over_missing<F: FileStore, T: RunTaker>(
    files: &F,
    alloc: Global,
    folder: &str,
    entries: &[Entry<Call, Reply>],
    taker: &mut T,
)
    requires { All (IsRunOf T.takes) entries.now }
    ensures { HandsAllMissing (F.known files.now) folder.now entries.now (handed_of T.told T.given taker.old) (handed_of T.told T.given taker.new) }
{
    for entry in entries {
        hand_missing(files, alloc, folder, entry, taker);
    }
}

// Hands over the runs of the journal whose files are not there, and answers calls until the input ends or something
// fails. Nothing but how it ends is told: what was cut off was told before.
fn serve_told<F: FileStore, S: Store, I: Read, W: Write, E: Write, T: RunTaker>(
    rt: &impl Wait,
    alloc: Global,
    files: &F,
    folder: &str,
    desk: &mut OpenDesk<'_>,
    journal: &mut S,
    input: &mut Told<I>,
    output: &mut Told<W>,
    errors: &mut Told<E>,
    taker: &mut T,
) -> Ending
    requires settled { IfSome (S.held journal.old) IsSettled }
    requires taken { (run : Run) → IsRun desk.old.tables run → T.takes run }
    ensures served { MakesUp (F.known files.now) folder.now (source_of I.remaining input.old) (source_of I.remaining input.new)
        (stand_of S.held S.failures W.contents desk.old journal.old output.old)
        (stand_of S.held S.failures W.contents desk.new journal.new output.new) (handed_of T.told T.given taker.old) (handed_of T.told T.given taker.new) result }
    ensures told { IsTold E.contents errors.old errors.new (words_of result) }
    ensures closed { T.closed taker.new ≡ true }
{
    hand_over_missing(files, alloc, folder, desk.entries(), taker);
    let end = serve(rt, alloc, desk, journal, input, output, taker);
    taker.close();
    let _ = end.tell(errors);
    end
}

// Answers calls, and makes the files of runs in a thread of their own, if one can be started, otherwise once the
// input has ended: first those of the journal that are not there. How it ends is told before the last runs are made.
fn serve_and_make<
    G: RunSource + Send,
    F: FileStore,
    S: Store,
    R: Alloc<A = Global> + Threads + Wait + Sync,
    D: Folder + Send,
    N: Write + Send,
    I: Read,
    W: Write,
    E: Write,
    T: RunTaker,
>(
    rt: &R,
    alloc: Global,
    files: &F,
    folder: &str,
    maker: &mut RunMaker<'_>,
    from: &mut G,
    into: &mut D,
    notes: &mut Told<N>,
    desk: &mut OpenDesk<'_>,
    journal: &mut S,
    input: &mut Told<I>,
    output: &mut Told<W>,
    errors: &mut Told<E>,
    taker: &mut T,
) -> Ending
where
    D::Part: Send,
    requires given { (run : Run) → G.gives run → IsRun maker.old run }
    requires settled { IfSome (S.held journal.old) IsSettled }
    requires taken { (run : Run) → IsRun desk.old.tables run → T.takes run }
    ensures served { MakesUp (F.known files.now) folder.now (source_of I.remaining input.old) (source_of I.remaining input.new)
        (stand_of S.held S.failures W.contents desk.old journal.old output.old)
        (stand_of S.held S.failures W.contents desk.new journal.new output.new) (handed_of T.told T.given taker.old) (handed_of T.told T.given taker.new) result }
    ensures told { IsTold E.contents errors.old errors.new (words_of result) }
    ensures closed { T.closed taker.new ≡ true }
    ensures made { MakesAll D.Part N.contents maker.old (G.left from.old) (D.failures into.old) (D.failures into.new) (D.named into.old) (D.named into.new) notes.old notes.new }
{
    let mut beside = ||
        requires { (run : Run) → G.gives run → IsRun maker.now run }
        ensures { MakesAll D.Part N.contents maker.entry.now (G.left from.entry.now) (D.failures into.entry.now) (D.failures into.exit.now) (D.named into.entry.now) (D.named into.exit.now) notes.entry.now notes.exit.now }
    { make_all(rt, alloc, maker, from, into, notes) };
    let mut here = || -> Ending
        requires settled { IfSome (S.held journal.now) IsSettled }
        requires taken { (run : Run) → IsRun desk.now.tables run → T.takes run }
        ensures served { MakesUp (F.known files.entry.now) folder.entry.now (source_of I.remaining input.entry.now) (source_of I.remaining input.exit.now)
            (stand_of S.held S.failures W.contents desk.entry.now journal.entry.now output.entry.now)
            (stand_of S.held S.failures W.contents desk.exit.now journal.exit.now output.exit.now)
            (handed_of T.told T.given taker.entry.now) (handed_of T.told T.given taker.exit.now) result }
        ensures told { IsTold E.contents errors.entry.now errors.exit.now (words_of result) }
        ensures closed { T.closed taker.exit.now ≡ true }
    {
        serve_told(
            rt, alloc, files, folder, desk, journal, input, output, errors, taker,
        )
    };
    let ((), end) = thread::join_mut(rt, &mut beside, &mut here);
    end
}

// The folder that the files of runs are put into.
fn run_folder<'a, R>(rt: &'a R, alloc: Global, folder: &'a str) -> DiskFolder<'a, R>
    ensures at { folder_path result ≡ folder.now }
    ensures part { part_of result ≡ codes "run.part" }
{
    DiskFolder::new(rt, alloc, folder, RUN_PART)
}

/// Tells what was cut off from the journal of a desk that was begun, hands over its runs whose files are not there,
/// answers calls, and makes the files of runs beside that.
pub fn serve_begun<
    G: RunSource + Send,
    F: FileStore,
    S: Store,
    R: Alloc<A = Global> + Files + Threads + Wait + Sync,
    D: Folder + Send,
    N: Write + Send,
    I: Read,
    W: Write,
    E: Write,
    T: RunTaker,
>(
    rt: &R,
    alloc: Global,
    files: &F,
    folder: &str,
    begun: &mut BegunDesk<'_, R, S>,
    from: &mut G,
    into: &mut D,
    notes: &mut Told<N>,
    input: &mut Told<I>,
    output: &mut Told<W>,
    errors: &mut Told<E>,
    taker: &mut T,
) -> Ending
where
    D::Part: Send,
    requires given { (run : Run) → G.gives run → IsRun begun.old.maker run }
    requires settled { IfSome (S.held (journal_of begun.old.journal)) IsSettled }
    requires taken { (run : Run) → IsRun begun.old.desk.tables run → T.takes run }
    ensures served { MakesUp (F.known files.now) folder.now (source_of I.remaining input.old) (source_of I.remaining input.new)
        (sealed_stand S.held S.failures W.contents begun.old.desk begun.old.journal output.old)
        (sealed_stand S.held S.failures W.contents begun.new.desk begun.new.journal output.new) (handed_of T.told T.given taker.old) (handed_of T.told T.given taker.new) result }
    ensures told { TellsEnd E.contents errors.old errors.new begun.old.cut result }
    ensures closed { T.closed taker.new ≡ true }
    ensures made { MakesAll D.Part N.contents begun.old.maker (G.left from.old) (D.failures into.old) (D.failures into.new) (D.named into.old) (D.named into.new) notes.old notes.new }
{
    tell_cut(begun.cut, errors);
    serve_and_make(
        rt,
        alloc,
        files,
        folder,
        &mut begun.maker,
        from,
        into,
        notes,
        &mut begun.desk,
        &mut begun.journal,
        input,
        output,
        errors,
        taker,
    )
}

// Whether a writer has failed since so many of its calls had, or was interrupted too often.
fn has_failed<W>(output: &Told<W>, failures: u64) -> bool
    ensures { IsTrue result ↔ FailsToAnswer failures output.now }
{
    output.failures() > failures
        || output.failures() == u64::MAX
        || output.interrupted() >= u64::from(WRITE_TRIES)
}

// Counts in a folder that a call of its journal has failed, where a desk has ended by that and by no failed output.
fn count_end<S: Store, R, W>(
    place: &mut DeskFolder<'_, R>,
    _journal: &S,
    output: &Told<W>,
    failures: u64,
    end: &Ending,
)
    requires { end.now ≡ ending.Write → (0 < S.failures _journal.now) ⊎ FailsToAnswer failures output.now }
    ensures same { (failed : ℕ) × (opening_of place.new ≡ with_failures failed (opening_of place.old)) }
    ensures fails { end.now ≡ ending.Write → FailsToWrite (opening_of place.old) (opening_of place.new) ⊎ FailsToAnswer failures output.now }
    ensures clear { end.now ≢ ending.Write → opening_of place.new ≡ opening_of place.old }
    ensures answering { FailsToAnswer failures output.now → opening_of place.new ≡ opening_of place.old }
{
    if matches!(end, Ending::Write) && !has_failed(output, failures) {
        place.fail();
    }
}

// Serves a folder of the operating system that was prepared. The files of runs are put into this one.
//
// Errors: how the desk ends, where it answers nothing; it is not told then.
fn open_prepared<
    K: RunKind + Send,
    F: FileStore,
    R: Alloc<A = Global> + Eprint + Files<File = File> + Threads + Wait + Sync,
    I: Read,
    W: Write,
    E: Write,
>(
    files: &F,
    rt: &R,
    alloc: Global,
    place: &mut DeskFolder<'_, R>,
    prepared: &Prepared,
    workers: usize,
    mut into: DiskFolder<'_, R>,
    input: &mut Told<I>,
    output: &mut Told<W>,
    errors: &mut Told<E>,
) -> Result<Ending, Ending>
where
    R::Dir: Send,
    requires workers { IsInRange 1 MOST_WORKERS workers }
    requires given { (run : Run) → K.holds run → IsRun prepared.now.rows.value.tables run }
    requires taken { (run : Run) → IsRun prepared.now.rows.value.tables run → K.holds run }
    requires at { folder_path into ≡ path_of place.old }
    requires part { part_of into ≡ codes "run.part" }
    ensures served { IfOk result (ServesPrepared (F.known files.now) (path_of place.old) prepared.now.found prepared.now.rows.value.tables I.remaining W.contents E.contents
        input.old input.new output.old output.new errors.old errors.new) }
    ensures fails { IfOk result (FailsToServe (opening_of place.old) (opening_of place.new) output.old output.new) }
    ensures lasts { OnOk result ((opening_of place.new).is_lasting ≡ true) }
    ensures held { (opening_of place.new).is_held ≡ (opening_of place.old).is_held }
    ensures unbegun { IfErr result (FailsToBegin (opening_of place.old) (opening_of place.new) (F.known files.now) (path_of place.old) prepared.now.found prepared.now.rows.value.tables) }
    ensures untouched { IfErr result (IsUntouched (opening_of place.old) (opening_of place.new)) }
    ensures same { OnErr result ((input.new ≡ input.old) × (output.new ≡ output.old) × (errors.new ≡ errors.old)) }
{
    let Ok((to, from)) = unbounded::<Given<K>, Global>(alloc) else {
        return Err(Ending::NoMemory);
    };
    let folder = place.path();
    let mut begun = begin_desk(files, rt, alloc, folder, place, prepared, workers)?;
    let mut taker = RunSender::new(rt, to, WholeLines::new(Notes { rt }));
    let mut source = RunReceiver::new(rt, from);
    let mut notes = Told::new(WholeLines::new(Notes { rt }));
    let failures = output.failures();
    let end = serve_begun(
        rt,
        alloc,
        files,
        folder,
        &mut begun,
        &mut source,
        &mut into,
        &mut notes,
        input,
        output,
        errors,
        &mut taker,
    );
    count_end(place, &begun.journal, output, failures, &end);
    Ok(end)
}

// An order desk on a folder that was locked.
//
// Errors: how it ends, where it answers nothing; it is not told then.
fn open_locked<
    F: FileStore,
    R: Alloc<A = Global> + Eprint + Files<File = File> + Threads + Wait + Sync,
    I: Read,
    W: Write,
    E: Write,
>(
    files: &F,
    rt: &R,
    alloc: Global,
    place: &mut DeskFolder<'_, R>,
    workers: usize,
    input: &mut Told<I>,
    output: &mut Told<W>,
    errors: &mut Told<E>,
) -> Result<Ending, Ending>
where
    R::Dir: Send,
    requires workers { IsInRange 1 MOST_WORKERS workers }
    requires held { (opening_of place.old).is_held ≡ true }
    ensures served { IfOk result (IsServed (opening_of place.old) (opening_of place.new) (F.known files.now) (path_of place.old) I.remaining W.contents E.contents input.old input.new output.old output.new errors.old errors.new) }
    ensures unbegun { IfErr result (FailsWithLock (opening_of place.old) (opening_of place.new) (F.known files.now) (path_of place.old)) }
    ensures untouched { IfErr result (IsUntouched (opening_of place.old) (opening_of place.new)) }
    ensures same { OnErr result ((input.new ≡ input.old) × (output.new ≡ output.old) × (errors.new ≡ errors.old)) }
{
    let folder = place.path();
    let prepared = prepare(rt, alloc, files, folder)?;
    let into = run_folder(rt, alloc, folder);
    open_prepared::<Brand, F, R, I, W, E>(
        files, rt, alloc, place, &prepared, workers, into, input, output, errors,
    )
}

// An order desk on a folder, which is locked first.
//
// Errors: how it ends, where it answers nothing; it is not told then.
fn open_named<
    F: FileStore,
    R: Alloc<A = Global> + Eprint + Files<File = File> + Threads + Wait + Sync,
    I: Read,
    W: Write,
    E: Write,
>(
    files: &F,
    rt: &R,
    alloc: Global,
    place: &mut DeskFolder<'_, R>,
    workers: usize,
    input: &mut Told<I>,
    output: &mut Told<W>,
    errors: &mut Told<E>,
) -> Result<Ending, Ending>
where
    R::Dir: Send,
    requires { IsInRange 1 MOST_WORKERS workers }
    ensures served { IfOk result (IsServed (opening_of place.old) (opening_of place.new) (F.known files.now) (path_of place.old) I.remaining W.contents E.contents input.old input.new output.old output.new errors.old errors.new) }
    ensures unbegun { IfErr result (FailsToStart (opening_of place.old) (opening_of place.new) (F.known files.now) (path_of place.old)) }
    ensures same { OnErr result ((input.new ≡ input.old) × (output.new ≡ output.old) × (errors.new ≡ errors.old)) }
{
    match place.lock() {
        Ok(()) => open_locked(files, rt, alloc, place, workers, input, output, errors),
        Err(LockFault::InUse) => Err(Ending::InUse),
        Err(LockFault::Read) => Err(Ending::Read),
    }
}

// The same, with the numbers of closed streams taken, so that no file of the folder gets one.
fn open_folder<
    F: FileStore,
    R: Alloc<A = Global> + Eprint + Files<File = File> + Threads + Wait + Sync,
    I: Read,
    W: Write,
    E: Write,
>(
    files: &F,
    rt: &R,
    alloc: Global,
    place: &mut DeskFolder<'_, R>,
    workers: usize,
    input: &mut Told<I>,
    output: &mut Told<W>,
    errors: &mut Told<E>,
) -> Result<Ending, Ending>
where
    R::Dir: Send,
    requires { IsInRange 1 MOST_WORKERS workers }
    ensures served { IfOk result (IsServed (opening_of place.old) (opening_of place.new) (F.known files.now) (path_of place.old) I.remaining W.contents E.contents input.old input.new output.old output.new errors.old errors.new) }
    ensures unbegun { IfErr result (FailsToStart (opening_of place.old) (opening_of place.new) (F.known files.now) (path_of place.old)) }
    ensures same { OnErr result ((input.new ≡ input.old) × (output.new ≡ output.old) × (errors.new ≡ errors.old)) }
{
    match place.hold_streams() {
        Ok(held) => {
            let end = open_named(files, rt, alloc, place, workers, input, output, errors);
            drop(held);
            end
        }
        Err(_) => Err(Ending::Read),
    }
}

/// Opens an order desk on a folder, answers the lines of an input until it ends, and returns how that ended, which
/// was told on the error stream. It has 1 to 64 workers to plan runs, as the caller guarantees. What the folder has is
/// read from these files.
pub fn open_desk<
    F: FileStore,
    R: Alloc<A = Global> + Eprint + Files<File = File> + Threads + Wait + Sync,
    I: Read,
    W: Write,
    E: Write,
>(
    files: &F,
    rt: &R,
    alloc: Global,
    place: &mut DeskFolder<'_, R>,
    workers: usize,
    input: &mut Told<I>,
    output: &mut Told<W>,
    errors: &mut Told<E>,
) -> Ending
where
    R::Dir: Send,
    requires { IsInRange 1 MOST_WORKERS workers }
    ensures { DeskEnds (opening_of place.old) (opening_of place.new) (F.known files.now) (path_of place.old) I.remaining W.contents E.contents input.old input.new output.old output.new errors.old errors.new result }
{
    match open_folder(files, rt, alloc, place, workers, input, output, errors) {
        Ok(end) => end,
        Err(end) => {
            let _ = end.tell(errors);
            end
        }
    }
}
