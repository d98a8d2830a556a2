//! The batches of an order desk.

ghost use Rattle.std.specs.Prelude.{◌≡◌, ℕ, Bool, true, List, None, Option, IfErr, IfSome, MatchOption, OnOk};
ghost use Rattle.std.specs.List.{All};
ghost use Rattle.mrp_rows.specs.Told.{inner_of};
ghost use Rattle.mrp_intake.specs.Intake.{IsOneRead};
ghost use Rattle.mrp_intake.specs.Lines.{told_lines};
ghost use Rattle.mrp_journal.specs.Held.{IsSettled};
ghost use Rattle.mrp_runs.specs.File.{IsRun};
ghost use Rattle.mrp_runs.specs.declared.run.Run.{Run};
ghost use Rattle.mrp_open.specs.Runs.{Hands, HandsOver, HandsOverAll, IsRunOf, handed_of, with_front, with_run};
ghost use Rattle.mrp_open.specs.Served.{Advances, Fails, Serves, Settles, SettlesRuns, StopsAt, source_of, stand_of};

use mrp_book::{Call, Entry, Reply, Snapshot};
use mrp_calls::OpenDesk;
use mrp_commands::Ending;
use mrp_intake::Intake;
use mrp_journal::{Store, settle};
use mrp_qty::NoMemory;
use mrp_rows::{Told, WriteFault};
use mrp_runs::Run;
use std::alloc::Global;
use std::io::{Read, Write};
use std::sync::Wait;

/// Takes runs that were answered.
pub trait RunTaker {
    /// The runs that it may be given.
    ghost takes: { Run → Type 0 };

    /// The numbers of the runs that it was given or told of, in order, as far as that is known.
    ghost told: { Self → Option (List ℕ) };

    /// Those that it was given, in order, as far as that is known.
    ghost given: { Self → Option (List Run) };

    /// It was told that no more runs come.
    ghost closed: { Self → Bool };

    /// Takes a run.
    fn take(&mut self, run: Run)
        requires { takes run }
        ensures told { told self.new ≡ with_front run.snapshot.front (told self.old) }
        ensures given { given self.new ≡ with_run run (given self.old) };

    /// Is told of a run that could not be given, as there was no memory for it.
    fn miss(&mut self, front: u64)
        ensures told { told self.new ≡ with_front front (told self.old) }
        ensures given { given self.new ≡ given self.old };

    /// Is told that no more runs come.
    fn close(&mut self)
        ensures told { told self.new ≡ told self.old }
        ensures given { given self.new ≡ given self.old }
        ensures closed { closed self.new ≡ true };
}

// Hands over a run.
pub(crate) fn hand_run<T: RunTaker>(desk: u64, snapshot: &Snapshot, taker: &mut T)
    requires { T.takes (record { desk = desk; snapshot = snapshot.now }) }
    ensures { Hands (record { desk = desk; snapshot = snapshot.now }) (handed_of T.told T.given taker.old) (handed_of T.told T.given taker.new) }
{
    match snapshot.copy() {
        Ok(snapshot) => taker.take(Run { desk, snapshot }),
        Err(NoMemory) => taker.miss(snapshot.front()),
    }
}

// Hands over an entry, if it is a run.
fn hand_entry<T: RunTaker>(entry: &Entry<Call, Reply>, taker: &mut T)
    requires { IsRunOf T.takes entry.now }
    ensures { HandsOver entry.now.who entry.now.reply (handed_of T.told T.given taker.old) (handed_of T.told T.given taker.new) }
{
    match &entry.reply {
        Reply::Taken(snapshot) => hand_run(entry.who, snapshot, taker),
        _ => {}
    }
}

/// Hands over the runs of entries, in their order.
pub fn hand_over<T: RunTaker>(entries: &[Entry<Call, Reply>], taker: &mut T)
    requires { All (IsRunOf T.takes) entries.now }
    ensures { HandsOverAll entries.now (handed_of T.told T.given taker.old) (handed_of T.told T.given taker.new) }
{
    for entry in entries {
        hand_entry(entry, taker);
    }
}

// The texts of a batch.
#[derive(Drop)]
struct Texts {
    answers: Vec<u8>,
    records: Vec<u8>,
}

// Answers a batch, and settles it.
fn answer_batch<S: Store, W: Write>(
    desk: &mut OpenDesk<'_>,
    batch: &[u8],
    texts: &mut Texts,
    journal: &mut S,
    output: &mut Told<W>,
) -> Result<(), Ending>
    requires { IfSome (S.held journal.old) IsSettled }
    ensures settled { OnOk result (Settles (told_lines batch.now) (stand_of S.held S.failures W.contents desk.old journal.old output.old) (stand_of S.held S.failures W.contents desk.new journal.new output.new)) }
    ensures failed { IfErr result (Fails (told_lines batch.now) (stand_of S.held S.failures W.contents desk.old journal.old output.old) (stand_of S.held S.failures W.contents desk.new journal.new output.new)) }
{
    match desk.answer(batch, &mut texts.answers, &mut texts.records) {
        Ok(()) => match settle(journal, &texts.records, &texts.answers, output) {
            Ok(()) => Ok(()),
            Err(WriteFault) => Err(Ending::Write),
        },
        Err(NoMemory) => Err(Ending::NoMemory),
    }
}

// Answers a batch, settles it, and hands over its runs. Returns why it is not settled.
fn settle_batch<S: Store, W: Write, T: RunTaker>(
    desk: &mut OpenDesk<'_>,
    batch: &[u8],
    texts: &mut Texts,
    journal: &mut S,
    output: &mut Told<W>,
    taker: &mut T,
) -> Option<Ending>
    requires settled { IfSome (S.held journal.old) IsSettled }
    requires taken { (run : Run) → IsRun desk.old.tables run → T.takes run }
    ensures { MatchOption result
        (SettlesRuns (told_lines batch.now) (stand_of S.held S.failures W.contents desk.old journal.old output.old)
        (stand_of S.held S.failures W.contents desk.new journal.new output.new) (handed_of T.told T.given taker.old) (handed_of T.told T.given taker.new))
        (λ end. Fails (told_lines batch.now) (stand_of S.held S.failures W.contents desk.old journal.old output.old)
        (stand_of S.held S.failures W.contents desk.new journal.new output.new) end × ((handed_of T.told T.given taker.new) ≡ (handed_of T.told T.given taker.old))) }
{
    let before = desk.entries().len();
    match answer_batch(desk, batch, texts, journal, output) {
        Ok(()) => {
            hand_over(&desk.entries()[before..], taker);
            None
        }
        Err(end) => Some(end),
    }
}

// Reads a batch, and settles it. Returns why no batch follows.
fn serve_batch<S: Store, R: Read, W: Write, T: RunTaker>(
    desk: &mut OpenDesk<'_>,
    intake: &mut Intake,
    texts: &mut Texts,
    journal: &mut S,
    input: &mut Told<R>,
    output: &mut Told<W>,
    taker: &mut T,
) -> Option<Ending>
    requires settled { IfSome (S.held journal.old) IsSettled }
    requires taken { (run : Run) → IsRun desk.old.tables run → T.takes run }
    ensures advances { MatchOption result
        (Advances intake.old.begun (source_of R.remaining input.old) intake.new.begun (source_of R.remaining input.new)
        (stand_of S.held S.failures W.contents desk.old journal.old output.old)
        (stand_of S.held S.failures W.contents desk.new journal.new output.new) (handed_of T.told T.given taker.old) (handed_of T.told T.given taker.new))
        (λ end. StopsAt intake.old.begun (source_of R.remaining input.old) (source_of R.remaining input.new)
        (stand_of S.held S.failures W.contents desk.old journal.old output.old)
        (stand_of S.held S.failures W.contents desk.new journal.new output.new) end × ((handed_of T.told T.given taker.new) ≡ (handed_of T.told T.given taker.old))) }
    ensures one { result ≡ None → IsOneRead (R.remaining (inner_of input.old)) (R.remaining (inner_of input.new)) }
{
    match intake.next_batch(input) {
        Ok(true) => settle_batch(desk, intake.batch(), texts, journal, output, taker),
        Ok(false) => Some(Ending::Done),
        Err(fault) => Some(Ending::of_read(fault)),
    }
}

/// Answers the lines of an input, batch by batch, until it ends or something fails, and hands over the runs of each
/// batch once its answers are written. The journal is durable.
pub fn serve<S: Store, R: Read, W: Write, T: RunTaker>(
    rt: &impl Wait,
    alloc: Global,
    desk: &mut OpenDesk<'_>,
    journal: &mut S,
    input: &mut Told<R>,
    output: &mut Told<W>,
    taker: &mut T,
) -> Ending
    requires settled { IfSome (S.held journal.old) IsSettled }
    requires taken { (run : Run) → IsRun desk.old.tables run → T.takes run }
    ensures { Serves (source_of R.remaining input.old) (source_of R.remaining input.new)
        (stand_of S.held S.failures W.contents desk.old journal.old output.old)
        (stand_of S.held S.failures W.contents desk.new journal.new output.new) (handed_of T.told T.given taker.old) (handed_of T.told T.given taker.new) result }
{
    let mut intake = Intake::new(alloc);
    let mut texts = Texts {
        answers: Vec::new(alloc),
        records: Vec::new(alloc),
    };
    for _ in rt.forever() {
        match serve_batch(desk, &mut intake, &mut texts, journal, input, output, taker) {
            Some(end) => return end,
            None => {}
        }
    }
    unreachable!()
}
