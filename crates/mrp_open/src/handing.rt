//! Runs that are handed to the thread that makes their files.

ghost use Rattle.std.specs.Prelude.{◌≡◌, List, Option, IfSome};
ghost use Rattle.mrp_runs.specs.File.{IsRun};
ghost use Rattle.mrp_runs.specs.declared.run.Run.{Run};
ghost use Rattle.mrp_open.specs.Made.{GivesNext, MakesAll, MakesRun, TellsMissed};

use crate::batches::RunTaker;
use crossbeam_channel::{Receiver, Sender};
use mrp_folder::Folder;
use mrp_rows::Told;
use mrp_runs::{Note, Refusal, Run, RunMaker, tell_run};
use std::alloc::Global;
use std::io::Write;
use std::marker::{Brand, PhantomData};
use std::sync::Wait;
use std::thread::Threads;

/// Which runs are handed over: those of one shop.
pub trait RunKind {
    /// A run is one of them.
    ghost holds: { Run → Type 0 };
}

impl RunKind for Brand {
    ghost use Rattle.std.specs.Prelude.{⊤};

    ghost holds = { λ _. ⊤ };
}

/// A run that is handed over.
#[derive(Drop)]
pub struct Given<K: RunKind> {
    run: Run,
    of: PhantomData<K>,
    ghost is: { ∥ K.holds run ∥₁ },
}

/// Sends runs to the thread that makes their files, and tells of those that can't be sent.
#[derive(Drop)]
pub struct RunSender<'a, K: RunKind, R, N> {
    rt: &'a R,
    to: Option<Sender<Given<K>>>,
    notes: Told<N>,
}

impl<'a, K: RunKind, R, N> RunSender<'a, K, R, N> {
    ghost use Rattle.std.specs.Prelude.{◌≡◌, false, is_none};

    /// A sender of runs, to which more may come, and what tells of them.
    pub fn new(rt: &'a R, to: Sender<Given<K>>, notes: N) -> RunSender<'a, K, R, N>
        ensures { is_none result.to ≡ false }
    {
        RunSender {
            rt,
            to: Some(to),
            notes: Told::new(notes),
        }
    }
}

// Tells of a run that there is no memory for it.
fn tell_missed<W: Write>(front: u64, notes: &mut Told<W>)
    ensures { TellsMissed W.contents front notes.old notes.new }
{
    let _ = tell_run(front, Note::Refused(Refusal::NoMemory), notes);
}

// A run to be handed over.
fn to_hand<K: RunKind>(run: Run) -> Given<K>
    requires { K.holds run }
{
    Given {
        run,
        of: PhantomData,
    }
}

impl<'a, K: RunKind, R: Wait, N: Write> RunTaker for RunSender<'a, K, R, N> {
    ghost use Rattle.std.specs.Prelude.{◌≡◌, ◌⊎◌, None, is_none, true};
    ghost use Rattle.mrp_open.specs.Made.{TellsMissed};

    ghost takes = { K.holds };

    ghost told = { λ _. None };

    ghost given = { λ _. None };

    ghost closed = { λ sender. is_none sender.to };

    fn take(&mut self, run: Run)
        requires { K.holds run }
        ensures noted { (self.new.notes ≡ self.old.notes) ⊎ TellsMissed N.contents run.snapshot.front self.old.notes self.new.notes }
        ensures unsent { is_none self.old.to ≡ true → TellsMissed N.contents run.snapshot.front self.old.notes self.new.notes }
    {
        let front = run.snapshot.front();
        let is_sent = match &self.to {
            Some(to) => to.send(self.rt, to_hand(run)).is_ok(),
            None => false,
        };
        if !is_sent {
            self.miss(front);
        }
    }

    fn miss(&mut self, front: u64)
        ensures { TellsMissed N.contents front self.old.notes self.new.notes }
    {
        tell_missed(front, &mut self.notes);
    }

    fn close(&mut self) {
        self.to = None;
    }
}

/// Gives runs that were handed over, one after the other.
pub trait RunSource {
    /// The runs that it may give.
    ghost gives: { Run → Type 0 };

    /// The runs that are still to come, in order, as far as they are known.
    ghost left: { Self → Option (List Run) };

    /// The next run; `None` once no more come.
    fn next_run(&mut self) -> Option<Run>
        ensures given { IfSome result (λ run. ∥ gives run ∥₁) }
        ensures next { GivesNext (left self.old) result (left self.new) };
}

/// Receives the runs that were sent to the thread that makes their files.
#[derive(Drop)]
pub struct RunReceiver<'a, K: RunKind, R> {
    rt: &'a R,
    from: Receiver<Given<K>>,
}

impl<'a, K: RunKind, R> RunReceiver<'a, K, R> {
    /// A receiver of runs.
    pub fn new(rt: &'a R, from: Receiver<Given<K>>) -> RunReceiver<'a, K, R> {
        RunReceiver { rt, from }
    }
}

impl<'a, K: RunKind, R: Wait> RunSource for RunReceiver<'a, K, R> {
    ghost use Rattle.std.specs.Prelude.{None};

    ghost gives = { K.holds };

    ghost left = { λ _. None };

    fn next_run(&mut self) -> Option<Run> {
        match self.from.recv(self.rt) {
            Ok(given) => Some(given.run),
            Err(_) => None,
        }
    }
}

// Makes the file of a run in a folder, and tells of it where it has no report.
fn make_one<R: Alloc + Threads + Wait + Sync, D: Folder, N: Write>(
    rt: &R,
    alloc: Global,
    maker: &mut RunMaker<'_>,
    run: &Run,
    files: &mut D,
    notes: &mut Told<N>,
)
    requires { ∥ IsRun maker.old run.now ∥₁ }
    ensures same { maker.new ≡ maker.old }
    ensures made { MakesRun D.Part N.contents maker.old run.now (D.failures files.old) (D.failures files.new) (D.named files.old) (D.named files.new) notes.old notes.new }
{
    let made = maker.make(rt, alloc, run, files);
    match Note::of(&made) {
        Some(note) => {
            let _ = tell_run(run.snapshot.front(), note, notes);
        }
        None => {}
    }
}

/// Makes the files of runs in a folder, one after the other as they come, until no more come, and tells of those that
/// have no report.
pub fn make_all<G: RunSource, R: Alloc + Threads + Wait + Sync, D: Folder, N: Write>(
    rt: &R,
    alloc: Global,
    maker: &mut RunMaker<'_>,
    from: &mut G,
    files: &mut D,
    notes: &mut Told<N>,
)
    requires { (run : Run) → G.gives run → IsRun maker.old run }
    ensures same { maker.new ≡ maker.old }
    ensures made { MakesAll D.Part N.contents maker.old (G.left from.old) (D.failures files.old) (D.failures files.new) (D.named files.old) (D.named files.new) notes.old notes.new }
{
    for _ in rt.forever() {
        match from.next_run() {
            Some(run) => make_one(rt, alloc, maker, &run, files, notes),
            None => return,
        }
    }
    unreachable!()
}
