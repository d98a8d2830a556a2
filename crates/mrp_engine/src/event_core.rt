//! The core: every call on an order book and every step of a run, for one thread.

ghost use Rattle.std.specs.Prelude.{◌↔◌, IsTrue};
ghost use Rattle.mrp_turn.specs.Log.{IsSeatNumber};

mod board;
mod event;
mod run;

pub use event::{Answer, Event};
use mrp_bill::Shop;
use mrp_book::{Book, Call, Refused, Reply};
use mrp_item::ShopRows;
use mrp_qty::NoMemory;
use mrp_tables::limits::MOST_DESKS;
use run::Run;
use std::alloc::Global;
use std::marker::Model;
use std::sync::Arc;
use std::thread::Threads;

/// The core of a shop: its order book with its history, and the runs that were started, each with
/// its board. Contracts see the shop's tables, the history, and for each run its front and the log
/// of its board.
#[derive(Drop)]
pub struct Core {
    book: Book,
    rows: Arc<ShopRows>,
    runs: Vec<Run>,
}

impl Model for Core {
    ghost use Rattle.mrp_engine.specs.event_core.Core.{Core};
    ghost use Rattle.mrp_engine.specs.event_core.KeptCore.{KeepsCore, core_view};

    ghost Value = { Core };

    ghost view = { core_view };

    ghost invariant = { KeepsCore };
}

// Whether this is the number of a desk or a worker.
fn is_seat(number: u64) -> bool
    ensures { IsTrue result ↔ IsSeatNumber number }
{
    1 <= number && number <= MOST_DESKS
}

impl Core {
    ghost use Rattle.std.specs.Prelude.{◌≡◌, ◌+◌, ◌≤◌, ◌<◌, All, IfOk, IfSome, IfNone, OnErr};
    ghost use Rattle.mrp_master.specs.Supply.{supply_of};
    ghost use Rattle.mrp_book.specs.History.{Fits};
    ghost use Rattle.mrp_engine.specs.declared.event_core.event.Event.TheVariants as event;
    ghost use Rattle.mrp_engine.specs.event_core.Core.{FitsShop, IsAnswer, IsStarted, IsOutOfMemory, after, opened};
    ghost use Rattle.mrp_engine.specs.event_core.Headline.{RunsRight};

    /// The core of a shop, without entries and without runs.
    ///
    /// Errors: `NoMemory` if an allocation fails.
    pub fn new(alloc: Global, shop: Shop) -> Result<Core, NoMemory>
        ensures { IfOk result (λ core. core ≡ opened shop.tables) }
    {
        let book = Book::open(alloc, &shop)?;
        let rows = ShopRows::of(alloc, Arc::new(alloc, shop)?)?;
        Ok(Core {
            book,
            rows,
            runs: Vec::new(alloc),
        })
    }

    /// Answers an event: a call on the order book, the start of a run, a step of a worker on a run, or the
    /// report of a run. An event that has no meaning is answered `Nothing` and changes nothing. The caller
    /// guarantees that a call by a desk with a number from 1 to 64 was made for an equal shop.
    ///
    /// Errors: `NoMemory` if an allocation fails; nothing has changed then. An event without meaning
    /// never runs out of memory, nor does one that a full order book is asked, one that is answered
    /// `NotYet`, or the report of a run in which an item gets too large.
    pub fn step(
        &mut self,
        rt: &(impl Alloc + Threads + Sync),
        alloc: Global,
        event: Event,
    ) -> Result<Answer, NoMemory>
        requires { FitsShop self.old.tables event }
        ensures answer { IfOk result (IsAnswer self.old event) }
        ensures after { IfOk result (λ a. self.new ≡ after self.old event a) }
        ensures refused { OnErr result (self.new ≡ self.old) }
        ensures memory { OnErr result (IsOutOfMemory self.old event) }
        ensures tables { self.new.tables ≡ self.old.tables }
    {
        match event {
            Event::Call(desk, call) => self.call(alloc, desk, call),
            Event::Start(desk) => self.start(alloc, desk),
            Event::Take(run, worker) => self.take(alloc, run, worker),
            Event::Finish(run, worker) => self.finish(alloc, run, worker),
            Event::GiveUp(run, worker) => self.give_up(alloc, run, worker),
            Event::Write(run) => self.write(rt, alloc, run),
        }
    }

    // A desk calls on the order book.
    fn call(&mut self, alloc: Global, desk: u64, call: Call) -> Result<Answer, NoMemory>
        requires { IsSeatNumber desk → Fits (supply_of self.old.tables) call }
        ensures answer { IfOk result (IsAnswer self.old (event.Call desk call)) }
        ensures after { IfOk result (λ a. self.new ≡ after self.old (event.Call desk call) a) }
        ensures refused { OnErr result (self.new ≡ self.old) }
        ensures memory { OnErr result (IsOutOfMemory self.old (event.Call desk call)) }
    {
        if !is_seat(desk) {
            return Ok(Answer::Nothing);
        }
        match self.book.call(alloc, desk, call) {
            Ok((number, reply)) => Ok(Answer::Replied(number, reply)),
            Err(Refused::Full) => Ok(Answer::Full),
            Err(Refused::NoMemory) => Err(NoMemory),
        }
    }

    // A new reference to the rows of the shop.
    fn share_rows(&self) -> Result<Arc<ShopRows>, NoMemory>
        ensures { IfOk result (λ rows. rows.value.tables ≡ self.now.tables) }
    {
        Ok(self.rows.clone()?)
    }

    // A desk starts a run. Everything that can fail comes before the entry, since an entry is never
    // taken back.
    fn start(&mut self, alloc: Global, desk: u64) -> Result<Answer, NoMemory>
        ensures answer { IfOk result (IsAnswer self.old (event.Start desk)) }
        ensures after { IfOk result (λ a. self.new ≡ after self.old (event.Start desk) a) }
        ensures refused { OnErr result (self.new ≡ self.old) }
        ensures memory { OnErr result (IsOutOfMemory self.old (event.Start desk)) }
    {
        if !is_seat(desk) {
            return Ok(Answer::Nothing);
        }
        if self.book.is_full() {
            return Ok(Answer::Full);
        }
        let rows = self.share_rows()?;
        self.runs.try_reserve(1)?;
        // The entries are legal, so a run can be planned from what stands after them.
        let _legal = self.book.entries();
        match self.book.call(alloc, desk, Call::Snapshot) {
            Ok((front, Reply::Taken(snapshot))) => {
                self.runs.push_reserved(Run::new(rows, snapshot));
                Ok(Answer::Started(self.runs.len(), front))
            }
            Err(Refused::NoMemory) => Err(NoMemory),
            _ => unreachable!(),
        }
    }

    // The place of a run, if it was started.
    fn place(&self, run: usize) -> Option<usize>
        ensures started { IfSome result (λ place. IsStarted self.now run × (run ≡ place + 1)) }
        ensures none { IfNone result (IsStarted self.now run → ⊥) }
    {
        if 1 <= run && run <= self.runs.len() {
            Some(run - 1)
        } else {
            None
        }
    }

    // A worker takes an item of a run.
    fn take(&mut self, alloc: Global, run: usize, worker: u64) -> Result<Answer, NoMemory>
        ensures answer { IfOk result (IsAnswer self.old (event.Take run worker)) }
        ensures after { IfOk result (λ a. self.new ≡ after self.old (event.Take run worker) a) }
        ensures refused { OnErr result (self.new ≡ self.old) }
        ensures memory { OnErr result (IsOutOfMemory self.old (event.Take run worker)) }
    {
        let Some(place) = self.place(run) else {
            return Ok(Answer::Nothing);
        };
        if !is_seat(worker) {
            return Ok(Answer::Nothing);
        }
        if self.runs[place].held(worker).is_some() {
            return Ok(Answer::Nothing);
        }
        self.runs[place].take(alloc, worker)
    }

    // A worker finishes the item of a run that it holds.
    fn finish(&mut self, alloc: Global, run: usize, worker: u64) -> Result<Answer, NoMemory>
        ensures answer { IfOk result (IsAnswer self.old (event.Finish run worker)) }
        ensures after { IfOk result (λ a. self.new ≡ after self.old (event.Finish run worker) a) }
        ensures refused { OnErr result (self.new ≡ self.old) }
        ensures memory { OnErr result (IsOutOfMemory self.old (event.Finish run worker)) }
    {
        let Some(place) = self.place(run) else {
            return Ok(Answer::Nothing);
        };
        if !is_seat(worker) {
            return Ok(Answer::Nothing);
        }
        self.runs[place].finish(alloc, worker)
    }

    // A worker gives up a run.
    fn give_up(&mut self, alloc: Global, run: usize, worker: u64) -> Result<Answer, NoMemory>
        ensures answer { IfOk result (IsAnswer self.old (event.GiveUp run worker)) }
        ensures after { IfOk result (λ a. self.new ≡ after self.old (event.GiveUp run worker) a) }
        ensures refused { OnErr result (self.new ≡ self.old) }
        ensures memory { OnErr result (IsOutOfMemory self.old (event.GiveUp run worker)) }
    {
        let Some(place) = self.place(run) else {
            return Ok(Answer::Nothing);
        };
        if !is_seat(worker) {
            return Ok(Answer::Nothing);
        }
        self.runs[place].give_up(alloc, worker)?;
        Ok(Answer::Stopped)
    }

    // The report of a run is written.
    fn write(
        &mut self,
        rt: &(impl Alloc + Threads + Sync),
        alloc: Global,
        run: usize,
    ) -> Result<Answer, NoMemory>
        ensures answer { IfOk result (IsAnswer self.old (event.Write run)) }
        ensures after { IfOk result (λ a. self.new ≡ after self.old (event.Write run) a) }
        ensures refused { OnErr result (self.new ≡ self.old) }
        ensures memory { OnErr result (IsOutOfMemory self.old (event.Write run)) }
    {
        let Some(place) = self.place(run) else {
            return Ok(Answer::Nothing);
        };
        self.runs[place].write(rt, alloc)
    }

    /// The answers of a new core of a shop to events, one for each. The caller guarantees that the
    /// calls by desks with numbers from 1 to 64 were made for an equal shop.
    ///
    /// Errors: `NoMemory` if an allocation fails.
    pub fn run(
        rt: &(impl Alloc + Threads + Sync),
        alloc: Global,
        shop: Shop,
        events: &[Event],
    ) -> Result<Vec<Answer>, NoMemory>
        requires { All (FitsShop shop.tables) events.now }
        ensures { IfOk result (λ answers. RunsRight shop.tables events.now answers.items) }
    {
        shop.tables().keep_limits();
        let mut core = Core::new(alloc, shop)?;
        let mut answers = Vec::with_capacity(alloc, events.len())?;
        for event in events {
            answers.push(core.step(rt, alloc, *event)?)?;
        }
        Ok(answers)
    }
}
