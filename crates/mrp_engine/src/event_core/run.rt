//! A run that has been started.

ghost use Rattle.std.specs.Prelude.{◌≡◌, IfOk, OnErr, OnOk, Some, None};
ghost use Rattle.mrp_master.specs.Supply.{supply_of};
ghost use Rattle.mrp_book.specs.Booked.{AreBooked};
ghost use Rattle.mrp_item.specs.Inputs.{inputs_of};
ghost use Rattle.mrp_report.specs.ReportText.{report_text};
ghost use Rattle.mrp_engine.specs.event_core.Core.{told};
ghost use Rattle.mrp_engine.specs.event_core.Kept.{IsBoardOf, log_of};

use crate::day::name_of;
use crate::event_core::board::RunBoard;
use crate::event_core::event::Answer;
use mrp_board::{BoardCall, BoardReply};
use mrp_book::Snapshot;
use mrp_item::{Inputs, Plan, ShopRows};
use mrp_qty::NoMemory;
use mrp_report::write_report;
use mrp_rows::Told;
use std::alloc::Global;
use std::marker::Model;
use std::sync::Arc;
use std::thread::Threads;

/// A run: its inputs, and its board, which is made when it is first needed. Contracts see the run's
/// inputs, and the board's log.
#[derive(Drop)]
pub struct Run {
    rows: Arc<ShopRows>,
    snapshot: Snapshot,
    board: Option<RunBoard>,
}

impl Model for Run {
    ghost use Rattle.mrp_engine.specs.event_core.Board.{RunLog};
    ghost use Rattle.mrp_engine.specs.event_core.KeptRun.{KeepsRun, run_view};

    ghost Value = { RunLog };

    ghost view = { run_view };

    ghost invariant = { KeepsRun };
}

// Makes the board of a run that has none.
fn begin(
    alloc: Global,
    rows: &Arc<ShopRows>,
    snapshot: &Snapshot,
    board: &mut Option<RunBoard>,
) -> Result<(), NoMemory>
    requires booked { AreBooked (supply_of rows.now.value.tables) snapshot.now.standing }
    requires board { IsBoardOf (inputs_of rows.now.value.tables snapshot.now) board.old }
    ensures begun { OnOk result (board.new ≡ Some (record { inputs = inputs_of rows.now.value.tables snapshot.now; log = log_of board.old })) }
    ensures refused { OnErr result (board.new ≡ board.old) }
    ensures memory { OnErr result (board.old ≡ None) }
{
    if board.is_none() {
        let inputs = Inputs::over(alloc, rows.clone()?, snapshot.copy()?)?;
        *board = Some(RunBoard::open(alloc, &inputs)?);
    }
    Ok(())
}

// The report of a plan.
fn report_of(
    rt: &(impl Alloc + Threads + Sync),
    alloc: Global,
    plan: &Plan,
) -> Result<Vec<u8>, NoMemory>
    ensures { IfOk result (λ bytes. bytes.items ≡ report_text plan.now.inputs) }
{
    let mut writer = Told::new(Vec::new(alloc));
    match write_report(rt, alloc, plan, &mut writer, 1) {
        Ok(()) => Ok(writer.into_inner()),
        Err(_) => Err(NoMemory),
    }
}

impl Run {
    ghost use Rattle.std.specs.Prelude.{◌≡◌, ◌≢◌, ◌++◌, ◌∷◌, [], true, false, Some, None, IfOk, OnErr, OnOk, IsSome};
    ghost use Rattle.mrp_turn.specs.Log.{IsSeatNumber, entry};
    ghost use Rattle.mrp_master.specs.Supply.{supply_of};
    ghost use Rattle.mrp_book.specs.Booked.{AreBooked};
    ghost use Rattle.mrp_item.specs.Inputs.{inputs_of};
    ghost use Rattle.mrp_board.specs.declared.call.BoardCall.TheVariants as call;
    ghost use Rattle.mrp_board.specs.declared.reply.BoardReply.TheVariants as reply;
    ghost use Rattle.mrp_board.specs.Board.{board_reply, held, is_finished};
    ghost use Rattle.mrp_engine.specs.declared.event_core.event.Answer.TheVariants as answer;
    ghost use Rattle.mrp_engine.specs.day.Day.{IsPlannable};
    ghost use Rattle.mrp_engine.specs.event_core.Board.{finish_entry, made};
    ghost use Rattle.mrp_engine.specs.event_core.Core.{IsReport, told};
    ghost use Rattle.mrp_engine.specs.event_core.Kept.{KeepsBoard};

    /// A run over the rows of a shop and a snapshot of its order book. The caller guarantees that
    /// the snapshot is of that shop.
    pub fn new(rows: Arc<ShopRows>, snapshot: Snapshot) -> Run
        requires { AreBooked (supply_of rows.value.tables) snapshot.standing }
        ensures { result ≡ record { inputs = inputs_of rows.value.tables snapshot; log = [] } }
    {
        Run {
            rows,
            snapshot,
            board: None,
        }
    }

    /// The item that a worker holds.
    pub fn held(&self, worker: u64) -> Option<usize>
        ensures { result ≡ held worker self.now.log }
    {
        match &self.board {
            Some(board) => board.held(worker),
            None => None,
        }
    }

    /// Answers a worker that asks for an item.
    ///
    /// Errors: `NoMemory` if an allocation fails, never where the answer would be `NotYet`. Nothing
    /// has changed then.
    pub fn take(&mut self, alloc: Global, worker: u64) -> Result<Answer, NoMemory>
        requires { IsSeatNumber worker }
        ensures answer { IfOk result (λ a. a ≡ told (board_reply self.old.inputs self.old.log worker call.Take)) }
        ensures entry { OnOk result (self.new ≡ record self.old { log = self.old.log ++ made worker call.Take (board_reply self.old.inputs self.old.log worker call.Take) }) }
        ensures refused { OnErr result (self.new ≡ self.old) }
        ensures memory { OnErr result (board_reply self.old.inputs self.old.log worker call.Take ≢ None) }
    {
        // No item needs itself, so some item of a new board can be taken, if there are any.
        let _shop = self.rows.shop().tables();
        begin(alloc, &self.rows, &self.snapshot, &mut self.board)?;
        match &mut self.board {
            Some(board) => Ok(told(board.make(worker, BoardCall::Take)?)),
            None => unreachable!(),
        }
    }

    /// Plans and stores the item that a worker holds. The caller guarantees that the workers of the run
    /// finish what they hold.
    ///
    /// Errors: `NoMemory` if the worker holds an item and an allocation fails. Nothing has changed
    /// then.
    pub fn finish(&mut self, alloc: Global, worker: u64) -> Result<Answer, NoMemory>
        requires seat { IsSeatNumber worker }
        requires keeps { KeepsBoard self.old.inputs self.old.log }
        ensures held { IfOk result (λ a. IsSome (held worker self.old.log) → a ≡ answer.Stored) }
        ensures not_held { IfOk result (λ a. held worker self.old.log ≡ None → a ≡ answer.Nothing) }
        ensures entry { OnOk result (self.new ≡ record self.old { log = self.old.log ++ finish_entry self.old.inputs worker (held worker self.old.log) }) }
        ensures refused { OnErr result (self.new ≡ self.old) }
        ensures memory { OnErr result (IsSome (held worker self.old.log)) }
    {
        let Some(board) = &mut self.board else {
            return Ok(Answer::Nothing);
        };
        let Some(outcome) = board.plan_held(alloc, worker)? else {
            return Ok(Answer::Nothing);
        };
        Ok(told(board.make(worker, BoardCall::Finish(outcome))?))
    }

    /// A worker gives up the run.
    ///
    /// Errors: `NoMemory` if an allocation fails. Nothing has changed then.
    pub fn give_up(&mut self, alloc: Global, worker: u64) -> Result<(), NoMemory>
        requires { IsSeatNumber worker }
        ensures entry { OnOk result (self.new ≡ record self.old { log = self.old.log ++ entry worker call.GiveUp reply.Stopped ∷ [] }) }
        ensures refused { OnErr result (self.new ≡ self.old) }
    {
        begin(alloc, &self.rows, &self.snapshot, &mut self.board)?;
        let Some(board) = &mut self.board else {
            unreachable!()
        };
        board.make(worker, BoardCall::GiveUp)?;
        Ok(())
    }

    // Whether every item is stored.
    fn is_finished(&self) -> bool
        ensures { result ≡ is_finished self.now.inputs self.now.log }
    {
        match &self.board {
            Some(board) => board.is_finished(),
            None => self.rows.shop().tables().items().is_empty(),
        }
    }

    /// The report of a run whose items are all stored, or the first of them that gets too large.
    ///
    /// Errors: `NoMemory` if all are stored, none gets too large and an allocation fails. Nothing has
    /// changed then.
    pub fn write(
        &mut self,
        rt: &(impl Alloc + Threads + Sync),
        alloc: Global,
    ) -> Result<Answer, NoMemory>
        ensures report { IfOk result (λ a. is_finished self.old.inputs self.old.log ≡ true → IsReport self.old.inputs a) }
        ensures nothing { IfOk result (λ a. is_finished self.old.inputs self.old.log ≡ false → a ≡ answer.Nothing) }
        ensures same { self.new ≡ self.old }
        ensures memory { OnErr result (is_finished self.old.inputs self.old.log ≡ true) }
        ensures plannable { OnErr result (IsPlannable self.old.inputs) }
    {
        if !self.is_finished() {
            return Ok(Answer::Nothing);
        }
        begin(alloc, &self.rows, &self.snapshot, &mut self.board)?;
        let Some(board) = &self.board else {
            unreachable!()
        };
        if let Some(item) = board.first_over() {
            return Ok(Answer::TooLarge(name_of(board.inputs(), item)));
        }
        let plan = board.plan(alloc)?;
        Ok(Answer::Bytes(report_of(rt, alloc, &plan)?))
    }
}

// The core's answer for a board's reply.
fn told(reply: Option<BoardReply>) -> Answer
    ensures { result ≡ told reply }
{
    match reply {
        None => Answer::NotYet,
        Some(BoardReply::AllOut) => Answer::AllOut,
        Some(BoardReply::Item(item, _)) => Answer::Item(item),
        Some(BoardReply::Stored) => Answer::Stored,
        Some(BoardReply::NotOut) => Answer::Nothing,
        Some(BoardReply::Stopped) => Answer::Stopped,
    }
}
