//! The history that answers a shop's script.

ghost use Rattle.std.specs.Prelude.{◌≡◌, ◌<◌, ◌++◌, ◌∷◌, [], IfOk, IfSome, None, OnErr, OnOk, length, map};
ghost use Rattle.std.specs.Int.{IsInRange};
ghost use Rattle.std.specs.List.{list_any};
ghost use Rattle.mrp_master.specs.Supply.{supply_of};
ghost use Rattle.mrp_book.specs.History.{Fits, asked};
ghost use Rattle.mrp_script.specs.Script.{AnswersScript, call_of, is_run, record_of, script_of, with_run};

use mrp_bill::Shop;
use mrp_book::{Book, Call, History, Line, Refused, Spot, Wish};
use mrp_qty::NoMemory;
use mrp_tables::limits::{MOST_DESKS, MOST_ENTRIES};
use mrp_tables::{ScriptCall, ScriptRow};
use std::alloc::Global;

/// The desk whose run is added to a script without one.
pub const ADDED_DESK: u64 = 1;

/// A call of a shop's script as a call on the order book: a run takes a snapshot. The caller
/// guarantees that the call fits the shop.
pub fn call_of(shop: &Shop, call: ScriptCall) -> Call
    requires { Fits (supply_of shop.now.tables) (call_of call) }
    ensures { result ≡ call_of call }
{
    match call {
        ScriptCall::Book {
            item,
            week,
            quantity,
        } => Call::Book(Line::new(shop, item, week, quantity).unwrap()),
        ScriptCall::Cancel { entry } => Call::Cancel(entry),
        ScriptCall::Ask { item, week } => Call::Ask(Spot::new(shop, item, week).unwrap()),
        ScriptCall::When { item, quantity } => {
            Call::When(Wish::new(shop, item, quantity).unwrap())
        }
        ScriptCall::Run => Call::Snapshot,
    }
}

// Whether a script has a run.
fn has_run(script: &[ScriptRow]) -> bool
    ensures { result ≡ list_any (λ r. is_run (call_of r.call)) script.now }
{
    script.iter().any(|row| matches!(row.call, ScriptCall::Run))
}

/// The desk and the call that are added at the end of a script without a run: a run of desk 1. `None` for a
/// script with a run.
pub fn added_run(script: &[ScriptRow]) -> Option<(u64, Call)>
    ensures none { result ≡ None → with_run (map record_of script.now) ≡ map record_of script.now }
    ensures run { IfSome result (λ run. run ≡ (ADDED_DESK, Call.Snapshot)) }
    ensures added { IfSome result (λ run. with_run (map record_of script.now) ≡ map record_of script.now ++ run ∷ []) }
{
    if has_run(script) {
        None
    } else {
        Some((ADDED_DESK, Call::Snapshot))
    }
}

/// Answers a call of a desk in a book that is not full, which makes one more entry.
///
/// Errors: `NoMemory` if an allocation fails. The book is as before then.
pub fn answer(alloc: Global, book: &mut Book, desk: u64, call: Call) -> Result<(), NoMemory>
    requires desk { IsInRange 1 MOST_DESKS desk }
    requires fits { Fits book.old.supply call }
    requires room { length book.old.entries < MOST_ENTRIES }
    ensures supply { OnOk result (book.new.supply ≡ book.old.supply) }
    ensures asked { OnOk result (asked book.new.entries ≡ asked book.old.entries ++ (desk, call) ∷ []) }
    ensures refused { OnErr result (book.new ≡ book.old) }
{
    match book.call(alloc, desk, call) {
        Ok(_) => Ok(()),
        Err(Refused::NoMemory) => Err(NoMemory),
        Err(Refused::Full) => unreachable!(),
    }
}

/// The order book of a shop, in which the records of its script were answered in row order.
///
/// Errors: `NoMemory` if an allocation fails.
pub fn answer_records(alloc: Global, shop: &Shop) -> Result<Book, NoMemory>
    ensures supply { IfOk result (λ book. book.supply ≡ supply_of shop.now.tables) }
    ensures asked { IfOk result (λ book. asked book.entries ≡ script_of shop.now.tables) }
    ensures few { IfOk result (λ book. length book.entries < MOST_ENTRIES) }
{
    let script = shop.tables().script();
    let mut book = Book::open(alloc, shop)?;
    for row in script {
        answer(alloc, &mut book, row.desk, call_of(shop, row.call))?;
    }
    Ok(book)
}

/// The history that answers a shop's script, record by record. A script without a run is taken with
/// one more record at its end, a run of desk 1.
///
/// Errors: `NoMemory` if an allocation fails.
pub fn answer_script(alloc: Global, shop: &Shop) -> Result<History, NoMemory>
    ensures supply { IfOk result (λ h. h.supply ≡ supply_of shop.now.tables) }
    ensures answers { IfOk result (λ h. AnswersScript shop.now.tables h.entries) }
{
    let mut book = answer_records(alloc, shop)?;
    if let Some((desk, call)) = added_run(shop.tables().script()) {
        answer(alloc, &mut book, desk, call)?;
    }
    let history = book.into_history();
    let _legal = history.entries();
    Ok(history)
}
