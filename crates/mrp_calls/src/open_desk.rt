//! An order desk that stays open.

ghost use Rattle.std.specs.Prelude.{◌≡◌, ◌+◌, ◌<◌, ◌≤◌, ◌++◌, ◌∷◌, [], IfOk, OnErr, length, vec_capacity, vec_len};
ghost use Rattle.mrp_tables.specs.Facts.{IsScriptRow};
ghost use Rattle.mrp_master.specs.Supply.{supply_of};
ghost use Rattle.mrp_book.specs.History.{next_number};
ghost use Rattle.mrp_report.specs.section.HistoryText.{entry_text};
ghost use Rattle.mrp_calls.specs.Answers.{IsEntryOf};

use crate::fault::LineFault;
use crate::line::line_call;
use crate::record::spell;
use crate::texts::{FULL, LEAST_ROOM, LONGEST_SHORT, NO_MEMORY, make_room, put_text, refuse};
use mrp_bill::Shop;
use mrp_book::{Book, Call, Entry, Refused, Reply};
use mrp_intake::first_line;
use mrp_qty::NoMemory;
use mrp_report::{HistoryRows, LONGEST_ROW, Page};
use mrp_rows::Row;
use mrp_script::{answer_records, call_of};
use mrp_tables::ScriptRow;
use mrp_tables::limits::MOST_ROWS;
use std::alloc::Global;
use std::marker::Model;

/// An order desk that stays open: the order book of a shop, in which the records of its journal were answered,
/// and room for more of them.
#[derive(Drop)]
pub struct OpenDesk<'a> {
    alloc: Global,
    shop: &'a Shop,
    rows: HistoryRows<'a>,
    book: Book,
    // How many bytes more the folder's bundle may have.
    room: usize,
    // A line's record that was read; the next line reuses its memory.
    spare: Option<Row>,
    // The text of the record that is being made.
    page: Page,
}

impl<'a> Model for OpenDesk<'a> {
    ghost use Rattle.mrp_calls.specs.Desk.{Desk, IsDesk};

    ghost Value = { Desk };

    ghost view = { λ d. record { tables = d.shop.now.tables; entries = d.book.entries; room = d.room } };

    ghost invariant = { λ d. IsDesk d.shop.now.tables d.rows d.book };
}

impl<'a> OpenDesk<'a> {
    ghost use Rattle.std.specs.Prelude.{◌≡◌, ◌+◌, ◌*◌, ◌<◌, ◌≤◌, ◌++◌, [], IfOk, OnErr, OnOk, length, vec_capacity, vec_len};
    ghost use Rattle.mrp_intake.specs.Lines.{told_lines};
    ghost use Rattle.mrp_tables.specs.Facts.{IsScriptRow};
    ghost use Rattle.mrp_tables.specs.declared.limits.TheConstants.{MOST_ROWS};
    ghost use Rattle.mrp_master.specs.Supply.{supply_of};
    ghost use Rattle.mrp_book.specs.History.{IsLegal, asked, next_number};
    ghost use Rattle.mrp_script.specs.Script.{script_of};
    ghost use Rattle.mrp_calls.specs.Answers.{Adds, Answers, AnswersCall, AnswersLine, Enters};
    ghost use Rattle.mrp_calls.specs.Desk.{is_full};
    ghost use Rattle.mrp_calls.specs.LineCall.{call_of_line};

    /// Opens the desk of a shop whose script is the journal, with so many bytes of room in the folder's bundle.
    ///
    /// Errors: `NoMemory` if an allocation fails.
    pub fn open(alloc: Global, shop: &'a Shop, room: usize) -> Result<OpenDesk<'a>, NoMemory>
        ensures tables { IfOk result (λ desk. desk.tables ≡ shop.now.tables) }
        ensures asked { IfOk result (λ desk. asked desk.entries ≡ script_of shop.now.tables) }
        ensures room { IfOk result (λ desk. desk.room ≡ room) }
    {
        let book = answer_records(alloc, shop)?;
        let tables = shop.tables();
        let _script = tables.script();
        let rows = HistoryRows::of(alloc, tables)?;
        Ok(OpenDesk {
            alloc,
            shop,
            rows,
            book,
            room,
            spare: None,
            page: Page::new(alloc),
        })
    }

    /// The entries of the order book, one for each record of the journal. An entry's number is its place, from 1.
    pub fn entries(&self) -> &[Entry<Call, Reply>]
        ensures entries { result.now ≡ self.now.entries }
        ensures legal { IsLegal (supply_of self.now.tables) result.now }
        ensures few { length result.now ≤ MOST_ROWS }
    {
        self.book.entries()
    }

    /// How many bytes more the folder's bundle may have.
    pub fn room(&self) -> usize
        ensures { result ≡ self.now.room }
    {
        self.room
    }

    // Whether the journal takes no more records.
    fn is_full(&self) -> bool
        ensures { result ≡ is_full self.now }
    {
        self.entries().len() >= MOST_ROWS as usize || self.room < LEAST_ROOM
    }

    // The number that the next record would have.
    fn next_number(&self) -> u32
        ensures { result ≡ next_number self.now.entries }
    {
        self.entries().len() as u32 + 1
    }

    // Makes an entry of a call: adds its row to the answers, with room for what is left to come, and its record to the
    // records.
    fn enter(
        &mut self,
        row: &Row,
        given: &ScriptRow,
        left: usize,
        answers: &mut Vec<u8>,
        records: &mut Vec<u8>,
    ) -> Result<(), NoMemory>
        requires few { length self.old.entries < MOST_ROWS }
        requires cells { length row.now.cells ≡ 6 }
        requires within { IsScriptRow self.old.tables.calendar.weeks self.old.tables.items given.now }
        ensures entered { OnOk result (Adds (Enters row.now given.now) self.old answers.old.items records.old.items self.new answers.new.items records.new.items) }
        ensures left { OnOk result (vec_len answers.new + left ≤ vec_capacity answers.new) }
        ensures same { OnErr result (self.new ≡ self.old) }
        ensures answers { OnErr result (answers.new.items ≡ answers.old.items) }
        ensures len { OnErr result (vec_len answers.new ≡ vec_len answers.old) }
        ensures records { OnErr result (records.new.items ≡ records.old.items) }
        ensures kept { vec_capacity answers.old ≤ vec_capacity answers.new }
    {
        spell(&mut self.page, row, &given.call)?;
        make_room(records, self.page.text().len(), 0)?;
        make_room(answers, LONGEST_ROW, left)?;
        let (number, entry) = call_book(self.alloc, self.shop, &mut self.book, given)?;
        put_row(&self.rows, answers, number, &entry);
        put_text(records, self.page.text());
        self.room = self.room.saturating_sub(self.page.text().len());
        Ok(())
    }

    // Answers a line for what it says, unless memory is refused.
    fn try_line(
        &mut self,
        line: &[u8],
        left: usize,
        answers: &mut Vec<u8>,
        records: &mut Vec<u8>,
    ) -> Result<(), NoMemory>
        requires few { length self.old.entries < MOST_ROWS }
        ensures answered { OnOk result (Adds (AnswersCall (call_of_line self.old.tables (next_number self.old.entries) line.now)) self.old answers.old.items records.old.items self.new answers.new.items records.new.items) }
        ensures left { OnOk result (vec_len answers.new + left ≤ vec_capacity answers.new) }
        ensures same { OnErr result (self.new ≡ self.old) }
        ensures answers { OnErr result (answers.new.items ≡ answers.old.items) }
        ensures len { OnErr result (vec_len answers.new ≡ vec_len answers.old) }
        ensures records { OnErr result (records.new.items ≡ records.old.items) }
        ensures kept { vec_capacity answers.old ≤ vec_capacity answers.new }
    {
        let number = self.next_number();
        match line_call(
            self.alloc,
            self.shop.tables(),
            number,
            line,
            &mut self.spare,
        ) {
            Ok((row, given)) => {
                let done = self.enter(&row, &given, left, answers, records);
                self.spare = Some(row);
                done
            }
            Err(LineFault::Refused(fault)) => refuse(self.alloc, &fault, left, answers),
            Err(LineFault::NoMemory) => Err(NoMemory),
        }
    }

    // Answers a line. There is room for a short answer and for what is left to come.
    fn answer_line(
        &mut self,
        line: &[u8],
        left: usize,
        answers: &mut Vec<u8>,
        records: &mut Vec<u8>,
    )
        requires { vec_len answers.old + (LONGEST_SHORT + left) ≤ vec_capacity answers.old }
        ensures answered { Adds (AnswersLine line.now) self.old answers.old.items records.old.items self.new answers.new.items records.new.items }
        ensures left { vec_len answers.new + left ≤ vec_capacity answers.new }
    {
        if self.is_full() {
            put_text(answers, FULL);
            return;
        }
        match self.try_line(line, left, answers, records) {
            Ok(()) => {}
            Err(_) => put_text(answers, NO_MEMORY),
        }
    }

    /// Answers the lines of a batch in order. `answers` becomes the text of the answers, one line for each, and
    /// `records` that of the records to be journalled, in the same order.
    ///
    /// Errors: `NoMemory` if there is not even room to answer each line by `no memory`. Nothing was answered then.
    pub fn answer(
        &mut self,
        batch: &[u8],
        answers: &mut Vec<u8>,
        records: &mut Vec<u8>,
    ) -> Result<(), NoMemory>
        ensures answered { OnOk result (Answers (told_lines batch.now) self.old answers.new.items records.new.items self.new) }
        ensures same { OnErr result (self.new ≡ self.old) }
        ensures none { OnErr result ((answers.new.items ≡ []) × (records.new.items ≡ [])) }
        ensures full { OnErr result (vec_capacity answers.old < LONGEST_SHORT * length batch.now) }
    {
        answers.clear();
        records.clear();
        let Some(most) = batch.len().checked_mul(LONGEST_SHORT) else {
            return Err(NoMemory);
        };
        make_room(answers, most, 0)?;
        let mut rest = batch;
        while !rest.is_empty() {
            let (line, behind) = first_line(rest);
            self.answer_line(line, LONGEST_SHORT * behind.len(), answers, records);
            rest = behind;
        }
        Ok(())
    }
}

// Answers a call in a shop's book that is not full, which makes one more entry: returns it with its number.
fn call_book(
    alloc: Global,
    shop: &Shop,
    book: &mut Book,
    given: &ScriptRow,
) -> Result<(u64, Entry<Call, Reply>), NoMemory>
    requires within { IsScriptRow shop.now.tables.calendar.weeks shop.now.tables.items given.now }
    requires supply { book.old.supply ≡ supply_of shop.now.tables }
    requires few { length book.old.entries < MOST_ROWS }
    ensures number { IfOk result (λ made. made.0 ≡ next_number book.old.entries) }
    ensures entry { IfOk result (λ made. IsEntryOf book.old given.now made.1) }
    ensures after { IfOk result (λ made. book.new ≡ record { supply = book.old.supply; entries = book.old.entries ++ made.1 ∷ [] }) }
    ensures refused { OnErr result (book.new ≡ book.old) }
{
    let called = call_of(shop, given.call);
    match book.call(alloc, given.desk, called) {
        Ok((number, reply)) => {
            let call = call_of(shop, given.call);
            let who = given.desk;
            Ok((number, Entry { who, call, reply }))
        }
        Err(Refused::NoMemory) => Err(NoMemory),
        Err(Refused::Full) => unreachable!(),
    }
}

// Adds the row of an entry, for which there is room.
fn put_row(rows: &HistoryRows<'_>, text: &mut Vec<u8>, number: u64, entry: &Entry<Call, Reply>)
    requires { vec_len text.old + LONGEST_ROW ≤ vec_capacity text.old }
    ensures added { text.new.items ≡ text.old.items ++ entry_text rows.now (number, entry.now) }
    ensures few { vec_len text.new ≤ vec_len text.old + LONGEST_ROW }
    ensures kept { vec_capacity text.old ≤ vec_capacity text.new }
{
    match rows.add(text, number, entry) {
        Ok(()) => {}
        Err(_) => unreachable!(),
    }
}
