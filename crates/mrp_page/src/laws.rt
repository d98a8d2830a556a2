//! What follows from the definitions alone, each law the contract of a function that does nothing.

ghost use Rattle.std.specs.Prelude.{◌≡◌, ◌≢◌, ◌++◌, ◌+◌, ◌-◌, ◌^◌, ◌&&◌, ◌⊎◌, ◌<◌, ◌≤◌, ℕ, All, Contains, IsPermutation, List, Option, Some, false, [], ◌∷◌, codes, count_by, decimal, drop, filter, find, flat_map, length, slice_index_or, take, ◌*◌, Bool, None, true, min, map, sum_by, ◌↔◌, IsTrue, is_some};
ghost use Rattle.mrp_page.specs.Bars.{HasTimes};
ghost use Rattle.mrp_page.specs.Centres.{all_loads, centre_html, explained_note, later_loads, loads_html, loads_table, over_listing, over_or_none, shares_html, times_html};
ghost use Rattle.mrp_page.specs.Overloaded.{most_overloaded, name_of, overloaded_first, overloaded_html, overloaded_row, rate, rate_of, share_of_all, total, weeks_of, worst_week};
ghost use Rattle.mrp_page.specs.Pictured.{bars_html, centre_frame, picture_html};
ghost use Rattle.mrp_page.specs.Shares.{falling_share, minutes_html, overloads_first, share, share_of, share_row, week_rank};
ghost use Rattle.mrp_page.specs.Sorted.{sorted_by};
ghost use Rattle.mrp_qty.specs.Minutes.{minutes_text_of};
ghost use Rattle.mrp_page.specs.Amounts.{amount};
ghost use Rattle.mrp_page.specs.AtRisk.{RisksView};
ghost use Rattle.mrp_page.specs.Items.{item_html, item_lists_html, items_html, need_html, orders_html, peg_html, pegs_html, wait_html, waits_html};
ghost use Rattle.mrp_page.specs.Pegs.{waits_for};
ghost use Rattle.std.specs.List.{slice_get};
ghost use Rattle.mrp_page.specs.Orders.{is_order, linked_html, numbered, order_link, ordered};
ghost use Rattle.mrp_page.specs.Scene.{SceneView};
ghost use Rattle.mrp_page.specs.Html.{number_html};
ghost use Rattle.mrp_page.specs.Outs.{distance, falling_late, is_planned, out_line, out_row, outs_first, outs_html, outs_table, sign};
ghost use Rattle.mrp_page.specs.ByWord.{has_one_of, with_word};
ghost use Rattle.mrp_page.specs.Columns.{column};
ghost use Rattle.mrp_page.specs.Counted.{AreSomeOf, is_peg_of, kept_of, missed_of, records_of, together, wanted_rows};
ghost use Rattle.mrp_page.specs.Draw.{all_weeks, amounts_html, balance_html, booked_html, framed_record, has_item, history_html, is_plain, is_scheduled, item_name_html, later_record, link_html, measure_html, more_html, named_record, planned_html, points_html, promised_html, record_or_none, record_rows, record_table, supplies_html};
ghost use Rattle.mrp_page.specs.Escaped.{escaped};
ghost use Rattle.mrp_page.specs.Folded.{Listing, capped_html, folded_html, hidden_html, listed_html};
ghost use Rattle.mrp_page.specs.Ids.{AreApart, AreNamed, IsPartOf, centre_id, centres_shown, entry_id, item_id, order_id, order_numbers, page_ids, section_ids};
ghost use Rattle.mrp_page.specs.ItemFacts.{safety_cell_html, scale_html};
ghost use Rattle.mrp_page.specs.ItemRows.{ItemLists, item_lists};
ghost use Rattle.mrp_page.specs.Known.{IsKnown, IsMadeOf, IsOrderShown, entries_kept, names_shown};
ghost use Rattle.mrp_page.specs.Labels.{AreFirm};
ghost use Rattle.mrp_page.specs.Laws.{piece_html, pieces, shown};
ghost use Rattle.mrp_page.specs.layout.Centres.{above_bar, above_end, capacity_label, cut_bar, hot_bar, hot_end, load_label, low_bar, low_end, over_label, over_open, over_words};
ghost use Rattle.mrp_page.specs.layout.Glance.{outs_note, overloaded_line, overloaded_open};
ghost use Rattle.mrp_page.specs.layout.History.{entry};
ghost use Rattle.mrp_page.specs.layout.Items.{lists_open, order, orders_open, peg_parent, pegs_open, waits_open};
ghost use Rattle.mrp_page.specs.layout.Lists.{bullet_end, bullet_open, grid_end, rest_end, row_open, section_end};
ghost use Rattle.mrp_page.specs.layout.Records.{available_label, balance_label, booked_label, firm_label, gross_label, later_open, planned_label, points_end, scheduled_label, starts_label, week, week_end, weeks_end};
ghost use Rattle.mrp_page.specs.layout.Refused.{none_refused, refused_answer, refused_open};
ghost use Rattle.mrp_page.specs.layout.Risk.{none_at_risk, risk_note, risk_open, risks_unknown};
ghost use Rattle.mrp_page.specs.layout.Said.{said_pieces};
ghost use Rattle.mrp_page.specs.layout.Todo.{order_start, order_week, task_middle, task_supply, to_week};
ghost use Rattle.mrp_page.specs.layout.Work.{work_back, work_blank, work_head, work_open, work_operation, work_other, work_rest, work_share, work_unknown};
ghost use Rattle.mrp_page.specs.layout.Head.{head_end};
ghost use Rattle.mrp_page.specs.Frame.{count_row, heading};
ghost use Rattle.mrp_page.specs.Kinds.{Kind, cancel, earlier, kind_html, kind_part, kinds, kinds_html, late, later, messages_of, open_count, open_html, order_of, other_messages, other_part, release, state_of, task_line, value_rank};
ghost use Rattle.std.specs.List.Sorted.{IsNonDecreasingBy};
ghost use Rattle.mrp_page.specs.Rows.{leaders, rank};
ghost use Rattle.mrp_page.specs.Notes.{Noted, notes_of};
ghost use Rattle.mrp_page.specs.Page.{head_html, page_html, scene_in, shown_html, shown_items, top_html};
ghost use Rattle.mrp_page.specs.Pictures.{drawn_balance};
ghost use Rattle.mrp_page.specs.Reading.{IsDayOf};
ghost use Rattle.mrp_page.specs.Receipts.{receipt_of};
ghost use Rattle.std.specs.Int.{IsInRange};
ghost use Rattle.jiff.specs.Types.{Date};
ghost use Rattle.mrp_cal.specs.Calendar.{IsShopCalendar, week_of};
ghost use Rattle.mrp_facts.specs.Dates.{AreDates, date_text, has_years};
ghost use Rattle.mrp_facts.specs.Facts.{Facts, item_facts, open_order};
ghost use Rattle.mrp_facts.specs.declared.facts.ItemFacts.{ItemFacts};
ghost use Rattle.mrp_page.specs.Weeks.{week_html, weeks_html};
ghost use Rattle.mrp_page.specs.Work.{WorkView, centre_named, work_orders, works_of};
ghost use Rattle.mrp_page.specs.Explained.{explained_html, falling_time, left_html, more_works_html, order_name_html, order_work, plain_html, time_html, time_share_row, work_line, works_first, works_or_none, works_table};
ghost use Rattle.mrp_work.specs.Work.{all_work, is_at, time_of};
ghost use Rattle.mrp_work.specs.Work as operations;
ghost use Rattle.mrp_work.specs.declared.order.Work.{Work};
ghost use Rattle.mrp_tables.specs.declared.rows.Receipt.{Receipt};
ghost use Rattle.mrp_page.specs.Numbering.{AreAnswers, lateness_of, numbered_pegs};
ghost use Rattle.mrp_page.specs.Promises.{drawn_risk, risk_line, risk_listing, risks_first, risks_html, risks_or_none};
ghost use Rattle.mrp_risk.specs.Chains.{HangsOn, weeks_late};
ghost use Rattle.mrp_risk.specs.Risks.{pieces_of, risk_at};
ghost use Rattle.mrp_risk.specs.declared.risk.Risk.{Risk};
ghost use Rattle.mrp_page.specs.Refused.{asked_of, entry_name_html, is_booking, refusals, refused_html, refused_rows, refused_section};
ghost use Rattle.mrp_page.specs.Row.{Cells, RowView, cell_at, same_text};
ghost use Rattle.mrp_page.specs.Rows.{rows_in, rows_named};
ghost use Rattle.mrp_page.specs.Section.{place_of};
ghost use Rattle.mrp_page.specs.Shown.{IsByItems, items_of_plan, items_to_show, rows_of, run_shown};
ghost use Rattle.mrp_page.specs.Spot.{Names};
ghost use Rattle.mrp_page.specs.Summary.{count_with, is_over, is_undone, over_tile, place_or, risk_tile, summary_html, tile_html};
ghost use Rattle.mrp_page.specs.Template.{Drawn, date_at, dated_html, has_word, number_at, row_html, week_at};
ghost use Rattle.mrp_page.specs.Dates.{cell_date, date_in, said_date};
ghost use Rattle.mrp_page.specs.Said.{back_of, by_urgency, front_of, is_release, item_messages, messages_at, pieces_row, said_html, said_known, said_of_open, said_order};
ghost use Rattle.mrp_page.specs.Todo.{value_of_message, word_of};
ghost use Rattle.mrp_page.specs.declared.limits.TheConstants.{FEW_ROWS, MOST_LINES, MOST_AMOUNT, RATE_UNIT, SOME_ROWS, TABLE_WEEKS};
ghost use Rattle.mrp_day.specs.declared.section.Section.{Section};
ghost use Rattle.mrp_day.specs.declared.section.Section.TheVariants as section;

/// A page is never cut short: it begins with the document type and ends with `</html>` and a line
/// feed.
pub fn pages_are_whole()
    ensures begins { (title : List ℕ) (tables : Option Facts) (notes : Noted) (risks : RisksView) → (rest : List ℕ) × (page_html title tables notes risks ≡ codes "<!doctype html>" ++ rest) }
    ensures ends { (title : List ℕ) (tables : Option Facts) (notes : Noted) (risks : RisksView) → (front : List ℕ) × (page_html title tables notes risks ≡ front ++ (codes "</html>" ++ 10 ∷ [])) }
{}

/// A row is drawn as markup and escaped texts, and each text is a cell of the row, or empty.
pub fn rows_show_their_cells()
    ensures drawn { (parts : List Drawn) (row : RowView) → row_html parts row ≡ flat_map piece_html (pieces row parts) }
    ensures cells { (parts : List Drawn) (row : RowView) → All (λ text. (text ≡ []) ⊎ Contains row.cells text) (shown (pieces row parts)) }
{}

/// Each row that a page keeps of a day, and so may show, is a record of the day.
pub fn kept_rows_stand_in_the_day()
    ensures history { (items : Names) (asked : Option ℕ) (records : List Cells) → All (λ r. Contains records r.cells) (notes_of items asked records).history }
    ensures report { (items : Names) (asked : Option ℕ) (records : List Cells) → All (λ r. Contains records r.cells) (notes_of items asked records).report }
{}

/// No row is lost: of the history, and of each section of the report that a page shows, the rows kept and the
/// rows counted as left out are together as many as the day has for the page to show. If items are named,
/// these are the rows of those items. Those that are kept are some of them, in their order, and all if none is
/// left out; they stand together, so the page finds all of them.
pub fn rows_are_kept_or_counted()
    ensures history { (items : Names) (asked : Option ℕ) (records : List Cells) (notes : Noted) → IsDayOf items asked records notes → length records < 2 ^ 64 → length notes.history + notes.counts.history ≡ length (rows_of section.History 0 records) }
    ensures report { (items : Names) (asked : Option ℕ) (records : List Cells) (notes : Noted) → IsDayOf items asked records notes → length records < 2 ^ 64 → (section : Section) → 2 ≤ place_of section → length (kept_of section notes) + missed_of section notes.counts ≡ length (wanted_rows items section (run_shown asked records) records) }
    ensures some { (items : Names) (asked : Option ℕ) (records : List Cells) (notes : Noted) → IsDayOf items asked records notes → length records < 2 ^ 64 → (section : Section) → 2 ≤ place_of section → AreSomeOf (records_of (kept_of section notes)) (wanted_rows items section (run_shown asked records) records) }
    ensures all { (items : Names) (asked : Option ℕ) (records : List Cells) (notes : Noted) → IsDayOf items asked records notes → length records < 2 ^ 64 → (section : Section) → 2 ≤ place_of section → missed_of section notes.counts ≡ 0 → records_of (kept_of section notes) ≡ wanted_rows items section (run_shown asked records) records }
    ensures together { (items : Names) (asked : Option ℕ) (records : List Cells) → length records < 2 ^ 64 → (section : Section) → rows_in section (notes_of items asked records).report ≡ kept_of section (notes_of items asked records) }
{}

/// A page consists of fixed markup, which is the same for every day, and of escaped texts that are known:
/// each is the title, a cell of a record of the day, the number of items, of what is folded or of what is not
/// shown, the word for that, or what stands of a booking at risk. Its only links to items, entries and orders are names of items that are shown,
/// each to its item, numbers of entries that are kept of the history, each to its entry, and links to orders
/// that are on the page.
pub fn pages_show_what_is_known()
    ensures { (title : List ℕ) (tables : Option Facts) (items : Names) (asked : Option ℕ) (records : List Cells) (risks : RisksView) → IsMadeOf (IsKnown title tables records (notes_of items asked records) risks) (Contains (names_shown (notes_of items asked records))) (Contains (entries_kept (notes_of items asked records))) (IsOrderShown (notes_of items asked records)) (page_html title tables (notes_of items asked records) risks) }
{}

/// An item's time-phased record shows its rows of the sections `plan` and `promises`. The numbers next to
/// each label, there and in a work centre's table, are those of the column that the label stands for, found
/// by the column's name in the day.
pub fn labels_stand_beside_their_columns()
    ensures record { (tables : Option Facts) (report : List RowView) (name : List ℕ) → named_record tables (item_lists report) name ≡ record_or_none tables name (rows_named name (rows_in section.Plan report)) (rows_named name (rows_in section.Promises report)) }
    ensures needs { (scheduled : Bool) (plan promises : List RowView) → record_rows scheduled plan promises ≡ amounts_html gross_label (column section.Plan (codes "gross")) plan ++ (supplies_html scheduled plan ++ (planned_html plan ++ promised_html promises)) }
    ensures scheduled { (plan : List RowView) → supplies_html true plan ≡ amounts_html scheduled_label (column section.Plan (codes "open")) plan }
    ensures firm { (plan : List RowView) → supplies_html false plan ≡ amounts_html firm_label (column section.Plan (codes "firm")) plan }
    ensures planned { (plan : List RowView) → planned_html plan ≡ amounts_html planned_label (column section.Plan (codes "planned")) plan ++ (amounts_html starts_label (column section.Plan (codes "start")) plan ++ measure_html balance_label (column section.Plan (codes "balance")) plan) }
    ensures booked { (promises : List RowView) → booked_html promises ≡ amounts_html booked_label (column section.Promises (codes "booked")) promises ++ measure_html available_label (column section.Promises (codes "available")) promises }
    ensures loads { (rows : List RowView) → loads_html rows ≡ times_html load_label (column section.Loads (codes "load")) rows ++ (times_html capacity_label (column section.Loads (codes "capacity")) rows ++ (shares_html rows ++ (times_html over_label (column section.Loads (codes "over")) rows ++ grid_end))) }
{}

/// The first weeks of a record, and of a work centre, stand in a table, and the further ones in one that is
/// folded: each week once, in order.
pub fn weeks_stand_once()
    ensures record { (tables : Option Facts) (frame : RowView) (scheduled : Bool) (plan promises : List RowView) → all_weeks tables frame scheduled plan promises ≡ record_table tables frame scheduled (take TABLE_WEEKS plan) (take TABLE_WEEKS promises) ++ later_record tables frame scheduled (drop TABLE_WEEKS plan) (drop TABLE_WEEKS promises) }
    ensures later { (tables : Option Facts) (frame : RowView) (scheduled : Bool) (row : RowView) (plan promises : List RowView) → later_record tables frame scheduled (row ∷ plan) promises ≡ later_open ++ (record_table tables frame scheduled (row ∷ plan) promises ++ rest_end) }
    ensures centre { (tables : Option Facts) (frame : RowView) (rows : List RowView) → all_loads tables frame rows ≡ loads_table tables frame (take TABLE_WEEKS rows) ++ later_loads tables frame (drop TABLE_WEEKS rows) }
    ensures later_loads { (tables : Option Facts) (frame row : RowView) (rows : List RowView) → later_loads tables frame (row ∷ rows) ≡ later_open ++ (loads_table tables frame (row ∷ rows) ++ rest_end) }
    ensures all { (rows : List RowView) → take TABLE_WEEKS rows ++ drop TABLE_WEEKS rows ≡ rows }
{}

/// Each week of a record, and of a work centre's table, stands with its date if the tables are given: that of a day which falls
/// in this week. Without them it has none.
pub fn weeks_stand_with_their_dates()
    ensures weeks { (tables : Option Facts) (rows : List RowView) → weeks_html tables rows ≡ flat_map (week_html tables) rows ++ weeks_end }
    ensures undated { (row : RowView) → week_html None row ≡ codes "<th scope=col>" ++ (escaped (cell_at row 1) ++ codes "</th>") }
    ensures dated { (facts : Facts) (row : RowView) (number : ℕ) → IsShopCalendar facts.tables.calendar → AreDates facts.tables.calendar facts.dates → IsInRange 1 facts.tables.calendar.weeks number → cell_at row 1 ≡ decimal number → (date : Date) × (week_of facts.tables.calendar date ≡ Some number) × (week_html (Some facts) row ≡ row_html week row ++ ((codes "<br><small>" ++ (escaped (date_text (has_years facts.tables.calendar) date) ++ codes "</small>")) ++ week_end)) }
{}

/// Each week of a list, and each that is said, stands with its date if the tables are given: that of a day which falls in the week
/// beside it. Without them it has none. The weeks are those of the day's columns: of orders, messages, pegs, bookings at risk,
/// calls, entries, operations and overloads. An overload is said in the same words with its operations behind it and without.
pub fn weeks_of_lists_stand_with_their_dates()
    ensures undated { (parts : List Drawn) (row : RowView) → dated_html None parts row ≡ row_html parts row }
    ensures alone { (column : ℕ) (row : RowView) → week_at None column row ≡ codes "<td>" ++ (escaped (cell_at row column) ++ codes "</td>") }
    ensures unsaid { (column : ℕ) (row : RowView) → date_at None column row ≡ [] }
    ensures dated { (facts : Facts) (column : ℕ) (row : RowView) (number : ℕ) → IsShopCalendar facts.tables.calendar → AreDates facts.tables.calendar facts.dates → IsInRange 1 facts.tables.calendar.weeks number → cell_at row column ≡ decimal number → (date : Date) × (week_of facts.tables.calendar date ≡ Some number) × (week_at (Some facts) column row ≡ codes "<td>" ++ (escaped (decimal number) ++ ((codes " <i>" ++ (escaped (date_text (has_years facts.tables.calendar) date) ++ codes "</i>")) ++ codes "</td>"))) }
    ensures said { (facts : Facts) (column : ℕ) (row : RowView) (number : ℕ) → IsShopCalendar facts.tables.calendar → AreDates facts.tables.calendar facts.dates → IsInRange 1 facts.tables.calendar.weeks number → cell_at row column ≡ decimal number → (date : Date) × (week_of facts.tables.calendar date ≡ Some number) × (date_at (Some facts) column row ≡ codes " (" ++ (escaped (date_text (has_years facts.tables.calendar) date) ++ codes ")")) }
    ensures order { (tables : Option Facts) (row : RowView) → (front : List ℕ) × (dated_html tables order row ≡ front ++ (week_at tables (column section.Orders (codes "due")) row ++ (number_at (column section.Orders (codes "quantity")) row ++ (number_at (column section.Orders (codes "start")) row ++ (week_at tables (column section.Orders (codes "release")) row ++ (number_at (column section.Orders (codes "late")) row ++ (codes "</tr>\n" ++ []))))))) }
    ensures to_week { (tables : Option Facts) (message : RowView) → dated_html tables to_week message ≡ week_at tables (column section.Messages (codes "value")) message ++ (codes "</tr>\n" ++ []) }
    ensures peg { (scene : SceneView) (peg : RowView) → (front : List ℕ) × (peg_html scene peg ≡ front ++ (week_at scene.tables (column section.Pegs (codes "week")) peg ++ (codes "</tr>\n" ++ []))) }
    ensures at_risk { (scene : SceneView) (peg latest : RowView) (pieces : List ℕ) → (front : List ℕ) × (back : List ℕ) × (risk_line scene (drawn_risk peg latest pieces) ≡ front ++ (number_html pieces ++ (week_at scene.tables (column section.Pegs (codes "week")) peg ++ back))) }
    ensures runs_out { (scene : SceneView) (week : RowView) → (front : List ℕ) × (back : List ℕ) × (out_line scene (out_row scene week) ≡ front ++ (week_at scene.tables (column section.Plan (codes "week")) week ++ back)) }
    ensures call { (scene : SceneView) (call : RowView) → (front : List ℕ) × (back : List ℕ) × (refused_html scene call ≡ front ++ (number_at (column section.History (codes "quantity")) (asked_of scene.history call) ++ (week_at scene.tables (column section.History (codes "week")) (asked_of scene.history call) ++ back))) }
    ensures entry { (tables : Option Facts) (row : RowView) → (front : List ℕ) × (back : List ℕ) × (dated_html tables entry row ≡ front ++ (week_at tables (column section.History (codes "week")) row ++ (number_at (column section.History (codes "quantity")) row ++ back))) }
    ensures history { (tables : Option Facts) (history : List RowView) (missed : ℕ) → (front : List ℕ) × (back : List ℕ) × (history_html tables history missed ≡ front ++ (flat_map (dated_html tables entry) history ++ back)) }
    ensures operation { (tables : Option Facts) (order : RowView) → dated_html tables work_back order ≡ number_at (column section.Orders (codes "start")) order ++ (week_at tables (column section.Orders (codes "due")) order ++ (number_at (column section.Orders (codes "late")) order ++ (codes "</tr>\n" ++ []))) }
    ensures overload { (tables : Option Facts) (row : RowView) → (front : List ℕ) × (back : List ℕ) × (dated_html tables over_words row ≡ front ++ (codes "</a>, week " ++ (escaped (cell_at row (column section.Loads (codes "week"))) ++ (date_at tables (column section.Loads (codes "week")) row ++ back)))) }
    ensures plain { (tables : Option Facts) (load : RowView) → plain_html tables load ≡ bullet_open ++ (dated_html tables over_words (share_row load) ++ bullet_end) }
    ensures explained { (scene : SceneView) (orders : List RowView) (load : RowView) (works : List Work) → (back : List ℕ) × (explained_html scene orders load works ≡ work_open ++ (dated_html scene.tables over_words (share_row load) ++ back)) }
    ensures worst { (tables : Option Facts) (rows : List RowView) → (front : List ℕ) × (back : List ℕ) × (dated_html tables overloaded_line (overloaded_row rows) ≡ front ++ (codes "</b> in week " ++ (escaped (cell_at (worst_week rows) (column section.Loads (codes "week"))) ++ (date_at tables (column section.Loads (codes "week")) (worst_week rows) ++ back)))) }
{}

/// The picture of loads is drawn week by week: a bar as high as the share of the capacity, up to 200 %, with
/// another colour where the share is above 100 %, and a mark where the bar is cut. The picture of balances is
/// a line from week to week, whose scale names the item's safety stock if it has one.
pub fn pictures_are_drawn_from_their_columns()
    ensures loads { (shares : List RowView) → bars_html shares ≡ (flat_map (row_html low_bar) shares ++ low_end) ++ ((flat_map (row_html hot_bar) shares ++ hot_end) ++ ((flat_map (row_html above_bar) shares ++ above_end) ++ flat_map (row_html cut_bar) shares)) }
    ensures low { (load : RowView) (percent : ℕ) → share_of load ≡ Some percent → percent ≤ 100 → row_html low_bar (share_row load) ≡ codes "M" ++ (escaped (cell_at load 1) ++ (codes " 0v" ++ (escaped (decimal percent) ++ (codes "h.8V0z" ++ [])))) }
    ensures hot { (load : RowView) (percent : ℕ) → share_of load ≡ Some percent → 100 < percent → row_html hot_bar (share_row load) ≡ codes "M" ++ (escaped (cell_at load 1) ++ (codes " 0v" ++ (escaped (codes "100") ++ (codes "h.8V0z" ++ [])))) }
    ensures above { (load : RowView) (percent : ℕ) → share_of load ≡ Some percent → 100 < percent → row_html above_bar (share_row load) ≡ codes "M" ++ (escaped (cell_at load 1) ++ (codes " 100v" ++ (escaped (decimal (min percent 200 - 100)) ++ (codes "h.8V100z" ++ [])))) }
    ensures cut { (load : RowView) (percent : ℕ) → share_of load ≡ Some percent → 200 < percent → row_html cut_bar (share_row load) ≡ codes "M" ++ (escaped (cell_at load 1) ++ (codes " 204h.8l-.4 " ++ (escaped (codes "20") ++ (codes "z" ++ [])))) }
    ensures uncut { (load : RowView) (percent : ℕ) → share_of load ≡ Some percent → percent ≤ 200 → row_html cut_bar (share_row load) ≡ codes "M" ++ (escaped (cell_at load 1) ++ (codes " 204h.8l-.4 " ++ (escaped (codes "0") ++ (codes "z" ++ [])))) }
    ensures safety { (facts : Facts) (frame : RowView) (own : ItemFacts) → item_facts facts.tables (cell_at frame 0) ≡ Some own → 0 < own.item.safety → scale_html (Some facts) frame ≡ codes "<span>dashes: safety stock " ++ (escaped (decimal own.item.safety) ++ (codes "</span>" ++ [])) }
    ensures balances { (rows : List RowView) → points_html rows ≡ flat_map drawn_balance rows ++ points_end }
{}

/// Each bar of a work centre's picture is drawn from the load and the capacity of its own week: up to 200 %, and in full if
/// there is no capacity. Where what is over is the load less the capacity, as in each plan, a bar is red above 100 % exactly if
/// the day says that minutes are over, which they are exactly if the load is above the capacity.
pub fn bars_are_of_their_weeks()
    ensures centre { (tables : Option Facts) (loads : List RowView) (leader : RowView) → (front : List ℕ) × (back : List ℕ) × (centre_html tables loads leader ≡ front ++ (bars_html (map share_row (rows_named (cell_at leader 0) loads)) ++ back)) }
    ensures week { (load : RowView) → cell_at (share_row load) 1 ≡ cell_at load (column section.Loads (codes "week")) }
    ensures full { (load : RowView) → share_of load ≡ None → (row_html low_bar (share_row load) ≡ codes "M" ++ (escaped (cell_at load 1) ++ (codes " 0v" ++ (escaped (codes "0") ++ (codes "h.8V0z" ++ []))))) × ((row_html hot_bar (share_row load) ≡ codes "M" ++ (escaped (cell_at load 1) ++ (codes " 0v" ++ (escaped (codes "100") ++ (codes "h.8V0z" ++ []))))) × ((row_html above_bar (share_row load) ≡ codes "M" ++ (escaped (cell_at load 1) ++ (codes " 100v" ++ (escaped (codes "100") ++ (codes "h.8V100z" ++ []))))) × (row_html cut_bar (share_row load) ≡ codes "M" ++ (escaped (cell_at load 1) ++ (codes " 204h.8l-.4 " ++ (escaped (codes "20") ++ (codes "z" ++ []))))))) }
    ensures over { (row : RowView) (load capacity : ℕ) → HasTimes row load capacity → capacity < load → is_over row ≡ true }
    ensures within { (row : RowView) (load capacity : ℕ) → HasTimes row load capacity → load ≤ capacity → is_over row ≡ false }
    ensures red { (row : RowView) (load capacity : ℕ) → HasTimes row load capacity → is_over row ≡ true → row_html hot_bar (share_row row) ≡ codes "M" ++ (escaped (cell_at row 1) ++ (codes " 0v" ++ (escaped (codes "100") ++ (codes "h.8V0z" ++ [])))) }
    ensures blue { (row : RowView) (load capacity : ℕ) → HasTimes row load capacity → is_over row ≡ false → row_html hot_bar (share_row row) ≡ codes "M" ++ (escaped (cell_at row 1) ++ (codes " 0v" ++ (escaped (codes "0") ++ (codes "h.8V0z" ++ [])))) }
{}

/// A share of a capacity is its load in per cent, rounded up. It is above 100 % exactly if the load is above
/// the capacity. A load without capacity has none.
pub fn shares_are_exact()
    ensures columns { (load : RowView) → share_of load ≡ share (amount (cell_at load (column section.Loads (codes "load")))) (amount (cell_at load (column section.Loads (codes "capacity")))) }
    ensures minutes { (time : ℕ) → time ≤ MOST_AMOUNT → amount (minutes_text_of time) ≡ time }
    ensures exact { (load capacity percent : ℕ) → 0 < capacity → share load capacity ≡ Some percent → (load * 100 ≤ percent * capacity) × (percent * capacity < load * 100 + capacity) }
    ensures above { (load capacity percent : ℕ) → share load capacity ≡ Some percent → capacity < load → 100 < percent }
    ensures within { (load capacity percent : ℕ) → share load capacity ≡ Some percent → load ≤ capacity → percent ≤ 100 }
    ensures none { (load capacity : ℕ) → share load capacity ≡ None → (capacity ≡ 0) × (0 < load) }
{}

/// The weeks of work centres that are over their capacity stand by week, and each once.
pub fn overloads_stand_in_order()
    ensures once { (loads : List RowView) → IsPermutation (filter is_over loads) (overloads_first loads) }
    ensures order { (loads : List RowView) → IsNonDecreasingBy week_rank (overloads_first loads) }
    ensures shown { (scene : SceneView) (work : Option WorkView) (missed : ℕ) (load : RowView) (rows : List RowView) → over_or_none scene work missed (load ∷ rows) ≡ row_html over_open (count_row (length (load ∷ rows)) [] []) ++ (explained_note work ++ capped_html (over_listing scene work) SOME_ROWS (load ∷ rows)) }
{}

/// Behind an overload that is explained stand the operations that load it: each operation, by the routings of the day's tables,
/// of an order that is kept, at this work centre and in this week, once, those first that take the most time. Ten
/// stand one by one with their minutes, the others are counted with the sum of theirs, and what else the load has stands as
/// its rest. These times make up the load, in thousandths of a minute. If the operations take more time than the load
/// has, the page says so in their place.
pub fn operations_make_the_load()
    ensures works { (work : WorkView) (load : RowView) (centre : ℕ) → centre_named work.facts.tables (cell_at load (column section.Loads (codes "centre"))) ≡ Some centre → Contains work.asked load → works_of work load ≡ Some (filter (is_at centre (amount (cell_at load (column section.Loads (codes "week"))))) (all_work work.facts.tables.routings (work_orders work.facts.tables work.orders))) }
    ensures once { (works : List Work) → IsPermutation works (works_first works) }
    ensures order { (works : List Work) → IsNonDecreasingBy falling_time (works_first works) }
    ensures drawn { (scene : SceneView) (orders : List RowView) (load : RowView) (works : List Work) → operations.total works ≤ amount (cell_at load (column section.Loads (codes "load"))) → works_or_none scene orders load works ≡ row_html work_head (share_row load) ++ (flat_map (work_line scene orders load) (take SOME_ROWS (works_first works)) ++ (more_works_html load (drop SOME_ROWS (works_first works)) ++ (left_html load (amount (cell_at load 2) - operations.total works) ++ grid_end))) }
    ensures too_much { (scene : SceneView) (orders : List RowView) (load : RowView) (works : List Work) → amount (cell_at load (column section.Loads (codes "load"))) < operations.total works → works_or_none scene orders load works ≡ work_unknown }
    ensures one { (scene : SceneView) (order load : RowView) (work : Work) → order_work scene order load work ≡ row_open ++ (order_name_html scene order ++ (row_html work_operation (count_row work.operation [] []) ++ (time_html load work.time ++ dated_html scene.tables work_back order))) }
    ensures others { (load : RowView) (work : Work) (works : List Work) → more_works_html load (work ∷ works) ≡ row_html work_rest (count_row (length (work ∷ works)) [] []) ++ (time_html load (operations.total (work ∷ works)) ++ work_blank) }
    ensures left { (load : RowView) (time : ℕ) → 0 < time → left_html load time ≡ work_other ++ (time_html load time ++ work_blank) }
    ensures minutes { (load : RowView) (time : ℕ) → time_html load time ≡ minutes_html (minutes_text_of time) ++ row_html work_share (time_share_row load time) }
    ensures sum { (works : List Work) (load : RowView) → operations.total works ≤ amount (cell_at load (column section.Loads (codes "load"))) → (time_of (take SOME_ROWS (works_first works)) + operations.total (drop SOME_ROWS (works_first works))) + (amount (cell_at load 2) - operations.total works) ≡ amount (cell_at load (column section.Loads (codes "load"))) }
    ensures exact { (works : List Work) (load : RowView) → operations.total works ≤ amount (cell_at load (column section.Loads (codes "load"))) → operations.total (drop SOME_ROWS (works_first works)) ≡ time_of (drop SOME_ROWS (works_first works)) }
{}

/// The work centres that are over their capacity in some week stand by how much time is over for the capacity of all
/// weeks, the most first, and each once. Those without capacity stand before all others. The first three are shown.
pub fn overloaded_centres_stand_in_order()
    ensures once { (loads : List RowView) → IsPermutation (map (weeks_of loads) (leaders [] (filter is_over loads))) (overloaded_first loads) }
    ensures order { (loads : List RowView) (i j : ℕ) (d : List RowView) → i ≤ j → j < length (overloaded_first loads) → rate_of (slice_index_or (overloaded_first loads) j d) ≤ rate_of (slice_index_or (overloaded_first loads) i d) }
    ensures rate { (rows : List RowView) → rate_of rows ≡ rate (total (column section.Loads (codes "over")) rows) (total (column section.Loads (codes "capacity")) rows) }
    ensures exact { (over capacity : ℕ) → 0 < capacity → (rate over capacity * capacity ≤ over * RATE_UNIT) × (over * RATE_UNIT < capacity * (rate over capacity + 1)) }
    ensures without { (over other capacity : ℕ) → other ≤ MOST_AMOUNT → rate other capacity ≤ rate over 0 }
    ensures total { (column : ℕ) (rows : List RowView) → total column rows ≡ min (sum_by (λ r. amount (cell_at r column)) rows) MOST_AMOUNT }
    ensures shown { (tables : Option Facts) (rows : List RowView) (centres : List (List RowView)) → most_overloaded tables (rows ∷ centres) ≡ overloaded_open ++ (flat_map (overloaded_html tables) (take 3 (rows ∷ centres)) ++ section_end) }
{}

/// What is said of an overloaded work centre: in how many of its weeks it is over its capacity, the greatest share and
/// its week, and the share of all weeks.
pub fn overloaded_centres_have_their_shares()
    ensures weeks { (rows : List RowView) → cell_at (overloaded_row rows) 1 ≡ decimal (length (filter is_over rows)) }
    ensures worst { (rows : List RowView) (load : RowView) (loads : List RowView) → sorted_by falling_share (filter is_over rows) ≡ load ∷ loads → worst_week rows ≡ share_row load }
    ensures greatest { (rows : List RowView) → IsNonDecreasingBy falling_share (sorted_by falling_share (filter is_over rows)) }
    ensures all { (rows : List RowView) → share_of_all rows ≡ share (total (column section.Loads (codes "load")) rows) (total (column section.Loads (codes "capacity")) rows) }
    ensures picture { (tables : Option Facts) (rows : List RowView) → overloaded_html tables rows ≡ dated_html tables overloaded_line (overloaded_row rows) ++ picture_html (centre_frame (name_of rows) rows) (map share_row rows) }
{}

/// The items that run out stand by week: each once, at the first week in which orders are planned to be
/// received, with its balance less those, and with its safety stock if the tables are given. The first five are shown,
/// behind how many there are.
pub fn items_run_out_in_order()
    ensures once { (scene : SceneView) (plan : List RowView) → IsPermutation (map (out_row scene) (leaders [] (filter is_planned plan))) (outs_first scene plan) }
    ensures order { (scene : SceneView) (plan : List RowView) → IsNonDecreasingBy week_rank (outs_first scene plan) }
    ensures shown { (scene : SceneView) (missed : ℕ) (out : RowView) (outs : List RowView) → outs_html scene missed (out ∷ outs) ≡ row_html outs_note (count_row (length (out ∷ outs)) [] []) ++ outs_table scene (take FEW_ROWS (out ∷ outs)) }
    ensures safety { (facts : Facts) (name : List ℕ) (own : ItemFacts) → item_facts facts.tables name ≡ Some own → safety_cell_html (Some facts) name ≡ number_html (decimal own.item.safety) }
    ensures over { (balance planned : ℕ) → planned ≤ balance → (sign balance planned ≡ []) × (distance balance planned ≡ balance - planned) }
    ensures short { (balance planned : ℕ) → balance < planned → (sign balance planned ≡ codes "-") × (distance balance planned ≡ planned - balance) }
{}

/// The supplies of an item have one of two labels: *firm master schedule* for an item with promises or with
/// firm pieces in some week, *scheduled receipts* for any other.
pub fn supplies_have_one_label()
    ensures record { (tables : Option Facts) (frame : RowView) (plan promises : List RowView) → framed_record tables frame plan promises ≡ balance_html tables frame plan ++ all_weeks tables frame (is_scheduled plan promises) plan promises }
    ensures promised { (plan : List RowView) (row : RowView) (promises : List RowView) → is_scheduled plan (row ∷ promises) ≡ false }
    ensures firm { (plan promises : List RowView) (firm : List ℕ) → AreFirm plan firm → (pieces : ℕ) → Contains firm pieces → 0 < pieces → is_scheduled plan promises ≡ false }
    ensures scheduled { (plan : List RowView) (firm : List ℕ) → AreFirm plan firm → All (λ pieces. pieces ≡ 0) firm → is_scheduled plan [] ≡ true }
{}

/// Each message that is kept is shown once in *To do*, in the fold of its kind, and once more with its item if
/// that is shown, the most urgent first. A fold shows its messages one by one, up to the most that a list
/// shows.
pub fn messages_stand_once()
    ensures once { (messages : List RowView) → IsPermutation messages (flat_map (messages_of messages) kinds ++ other_messages messages) }
    ensures todo { (title : List ℕ) (tables : Option Facts) (notes : Noted) (risks : RisksView) → (front : List ℕ) × (back : List ℕ) × (page_html title tables notes risks ≡ front ++ (kinds_html (scene_in tables notes) (rows_in section.Messages notes.report) ++ back)) }
    ensures kinds { (scene : SceneView) (messages : List RowView) → kinds_html scene messages ≡ flat_map (kind_part scene messages) kinds ++ other_part scene messages }
    ensures kind { (kind : Kind) (scene : SceneView) (state : List ℕ) (r : RowView) (rows : List RowView) → (front : List ℕ) × (between : List ℕ) × (back : List ℕ) × (kind_html kind scene state (r ∷ rows) ≡ row_html kind.head (count_row (length (r ∷ rows)) state state) ++ (front ++ (flat_map (task_line kind scene) (take SOME_ROWS (take MOST_LINES (r ∷ rows))) ++ (between ++ (flat_map (task_line kind scene) (drop SOME_ROWS (take MOST_LINES (r ∷ rows))) ++ back))))) }
    ensures urgency { (messages : List RowView) → IsPermutation messages (by_urgency messages) }
    ensures item { (scene : SceneView) (rows : ItemLists) (leader r : RowView) (rest : List RowView) → messages_at rows leader ≡ r ∷ rest → (front : List ℕ) × (between : List ℕ) × (back : List ℕ) × (item_messages scene rows leader ≡ front ++ (flat_map (said_html scene) (take FEW_ROWS (r ∷ rest)) ++ (between ++ (flat_map (said_html scene) (drop FEW_ROWS (r ∷ rest)) ++ back)))) }
    ensures of_item { (rows : ItemLists) (leader : RowView) → messages_at rows leader ≡ by_urgency (rows_named (cell_at leader 0) rows.messages) }
{}

/// The fold of each kind of messages begins with its standard word and with how many messages it has.
pub fn kinds_have_their_words()
    ensures past_due { (n : ℕ) (state : List ℕ) → row_html late.head (count_row n state state) ≡ codes "<details class=\"kind late\" id=late open><summary><b>Past due: " ++ (escaped (decimal n) ++ (codes "</b> <small>release now and expedite; from version 2 on, late by shop days</small></summary>\n" ++ [])) }
    ensures release { (n : ℕ) (state : List ℕ) → row_html release.head (count_row n state state) ≡ codes "<details class=\"kind release\" id=release open><summary><b>Release: " ++ (escaped (decimal n) ++ (codes "</b> <small>release this week</small></summary>\n" ++ [])) }
    ensures earlier { (n : ℕ) (state : List ℕ) → (front : List ℕ) × (row_html earlier.head (count_row n state state) ≡ front ++ (codes "><summary><b>Reschedule in: " ++ (escaped (decimal n) ++ (codes "</b> <small>needed before its week</small></summary>\n" ++ [])))) }
    ensures later { (n : ℕ) (state : List ℕ) → (front : List ℕ) × (row_html later.head (count_row n state state) ≡ front ++ (codes "><summary><b>Reschedule out: " ++ (escaped (decimal n) ++ (codes "</b> <small>needed only after its week</small></summary>\n" ++ [])))) }
    ensures cancel { (n : ℕ) (state : List ℕ) → (front : List ℕ) × (row_html cancel.head (count_row n state state) ≡ front ++ (codes "><summary><b>Cancel: " ++ (escaped (decimal n) ++ (codes "</b> <small>not needed within these weeks</small></summary>\n" ++ [])))) }
{}

/// The pieces, the start and the week of a message in *To do* are those of the kept order of its item with its
/// number and kind. An order is found by its number if that is its place among the kept orders of its item, counted
/// from 1, as in each plan. The pieces and the week of an open order are its receipt's, or without one its pieces
/// are what its pegs have together, if all pegs are kept.
pub fn messages_have_their_orders()
    ensures order { (kind : Kind) (scene : SceneView) (message order : RowView) → order_of scene message ≡ Some order → task_line kind scene message ≡ row_open ++ (item_name_html scene.shown (cell_at message 0) ++ (task_middle ++ (linked_html scene (Some order) (row_html task_supply message) ++ (codes "</td>" ++ (dated_html scene.tables kind.order order ++ dated_html scene.tables kind.value message))))) }
    ensures of_message { (scene : SceneView) (message : RowView) → order_of scene message ≡ ordered scene (cell_at message (column section.Messages (codes "item"))) (cell_at message (column section.Messages (codes "supply"))) (cell_at message (column section.Messages (codes "source"))) }
    ensures placed { (scene : SceneView) (name : List ℕ) (place : ℕ) (order : RowView) → place < MOST_AMOUNT → slice_get (rows_named name scene.orders) place ≡ Some order → cell_at order (column section.Orders (codes "order")) ≡ decimal (place + 1) → ordered scene name (cell_at order (column section.Orders (codes "kind"))) (decimal (place + 1)) ≡ Some order }
    ensures parent { (scene : SceneView) (name : List ℕ) (place : ℕ) (order : RowView) → place < MOST_AMOUNT → slice_get (rows_named name scene.orders) place ≡ Some order → cell_at order (column section.Orders (codes "order")) ≡ decimal (place + 1) → numbered scene name (decimal (place + 1)) ≡ Some order }
    ensures found { (scene : SceneView) (name kind number : List ℕ) (order : RowView) → ordered scene name kind number ≡ Some order → Contains (rows_named name scene.orders) order × (is_order name kind number order ≡ true) }
    ensures same { (name kind number : List ℕ) (order : RowView) → is_order name kind number order ≡ (same_text (cell_at order (column section.Orders (codes "item"))) name && (same_text (cell_at order (column section.Orders (codes "order"))) number && same_text (cell_at order (column section.Orders (codes "kind"))) kind)) }
    ensures pieces { (scene : SceneView) (message : RowView) → receipt_of scene.tables message ≡ None → scene.whole ≡ true → cell_at message (column section.Messages (codes "supply")) ≡ codes "open" → open_html scene message ≡ number_html (decimal (open_count scene message)) ++ (codes "<td></td><td></td>" ++ []) }
    ensures received { (scene : SceneView) (message : RowView) (receipt : Receipt) → receipt_of scene.tables message ≡ Some receipt → open_html scene message ≡ number_html (decimal receipt.quantity) ++ (codes "<td></td>" ++ (codes "<td>" ++ (escaped (decimal receipt.week) ++ (cell_date (date_in scene.tables (decimal receipt.week)) ++ codes "</td>")) ++ [])) }
    ensures receipt { (facts : Facts) (message : RowView) → cell_at message (column section.Messages (codes "supply")) ≡ codes "open" → receipt_of (Some facts) message ≡ open_order facts.tables (cell_at message (column section.Messages (codes "item"))) (cell_at message (column section.Messages (codes "source"))) }
    ensures start { (tables : Option Facts) (order : RowView) → dated_html tables order_start order ≡ number_at (column section.Orders (codes "quantity")) order ++ (number_at (column section.Orders (codes "start")) order ++ (week_at tables (column section.Orders (codes "due")) order ++ [])) }
    ensures week { (tables : Option Facts) (order : RowView) → dated_html tables order_week order ≡ number_at (column section.Orders (codes "quantity")) order ++ (codes "<td></td>" ++ (week_at tables (column section.Orders (codes "due")) order ++ [])) }
{}

/// What is said of a message at its item begins with its standard term, and ends with its value if that has a meaning:
/// a week, with its date if the tables are given, or how many weeks the order is past due. Any other message is said with its own word and value.
pub fn messages_stand_under_their_words()
    ensures past_due { (tables : Option Facts) (message : RowView) → word_of message ≡ codes "PAST-DUE" → (row_html (front_of message) message ≡ codes "<li class=\"late\">Past due: ") × (dated_html tables (back_of message) message ≡ codes ", weeks late (shop days from version 2 on): " ++ (escaped (value_of_message message) ++ codes "</li>\n")) }
    ensures release { (tables : Option Facts) (message : RowView) → word_of message ≡ codes "RELEASE" → (row_html (front_of message) message ≡ codes "<li class=\"release\">Release: ") × (dated_html tables (back_of message) message ≡ escaped (value_of_message message) ++ codes "</li>\n") }
    ensures earlier { (tables : Option Facts) (message : RowView) → word_of message ≡ codes "IN" → (row_html (front_of message) message ≡ codes "<li class=\"in\">Reschedule in: ") × (dated_html tables (back_of message) message ≡ codes " to week " ++ (escaped (value_of_message message) ++ (date_at tables (column section.Messages (codes "value")) message ++ codes "</li>\n"))) }
    ensures later { (tables : Option Facts) (message : RowView) → word_of message ≡ codes "OUT" → (row_html (front_of message) message ≡ codes "<li class=\"out\">Reschedule out: ") × (dated_html tables (back_of message) message ≡ codes " to week " ++ (escaped (value_of_message message) ++ (date_at tables (column section.Messages (codes "value")) message ++ codes "</li>\n"))) }
    ensures cancel { (tables : Option Facts) (message : RowView) → word_of message ≡ codes "CANCEL" → (row_html (front_of message) message ≡ codes "<li class=\"cancel\">Cancel: ") × (dated_html tables (back_of message) message ≡ escaped (value_of_message message) ++ codes "</li>\n") }
    ensures another { (tables : Option Facts) (message : RowView) → is_plain message ≡ false → (row_html (front_of message) message ≡ codes "<li>" ++ (escaped (word_of message) ++ codes ": ")) × (dated_html tables (back_of message) message ≡ codes " " ++ (escaped (value_of_message message) ++ codes "</li>\n")) }
{}

/// Between its term and its value the sentence of a message names its order, with the order's pieces and weeks: the start
/// and the due week of an order to be released, the due week of any other. Of an open order it has the pieces and the
/// week of its receipt, or without one the pieces of its pegs, if all pegs are kept.
pub fn sentences_have_their_orders()
    ensures sentence { (scene : SceneView) (message : RowView) → said_html scene message ≡ row_html (front_of message) message ++ (linked_html scene (order_of scene message) (row_html task_supply message) ++ (said_known scene message (order_of scene message) ++ dated_html scene.tables (back_of message) message)) }
    ensures released { (tables : Option Facts) (message order : RowView) → is_release message ≡ true → said_order tables message order ≡ row_html said_pieces (pieces_row (cell_at order (column section.Orders (codes "quantity")))) ++ (codes ", " ++ (escaped (cell_at order (column section.Orders (codes "start"))) ++ (codes " to start, due week " ++ (escaped (cell_at order (column section.Orders (codes "due"))) ++ (date_at tables (column section.Orders (codes "due")) order ++ []))))) }
    ensures moved { (tables : Option Facts) (message order : RowView) → is_release message ≡ false → said_order tables message order ≡ row_html said_pieces (pieces_row (cell_at order (column section.Orders (codes "quantity")))) ++ (codes ", week " ++ (escaped (cell_at order (column section.Orders (codes "due"))) ++ (date_at tables (column section.Orders (codes "due")) order ++ []))) }
    ensures open_order { (scene : SceneView) (message : RowView) → scene.whole ≡ true → cell_at message (column section.Messages (codes "supply")) ≡ codes "open" → said_of_open scene message ≡ row_html said_pieces (pieces_row (decimal (open_count scene message))) }
    ensures received { (scene : SceneView) (message : RowView) (receipt : Receipt) → receipt_of scene.tables message ≡ Some receipt → said_known scene message None ≡ row_html said_pieces (pieces_row (decimal receipt.quantity)) ++ (codes ", week " ++ (escaped (decimal receipt.week) ++ (said_date (date_in scene.tables (decimal receipt.week)) ++ []))) }
    ensures pieces { (pieces : List ℕ) → row_html said_pieces (pieces_row pieces) ≡ codes ", " ++ (escaped pieces ++ (escaped (cell_at (pieces_row pieces) 1) ++ [])) }
{}

/// A link to an item leads to where that item's part of the page begins, and one to an order to where the
/// order stands among those of its item.
pub fn links_lead_to_items()
    ensures link { (name : List ℕ) → link_html name ≡ codes "<a href=\"#i-" ++ (escaped name ++ (codes "\">" ++ (escaped name ++ codes "</a>"))) }
    ensures item { (scene : SceneView) (rows : ItemLists) (missed : ℕ) (leader : RowView) → (rest : List ℕ) × (item_html scene rows missed leader ≡ codes "<section class=item id=\"i-" ++ (escaped (cell_at leader 0) ++ (codes "\">" ++ rest))) }
    ensures order_link { (number name : List ℕ) → order_link number name ≡ codes "<a href=\"#o-" ++ (escaped number ++ (codes "-" ++ (escaped name ++ codes "\">"))) }
    ensures order { (tables : Option Facts) (row : RowView) → (rest : List ℕ) × (dated_html tables order row ≡ codes "<tr id=\"o-" ++ (escaped (cell_at row 1) ++ (codes "-" ++ (escaped (cell_at row 0) ++ (codes "\">" ++ rest))))) }
    ensures orders { (tables : Option Facts) (rows : List RowView) → orders_html tables rows ≡ orders_open ++ (flat_map (dated_html tables order) rows ++ grid_end) }
    ensures lists { (scene : SceneView) (name : List ℕ) → (rest : List ℕ) × (item_lists_html scene name ≡ lists_open ++ (orders_html scene.tables (rows_named name scene.orders) ++ rest)) }
{}

/// The ids of a page differ from one another, if what is kept of the day can be told apart, as in each plan. The items that are
/// shown differ in each day in which the rows of an item stand together.
pub fn ids_differ()
    ensures ids { (notes : Noted) → AreNamed notes → AreApart (page_ids notes) }
    ensures items { (items : Names) (asked : Option ℕ) (records : List Cells) (notes : Noted) → IsDayOf items asked records notes → IsByItems records → AreApart (names_shown notes) }
{}

/// Where a link of a page leads, there is a part with that id: each section, each item that is shown, each order of one, each
/// entry that is kept of the history, each work centre that a row of the loads names, and each kind of messages that has some. A
/// count of a kind leads to it, or to *To do* if it has none.
pub fn links_lead_to_ids()
    ensures sections { (title : List ℕ) (tables : Option Facts) (notes : Noted) (risks : RisksView) → All (λ id. IsPartOf (codes "<section id=" ++ (id ++ codes ">")) (page_html title tables notes risks)) section_ids }
    ensures item { (title : List ℕ) (tables : Option Facts) (notes : Noted) (risks : RisksView) (name : List ℕ) → Contains (names_shown notes) name → IsPartOf (codes "<section class=item id=\"" ++ (item_id name ++ codes "\">")) (page_html title tables notes risks) }
    ensures order { (title : List ℕ) (tables : Option Facts) (notes : Noted) (risks : RisksView) (number name : List ℕ) → Contains (names_shown notes) name → Contains (order_numbers notes name) number → IsPartOf (codes "<tr id=\"" ++ (order_id number name ++ codes "\">")) (page_html title tables notes risks) }
    ensures entry { (title : List ℕ) (tables : Option Facts) (notes : Noted) (risks : RisksView) (number : List ℕ) → Contains (entries_kept notes) number → IsPartOf (codes "<tr id=\"" ++ (entry_id number ++ codes "\">")) (page_html title tables notes risks) }
    ensures centre { (title : List ℕ) (tables : Option Facts) (notes : Noted) (risks : RisksView) (name : List ℕ) → Contains (centres_shown notes) name → IsPartOf (codes "<section class=centre id=\"" ++ (centre_id name ++ codes "\">")) (page_html title tables notes risks) }
    ensures load { (notes : Noted) (load : RowView) → Contains (rows_in section.Loads notes.report) load → cell_at load 0 ≢ [] → Contains (centres_shown notes) (cell_at load 0) }
    ensures kind { (title : List ℕ) (tables : Option Facts) (notes : Noted) (risks : RisksView) (kind : Kind) (r : RowView) (rows : List RowView) → Contains kinds kind → messages_of (rows_in section.Messages notes.report) kind ≡ r ∷ rows → IsPartOf (row_html kind.head (count_row (length (r ∷ rows)) (state_of (rows_in section.Messages notes.report)) (state_of (rows_in section.Messages notes.report)))) (page_html title tables notes risks) }
    ensures past_due { (n : ℕ) (state : List ℕ) → (rest : List ℕ) × (row_html late.head (count_row n state state) ≡ codes "<details class=\"kind late\" id=late" ++ rest) }
    ensures release { (n : ℕ) (state : List ℕ) → (rest : List ℕ) × (row_html release.head (count_row n state state) ≡ codes "<details class=\"kind release\" id=release" ++ rest) }
    ensures earlier { (n : ℕ) (state : List ℕ) → (rest : List ℕ) × (row_html earlier.head (count_row n state state) ≡ codes "<details class=\"kind in\" id=in" ++ rest) }
    ensures later { (n : ℕ) (state : List ℕ) → (rest : List ℕ) × (row_html later.head (count_row n state state) ≡ codes "<details class=\"kind out\" id=out" ++ rest) }
    ensures cancel { (n : ℕ) (state : List ℕ) → (rest : List ℕ) × (row_html cancel.head (count_row n state state) ≡ codes "<details class=\"kind cancel\" id=cancel" ++ rest) }
    ensures none { (place : List ℕ) → place_or 0 place ≡ codes "todo" }
    ensures some { (count : ℕ) (place : List ℕ) → 0 < count → place_or count place ≡ place }
{}

/// Each peg of an item stands once under *Where it goes*. A peg to an order of a parent leads to that order,
/// and stands once more among what the orders of that parent wait for, if the parent is shown.
pub fn pegs_lead_both_ways()
    ensures goes { (scene : SceneView) (pegs : List RowView) → pegs_html scene pegs ≡ pegs_open ++ (flat_map (peg_html scene) pegs ++ grid_end) }
    ensures up { (scene : SceneView) (peg : RowView) → cell_at peg (column section.Pegs (codes "need")) ≡ codes "parent" → need_html scene peg ≡ linked_html scene (numbered scene (cell_at peg (column section.Pegs (codes "parent"))) (cell_at peg (column section.Pegs (codes "number")))) (row_html peg_parent peg) }
    ensures booking { (scene : SceneView) (peg : RowView) → cell_at peg (column section.Pegs (codes "need")) ≡ codes "booking" → need_html scene peg ≡ codes "booking " ++ entry_name_html scene.history (cell_at peg (column section.Pegs (codes "number"))) }
    ensures waits { (scene : SceneView) (name : List ℕ) → waits_for scene.pegs name ≡ filter (λ peg. same_text (cell_at peg (column section.Pegs (codes "parent"))) name && same_text (cell_at peg (column section.Pegs (codes "need"))) (codes "parent")) scene.pegs }
    ensures down { (scene : SceneView) (peg : RowView) (pegs : List RowView) → waits_html scene (peg ∷ pegs) ≡ waits_open ++ (flat_map (wait_html scene) (peg ∷ pegs) ++ grid_end) }
    ensures linked { (scene : SceneView) (order : RowView) (words : List ℕ) → has_item scene.shown (cell_at order 0) ≡ true → linked_html scene (Some order) words ≡ order_link (cell_at order 1) (cell_at order 0) ++ (words ++ codes "</a>") }
{}

/// Where no peg is left out, the pegs on a page, of an order, a requirement or any other kind, have as many pieces together as
/// in the day. So where those of an order have its pieces in the day, as in each plan, they have them on the page.
pub fn pegs_add_up()
    ensures sum { (items : Names) (asked : Option ℕ) (records : List Cells) (notes : Noted) (passes : Cells → Bool) → IsDayOf items asked records notes → length records < 2 ^ 64 → notes.counts.pegs ≡ 0 → together passes (records_of (rows_in section.Pegs notes.report)) ≡ together passes (wanted_rows items section.Pegs (run_shown asked records) records) }
    ensures order { (items : Names) (asked : Option ℕ) (records : List Cells) (notes : Noted) (order : RowView) → IsDayOf items asked records notes → length records < 2 ^ 64 → notes.counts.pegs ≡ 0 → together (is_peg_of order) (wanted_rows items section.Pegs (run_shown asked records) records) ≡ amount (cell_at order (column section.Orders (codes "quantity"))) → together (is_peg_of order) (records_of (rows_in section.Pegs notes.report)) ≡ amount (cell_at order (column section.Orders (codes "quantity"))) }
    ensures pieces { (passes : Cells → Bool) (pegs : List Cells) → together passes pegs ≡ sum_by (λ peg. amount (slice_index_or peg (column section.Pegs (codes "quantity")) [])) (filter passes pegs) }
    ensures supply { (order : RowView) (peg : Cells) → is_peg_of order peg ≡ (same_text (slice_index_or peg (column section.Pegs (codes "item")) []) (cell_at order (column section.Orders (codes "item"))) && (same_text (slice_index_or peg (column section.Pegs (codes "supply")) []) (cell_at order (column section.Orders (codes "kind"))) && same_text (slice_index_or peg (column section.Pegs (codes "source")) []) (cell_at order (column section.Orders (codes "order"))))) }
{}

/// Which items a page shows, if the rows of each item stand together in the day: 200, or all where the plan
/// has fewer, those with messages first, in the order of the messages, and then the others in the order of
/// the plan. If items are named, only these. They are on the page in this order, followed by how many more
/// items it could have shown.
pub fn first_items_with_messages()
    ensures shown { (items : Names) (asked : Option ℕ) (records : List Cells) (notes : Noted) → IsDayOf items asked records notes → IsByItems records → names_shown notes ≡ items_to_show items (run_shown asked records) records }
    ensures most { (items : Names) (run : ℕ) (records : List Cells) → length (items_to_show items run records) ≤ 200 }
    ensures full { (items : Names) (run : ℕ) (records : List Cells) → 200 ≤ length (items_of_plan items run records) → length (items_to_show items run records) ≡ 200 }
    ensures count { (items : Names) (asked : Option ℕ) (records : List Cells) (notes : Noted) → IsDayOf items asked records notes → IsByItems records → notes.counts.items ≡ length (items_of_plan items (run_shown asked records) records) }
    ensures page { (title : List ℕ) (tables : Option Facts) (notes : Noted) (risks : RisksView) → (front : List ℕ) × (back : List ℕ) × (page_html title tables notes risks ≡ front ++ (items_html (scene_in tables notes) (item_lists notes.report) notes.counts.promises (shown_items (item_lists notes.report)) ++ (more_html (notes.counts.items - length (shown_items (item_lists notes.report))) (codes "item is") (codes "items are") ++ back))) }
{}

/// A list that is folded shows each of its rows once: the first ones, and behind their number the others.
pub fn folds_hide_no_row()
    ensures drawn { (listing : Listing) (most : ℕ) (rows : List RowView) → (front : List ℕ) × (between : List ℕ) × (back : List ℕ) × (folded_html listing most rows ≡ front ++ (flat_map listing.line (take most rows) ++ (between ++ (flat_map listing.line (drop most rows) ++ back)))) }
    ensures counted { (listing : Listing) (r : RowView) (rows : List RowView) → hidden_html listing (r ∷ rows) ≡ codes "<details class=rest><summary>and " ++ (escaped (decimal (length (r ∷ rows))) ++ (codes " more</summary>\n" ++ (listed_html listing (r ∷ rows) ++ codes "</details>\n"))) }
{}

/// Each call that is kept of the history and was not answered as it asked is shown once in *Not promised*: the
/// bookings that were answered short first, then the cancellations of what is not standing, and of what is
/// another desk's. If there is none, and the whole history is kept, the page says so.
pub fn refused_calls_stand_once()
    ensures once { (history : List RowView) → IsPermutation (filter (has_one_of (column section.History (codes "reply")) refusals) history) (refused_rows history) }
    ensures page { (title : List ℕ) (tables : Option Facts) (notes : Noted) (risks : RisksView) → (front : List ℕ) × (between : List ℕ) × (back : List ℕ) × (page_html title tables notes risks ≡ front ++ (flat_map (refused_html (scene_in tables notes)) (take FEW_ROWS (refused_rows notes.history)) ++ (between ++ (flat_map (refused_html (scene_in tables notes)) (drop FEW_ROWS (refused_rows notes.history)) ++ back)))) }
    ensures none { (scene : SceneView) → refused_rows scene.history ≡ [] → refused_section scene 0 ≡ refused_open ++ (none_refused ++ section_end) }
{}

/// What *Not promised* says of a call: how it was answered, with what is available or the entry that it names;
/// and the item, pieces and week that it is about, which for a cancellation are those of the booking that it
/// names, if the history has that.
pub fn refused_calls_say_why()
    ensures short { (call : RowView) → cell_at call (column section.History (codes "reply")) ≡ codes "short" → row_html refused_answer call ≡ codes "</th><td class=t><b>short: " ++ (escaped (cell_at call (column section.History (codes "value"))) ++ codes " available</b>") }
    ensures not_standing { (call : RowView) → cell_at call (column section.History (codes "reply")) ≡ codes "not-standing" → row_html refused_answer call ≡ codes "</th><td class=t>not standing: entry " ++ (escaped (cell_at call (column section.History (codes "value"))) ++ []) }
    ensures not_yours { (call : RowView) → cell_at call (column section.History (codes "reply")) ≡ codes "not-yours" → row_html refused_answer call ≡ codes "</th><td class=t>not yours: entry " ++ (escaped (cell_at call (column section.History (codes "value"))) ++ []) }
    ensures booking { (call : RowView) (history : List RowView) (booking : RowView) → cell_at call (column section.History (codes "call")) ≡ codes "cancel" → find (is_booking (cell_at call (column section.History (codes "number")))) history ≡ Some booking → asked_of history call ≡ booking }
    ensures itself { (call : RowView) (history : List RowView) → has_word (column section.History (codes "call")) (codes "cancel") call ≡ false → asked_of history call ≡ call }
{}

/// Messages past due stand by how late their orders are, the latest first; messages to reschedule in by the
/// week that they are needed in, the earliest first. Decimals are compared by their numbers.
pub fn messages_stand_in_order()
    ensures past_due { (messages : List RowView) (i j : ℕ) (m : RowView) → i ≤ j → j < length (messages_of messages late) → value_rank (slice_index_or (messages_of messages late) j m) ≤ value_rank (slice_index_or (messages_of messages late) i m) }
    ensures earlier { (messages : List RowView) → IsNonDecreasingBy value_rank (messages_of messages earlier) }
    ensures value { (message : RowView) → value_rank message ≡ rank (cell_at message (column section.Messages (codes "value"))) }
{}

/// The counts of the summary are those of the rows of the parts that they lead to, and stand in links to these. If a page does
/// not show all items, its head says how many it shows.
pub fn counts_are_of_their_parts()
    ensures kinds { (messages : List RowView) (kind : Kind) → count_with (column section.Messages (codes "message")) kind.word messages ≡ length (messages_of messages kind) }
    ensures short { (history : List RowView) → count_with (column section.History (codes "reply")) (codes "short") history ≡ length (with_word (column section.History (codes "reply")) history (codes "short")) }
    ensures undone { (history : List RowView) → count_by is_undone history ≡ length (filter is_undone history) }
    ensures tile { (count : ℕ) (mark place what : List ℕ) → (front : List ℕ) × (tile_html count mark place what ≡ front ++ (codes "\" href=\"#" ++ (escaped place ++ (codes "\"><b>" ++ (escaped (decimal count) ++ (codes "</b>" ++ (escaped what ++ (codes "</a>" ++ [])))))))) }
    ensures risk { (rows : List RowView) → risk_tile (record { known = true; rows = rows }) ≡ tile_html (length rows) (codes "late") (codes "risk") (codes "at risk") }
    ensures centres { (loads : List RowView) → cell_at (over_tile loads) 0 ≡ decimal (length (leaders [] (filter is_over loads))) }
    ensures all_centres { (loads : List RowView) → cell_at (over_tile loads) 4 ≡ decimal (length (leaders [] loads)) }
    ensures items { (items few : ℕ) → few < items → shown_html items few ≡ codes ", on this page: <b>" ++ (escaped (decimal few) ++ (codes "</b>" ++ [])) }
    ensures head { (title : List ℕ) (tables : Option Facts) (notes : Noted) (risks : RisksView) → (rest : List ℕ) × (page_html title tables notes risks ≡ top_html title tables notes.report notes.counts.items (length (shown_items (item_lists notes.report))) ++ rest) }
    ensures top { (title : List ℕ) (tables : Option Facts) (report : List RowView) (items few : ℕ) → top_html title tables report items few ≡ head_html tables (heading title report items) ++ (shown_html items few ++ head_end) }
    ensures page { (title : List ℕ) (tables : Option Facts) (notes : Noted) (risks : RisksView) → (front : List ℕ) × (back : List ℕ) × (page_html title tables notes risks ≡ front ++ (summary_html notes.history (rows_in section.Messages notes.report) (rows_in section.Loads notes.report) risks ++ back)) }
{}

/// A booking, by its first peg, is at risk exactly if a chain of pegs leads from it down to an order that is late. The order
/// that is told is one that it waits for, and none that it waits for is later; its pieces at risk are at most those of its own
/// pegs. For each day there is one answer.
pub fn promises_hang_on_late_orders()
    ensures stands { (orders pegs : List RowView) (risks : List (Option Risk)) (place : ℕ) → AreAnswers orders pegs risks → place < length pegs → (IsTrue (is_some (risk_at risks place)) ↔ ((order : ℕ) × HangsOn (numbered_pegs orders pegs) place order × (0 < weeks_late (lateness_of orders) order))) }
    ensures latest { (orders pegs : List RowView) (risks : List (Option Risk)) (place other : ℕ) (risk : Risk) → AreAnswers orders pegs risks → place < length pegs → risk_at risks place ≡ Some risk → HangsOn (numbered_pegs orders pegs) place other → weeks_late (lateness_of orders) other ≤ weeks_late (lateness_of orders) risk.order }
    ensures pieces { (orders pegs : List RowView) (risks : List (Option Risk)) (place : ℕ) (risk : Risk) → AreAnswers orders pegs risks → place < length pegs → risk_at risks place ≡ Some risk → risk.pieces ≤ sum_by (pieces_of place) (numbered_pegs orders pegs) }
    ensures one { (orders pegs : List RowView) (risks others : List (Option Risk)) → AreAnswers orders pegs risks → AreAnswers orders pegs others → risks ≡ others }
{}

/// What stands of the bookings at risk stands once in *Promises at risk*, the latest orders first. If there is none, or not all
/// orders and pegs are kept, the page says so.
pub fn promises_at_risk_stand_once()
    ensures once { (rows : List RowView) → IsPermutation rows (risks_first rows) }
    ensures order { (rows : List RowView) → IsNonDecreasingBy falling_late (risks_first rows) }
    ensures some { (scene : SceneView) (row : RowView) (rows : List RowView) → risks_or_none scene true (row ∷ rows) ≡ risk_note ++ capped_html (risk_listing scene) SOME_ROWS (row ∷ rows) }
    ensures none { (scene : SceneView) → risks_html scene (record { known = true; rows = [] }) ≡ risk_open ++ (none_at_risk ++ section_end) }
    ensures unknown { (scene : SceneView) → risks_html scene (record { known = false; rows = [] }) ≡ risk_open ++ (risks_unknown ++ section_end) }
{}
