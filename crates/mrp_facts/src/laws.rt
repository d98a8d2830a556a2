//! What follows from the definitions alone, each law the contract of a function that does nothing.

ghost use Rattle.std.specs.Prelude.{◌≡◌, ◌≢◌, ℕ, Contains, List, None, Some};
ghost use Rattle.std.specs.Int.{IsInRange};
ghost use Rattle.jiff.specs.Types.{Date};
ghost use Rattle.mrp_cal.specs.Calendar.{ShopCalendar, week_of};
ghost use Rattle.mrp_tables.specs.Items.{item_at};
ghost use Rattle.mrp_tables.specs.Tables.{AreTables, Tables};
ghost use Rattle.mrp_tables.specs.declared.item.Item.{Item};
ghost use Rattle.mrp_tables.specs.declared.rows.Receipt.{Receipt};
ghost use Rattle.mrp_tables.specs.declared.rows.StockRow.{StockRow};
ghost use Rattle.mrp_facts.specs.Dates.{AreDates, date_text, has_years, in_week};
ghost use Rattle.mrp_facts.specs.Facts.{item_facts, open_order};
ghost use Rattle.mrp_facts.specs.declared.facts.ItemFacts.{ItemFacts};

/// The date of a week is the calendar's: it is that of a day that falls in this week.
pub fn dates_are_the_calendar_s()
    ensures { (c : ShopCalendar) (texts : List (List ℕ)) (week : ℕ) → AreDates c texts → IsInRange 1 c.weeks week → (date : Date) × (week_of c date ≡ Some week) × (in_week texts week ≡ date_text (has_years c) date) }
{}

/// The facts of an item are those of its record of the items, which has its name, and of its stock record.
pub fn facts_are_of_their_records()
    ensures item { (t : Tables) (name : List ℕ) (own : ItemFacts) → item_facts t name ≡ Some own → Contains t.items own.item × (own.item.name ≡ name) }
    ensures on_hand { (t : Tables) (name : List ℕ) (own : ItemFacts) (row : StockRow) → AreTables t → item_facts t name ≡ Some own
        → Contains t.stock row → (item_at t.items row.item).name ≡ name → own.on_hand ≡ row.on_hand }
    // Without a stock record there is nothing on hand.
    ensures none { (t : Tables) (name : List ℕ) (own : ItemFacts) → item_facts t name ≡ Some own
        → ((row : StockRow) → Contains t.stock row → (item_at t.items row.item).name ≢ name) → own.on_hand ≡ 0 }
    // Each item has its facts.
    ensures missing { (t : Tables) (name : List ℕ) (item : Item) → AreTables t → item_facts t name ≡ None → Contains t.items item → item.name ≢ name }
{}

/// The receipt of an open order is one of the tables, of this order and of the item with this name.
pub fn open_orders_have_their_receipts()
    ensures found { (t : Tables) (name order : List ℕ) (own : Receipt) → open_order t name order ≡ Some own → Contains t.receipts own × (own.order ≡ order) × ((item_at t.items own.item).name ≡ name) }
    // Each receipt is that of an open order.
    ensures missing { (t : Tables) (name order : List ℕ) (row : Receipt) → AreTables t → open_order t name order ≡ None
        → Contains t.receipts row → row.order ≡ order → (item_at t.items row.item).name ≢ name }
{}
