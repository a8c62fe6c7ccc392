//! Laws of the first touch.
ghost use Rattle.std.specs.Prelude.{ℕ, ◌≡◌, ◌++◌, List, Some, None, map, option_map};
ghost use Rattle.cdb_values.specs.declared.items.GenidItem.{GenidItem};
ghost use Rattle.cdb_values.specs.declared.items.Interval.{Interval};
ghost use Rattle.cdb_values.specs.declared.rows.Change.{Change};
ghost use Rattle.cdb_values.specs.declared.tables.TableDef.{TableDef};
ghost use Rattle.phys_log.specs.declared.entries.Entry.{Entry};
ghost use Rattle.session_language.specs.Touched.{first_used, TheVersion, TheRange};
ghost use Rattle.range_validate.specs.Touches.{first_item, first_touch_of, item_at, IsFirst};
ghost use Rattle.range_validate.specs.Used.{item_of};
ghost use Rattle.range_validate.specs.declared.touches.Touch.{Touch};

/// The law that where no touch is found, no entry touches a used item (`none`), and that the one that is found is at the first
/// entry that does, and tells the first item that this touches (`one`).
pub fn touches_are_first()
    ensures none { (tables : List TableDef) (entries : List Entry) (genids : List GenidItem) (ranges : List Interval) →
        first_touch_of tables entries genids ranges ≡ None → (place : ℕ) → item_at tables entries genids ranges place ≡ None }
    ensures one { (tables : List TableDef) (entries : List Entry) (genids : List GenidItem) (ranges : List Interval) (t : Touch) →
        first_touch_of tables entries genids ranges ≡ Some t → IsFirst tables entries genids ranges t }
{}

/// The law that the first item that changes touch is that of the first of what a transaction used that they touch: of the
/// versions in order, and then of the intervals in order.
#[tactic(auto, using(crate::proofs::UsedLemmas::item_of_used))]
pub fn items_are_of_what_is_used()
    ensures { (tables : List TableDef) (changes : List Change) (genids : List GenidItem) (ranges : List Interval) →
        first_item tables changes genids ranges ≡ option_map item_of (first_used tables changes (map TheVersion genids ++ map TheRange ranges)) }
{}
