ghost use Rattle.std.specs.Prelude.{ℕ, ◌≡◌, ◌+◌, ◌<◌, List, length, Option, None, Some, true, false};
ghost use Rattle.std.specs.List.{slice_get, slice_set};
ghost use Rattle.page_store.specs.Image.{Image};
ghost use Rattle.btree_index.specs.Keys.{same_key};
ghost use Rattle.btree_index.specs.Changes.{TreeStands, Becomes};
ghost use Rattle.cdb_values.specs.Good.{first_broken, AllFit, IsGood};
ghost use Rattle.cdb_values.specs.Rows.{Rows, versions_of, apply_all};
ghost use Rattle.cdb_values.specs.declared.rows.RowOp.{RowOp};
ghost use Rattle.cdb_values.specs.declared.tables.TableDef.{TableDef};
ghost use Rattle.cdb_values.specs.declared.tables.KeyDef.{KeyDef};
ghost use Rattle.table_store.specs.Forests.{Pair, IsTree, AreTrees, Forest};
ghost use Rattle.table_store.specs.Listings.{IsAmong, Lists};
ghost use Rattle.table_store.specs.States.{AreVersions};
ghost use Rattle.table_store.specs.Stored.{Stands};
ghost use Rattle.table_store.specs.Operations.{gone, born, removed, put_all, breaks_in, AreDoable};

/// At most one state of a schema stands for given pages, good or not.
pub fn pages_stand_for_one_state()
    ensures one { (pages : ℕ → Image) (tables : List TableDef) (rows others : Rows) →
        Stands pages tables rows → Stands pages tables others → rows ≡ others }
{}

/// Pages that stand for a state keep every key of the schema, and nobody has to look at the rows for it (`kept`). So
/// where the rows fit their tables, too, the state is good (`good`).
pub fn pages_that_stand_keep_their_keys()
    ensures kept { (pages : ℕ → Image) (tables : List TableDef) (rows : Rows) →
        Stands pages tables rows → first_broken tables rows.tables ≡ None }
    ensures good { (pages : ℕ → Image) (tables : List TableDef) (rows : Rows) →
        Stands pages tables rows → AllFit tables rows.tables → IsGood tables rows.tables }
{}

/// The pages alone tell, of as many trees from a root on, which pages each has and what it lists.
pub fn pages_hold_one_forest()
    ensures pages { (pages : ℕ → Image) (root : ℕ) (owns others : List (List ℕ)) (lists more : List (List Pair)) →
        length lists ≡ length more → AreTrees pages root owns lists → AreTrees pages root others more → owns ≡ others }
    ensures lists { (pages : ℕ → Image) (root : ℕ) (owns others : List (List ℕ)) (lists more : List (List Pair)) →
        length lists ≡ length more → AreTrees pages root owns lists → AreTrees pages root others more → lists ≡ more }
{}

/// A tree of several stands as a change of it needs (`stands`), and has each key once (`once`). After a change of it,
/// as an insert or a remove makes it, the other trees stand on the same pages and list what they listed (`kept`).
pub fn a_change_of_one_tree_keeps_the_others()
    ensures stands { (pages : ℕ → Image) (root at : ℕ) (owns : List (List ℕ)) (free own : List ℕ)
        (lists : List (List Pair)) (list : List Pair) → Forest pages root owns free lists →
        slice_get owns at ≡ Some own → slice_get lists at ≡ Some list → TreeStands pages (root + at) own free list }
    ensures once { (pages : ℕ → Image) (root : ℕ) (own : List ℕ) (list : List Pair) (p q : Pair) →
        IsTree pages root own list → IsAmong p list → IsAmong q list → same_key p.0 q.0 ≡ true → p ≡ q }
    ensures kept { (old new : ℕ → Image) (root at : ℕ) (owns : List (List ℕ)) (free own : List ℕ)
        (lists : List (List Pair)) (list after : List Pair) → Forest old root owns free lists →
        slice_get owns at ≡ Some own → slice_get lists at ≡ Some list →
        (change : Becomes old new (root + at) own free after) →
        Forest new root (slice_set owns at change.more) change.spare (slice_set lists at after) }
{}

/// Of a tree that lists the versions of a table, and operations that can be done on it: where the pairs of all versions
/// that go are taken out, and then the pairs of those that come are all put in, the tree lists the versions after the
/// operations (`listed`), and these keep the tree's key (`kept`). Where one of them cannot be put in, since its key is
/// there, the versions after the operations break that key (`broken`).
pub fn a_tree_after_operations()
    ensures listed { (pages : ℕ → Image) (root table : ℕ) (own : List ℕ) (list after : List Pair) (key : Option KeyDef)
        (rows : Rows) (ops : List RowOp) → IsTree pages root own list → Lists key (versions_of rows table) list →
        AreVersions rows.next (versions_of rows table) → table < length rows.tables → AreDoable rows table ops →
        put_all key (born table rows.next ops) (removed key (gone table ops) list) ≡ Some after →
        Lists key (versions_of (apply_all rows ops) table) after }
    ensures kept { (pages : ℕ → Image) (root table : ℕ) (own : List ℕ) (list after : List Pair) (key : Option KeyDef)
        (rows : Rows) (ops : List RowOp) → IsTree pages root own list → Lists key (versions_of rows table) list →
        AreVersions rows.next (versions_of rows table) → table < length rows.tables → AreDoable rows table ops →
        put_all key (born table rows.next ops) (removed key (gone table ops) list) ≡ Some after →
        breaks_in key (versions_of (apply_all rows ops) table) ≡ false }
    ensures broken { (pages : ℕ → Image) (root table : ℕ) (own : List ℕ) (list : List Pair) (key : Option KeyDef)
        (rows : Rows) (ops : List RowOp) → IsTree pages root own list → Lists key (versions_of rows table) list →
        AreVersions rows.next (versions_of rows table) → table < length rows.tables → AreDoable rows table ops →
        put_all key (born table rows.next ops) (removed key (gone table ops) list) ≡ None →
        breaks_in key (versions_of (apply_all rows ops) table) ≡ true }
{}
