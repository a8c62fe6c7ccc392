//! A law of the definitions.
ghost use Rattle.std.specs.Prelude.{◌≡◌, List, is_some};
ghost use Rattle.cdb_values.specs.Good.{first_broken};
ghost use Rattle.cdb_values.specs.Rows.{Rows};
ghost use Rattle.cdb_values.specs.declared.tables.TableDef.{TableDef};
ghost use Rattle.table_edits.specs.Broken.{broken_place, named as named_of};

/// The first broken key by its names is the one by its place (`named`), and one is told exactly where the other is (`told`).
pub fn the_first_broken_key_has_its_name()
    ensures named { (tables : List TableDef) (rows : Rows) → first_broken tables rows.tables ≡ named_of tables (broken_place rows 0 tables) }
    ensures told { (tables : List TableDef) (rows : Rows) → is_some (first_broken tables rows.tables) ≡ is_some (broken_place rows 0 tables) }
{}
