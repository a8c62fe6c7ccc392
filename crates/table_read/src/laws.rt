//! Facts of all texts, each the contract of a function that does nothing.

ghost use Rattle.std.specs.Prelude.{◌≡◌, ℕ, List, map, Ok, Some, None};
ghost use Rattle.cdb_values.specs.Tables.{add_fault};
ghost use Rattle.cdb_values.specs.declared.tables.TableDef.{TableDef};
ghost use Rattle.sql_grammar.specs.Trees.{Definition};
ghost use Rattle.sql_grammar.specs.Grammar.{CreateS};
ghost use Rattle.sql_reader.specs.Promise.{Spells};
ghost use Rattle.table_read.specs.Keys.{written_keys};
ghost use Rattle.table_read.specs.Named.{names_at, names_written};
ghost use Rattle.table_read.specs.Reading.{definition_of};
ghost use Rattle.table_read.specs.Verdict.{table_of};

/// The definition of a text is the one that the grammar says the text spells.
pub fn definitions_are_spelled()
    ensures spelled { (text : List ℕ) (x : Definition) → definition_of text ≡ Some x → Spells CreateS text x }
    ensures found { (text : List ℕ) (x : Definition) → Spells CreateS text x → definition_of text ≡ Some x }
{}

/// A table that is read can be added to those before it.
pub fn tables_are_lawful()
    ensures { (tables : List TableDef) (text : List ℕ) (table : TableDef) → table_of tables text ≡ Ok table → add_fault tables table ≡ None }
{}

/// The columns at the places of a table's keys have the names that its text writes.
pub fn keys_are_over_their_columns()
    ensures { (tables : List TableDef) (text : List ℕ) (definition : Definition) (table : TableDef) → definition_of text ≡ Some definition → table_of tables text ≡ Ok table → map (names_at table.columns) table.keys ≡ map names_written (written_keys definition.parts) }
{}
