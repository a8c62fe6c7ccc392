//! Facts of all scripts, each the contract of a function that does nothing.

ghost use Rattle.std.specs.Prelude.{◌≡◌, ◌<◌, ◌≤◌, ◌++◌, ℕ, List, length};
ghost use Rattle.script_form.specs.CanRun.{CanRun};
ghost use Rattle.script_form.specs.Named.{IsNamed};
ghost use Rattle.script_read.specs.Lawful.{IsLawful};
ghost use Rattle.script_read.specs.ScriptText.{script_of, most_bytes};
ghost use Rattle.script_form.specs.declared.scripts.Script.{Script};

/// Of a script that is read, the names of sessions and of tables are distinct, watches name tables,
/// each line of the body names a declared session or a node, and lines rise.
pub fn scripts_are_lawful()
    ensures { (stores consumers : ℕ) (bytes : List ℕ) (script : Script) → script_of stores consumers bytes ≡ Ok script → IsLawful script }
{}

/// A script that is read can run: it has one node and no watch, lawful tables, and its body is texts of
/// declared sessions.
pub fn scripts_can_run()
    ensures { (stores consumers : ℕ) (bytes : List ℕ) (script : Script) → script_of stores consumers bytes ≡ Ok script → CanRun script }
{}

/// Of a script that is read, the names of sessions, tables and keys are names, no key is named `all`, and each table has a
/// column.
pub fn scripts_have_names()
    ensures { (stores consumers : ℕ) (bytes : List ℕ) (script : Script) → script_of stores consumers bytes ≡ Ok script → IsNamed script }
{}

/// A script that is read has a store for its node.
pub fn scripts_have_stores()
    ensures { (stores consumers : ℕ) (bytes : List ℕ) (script : Script) → script_of stores consumers bytes ≡ Ok script → 1 ≤ stores }
{}

/// The bytes behind the first one past the limit do not matter.
pub fn later_bytes_do_not_matter()
    ensures { (stores consumers : ℕ) (bytes rest : List ℕ) → most_bytes < length bytes → script_of stores consumers (bytes ++ rest) ≡ script_of stores consumers bytes }
{}
