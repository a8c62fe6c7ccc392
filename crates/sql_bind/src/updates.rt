//! UPDATE: what is wrong with it, and what its SET means.
ghost use Rattle.std.specs.Prelude.{◌≡◌, ◌≤◌, ◌∷◌, [], length, map, IfOk};
ghost use Rattle.std.specs.List.{list_any};
ghost use Rattle.sql_grammar.specs.Views.{name_in, operand_in, filter_in, setting_in, change_in};
ghost use Rattle.sql_bind.specs.Faults.{own_column, setting_columns, update_columns, is_no_number, value_differs as differs, setting_differs};
ghost use Rattle.sql_bind.specs.Meaning.{bound_change, bound_setting};
ghost use Rattle.sql_bind.specs.Scope.{is_unknown as unknown};
ghost use Rattle.sql_bind.specs.Seen.{visible_in, doubted};

use crate::columns::{Doubt, assign_has_doubt, filter_has_doubt};
use crate::conditions::operand;
use crate::kinds::{differ, is_not_integer, kind_of_operand};
use crate::scope::VisibleTable;
use crate::types::{BoundAssign, BoundStep};
use cdb_values::{ColumnType, List};
use sql_grammar::{Assign, Operand, Step, Test};
use std::alloc::{AllocError, Global};

/// Whether UPDATE names a column that the table has not.
#[tactic(auto, using(crate::proofs::ListLemmas::any_of_update))]
pub(crate) fn names_unknown(table: &VisibleTable, assigns: &[Assign], filter: &Option<Test>) -> bool
    ensures { result ≡ list_any (unknown (visible_in table.now ∷ [])) (update_columns (map setting_in assigns.now) (filter_in filter.now)) }
{
    let scope = [*table];
    writes_unknown(table, assigns)
        || reads_unknown(&scope, assigns)
        || filter_has_doubt(&scope, Doubt::Unknown, filter)
}

/// Whether SET writes a column that the table has not.
fn writes_unknown(table: &VisibleTable, assigns: &[Assign]) -> bool
    ensures { result ≡ list_any (λ assign. unknown (visible_in table.now ∷ []) (own_column (name_in assign.column))) assigns.now }
{
    assigns
        .iter()
        .any(|assign| table.lacks(assign.column.as_bytes()))
}

/// Whether SET reads a column that no table has.
fn reads_unknown(scope: &[VisibleTable], assigns: &[Assign]) -> bool
    ensures { result ≡ list_any (λ assign. list_any (unknown (map visible_in scope.now)) (setting_columns (setting_in assign))) assigns.now }
{
    assigns
        .iter()
        .any(|assign| assign_has_doubt(scope, Doubt::Unknown, assign))
}

/// The names of the columns that SET writes.
pub(crate) fn columns_written<'a>(
    alloc: Global,
    assigns: &'a [Assign],
) -> Result<Vec<&'a [u8]>, AllocError>
    ensures { IfOk result (λ found. map (λ n. n.now) found.items ≡ map (λ s. s.column) (map setting_in assigns.now)) }
{
    let mut found = Vec::new(alloc);
    'assigns: for assign in assigns {
        found.push(assign.column.as_bytes())?;
    }
    Ok(found)
}

/// Whether SET gives a column a value of another type.
pub(crate) fn has_wrong_assign(table: &VisibleTable, assigns: &[Assign]) -> bool
    ensures { result ≡ list_any (setting_differs (visible_in table.now)) (map setting_in assigns.now) }
{
    assigns.iter().any(|assign| assign_is_wrong(table, assign))
}

/// Whether this gives a column a value of another type.
fn assign_is_wrong(table: &VisibleTable, assign: &Assign) -> bool
    ensures { result ≡ setting_differs (visible_in table.now) (setting_in assign.now) }
{
    let scope = [*table];
    let kind = table.kind_of(assign.column.as_bytes());
    value_differs(kind, &scope, &assign.first, assign.rest.as_slice())
}

/// Whether a value is not of this type: alone, or made by `+` and `-`, which make integers of integers.
fn value_differs(
    kind: Option<ColumnType>,
    scope: &[VisibleTable],
    first: &Operand,
    steps: &[Step],
) -> bool
    ensures { result ≡ differs kind (map visible_in scope.now) (operand_in first.now) (map change_in steps.now) }
{
    match steps.split_first() {
        None => differ(kind, kind_of_operand(scope, first)),
        Some(_) => {
            differ(kind, Some(ColumnType::Integer))
                || is_not_integer(scope, first)
                || steps_differ(scope, steps)
        }
    }
}

/// Whether something is added or taken away that is neither an integer nor NULL.
fn steps_differ(scope: &[VisibleTable], steps: &[Step]) -> bool
    ensures { result ≡ list_any (λ change. is_no_number (map visible_in scope.now) change.side) (map change_in steps.now) }
{
    steps
        .iter()
        .any(|step| is_not_integer(scope, &step.operand))
}

/// What SET means.
pub(crate) fn assigns(
    alloc: Global,
    table: &VisibleTable,
    assigns: &[Assign],
) -> Result<List<BoundAssign>, AllocError>
    ensures { IfOk result (λ bound. bound ≡ map (bound_setting (visible_in table.now ∷ [])) (map setting_in assigns.now)) }
{
    let mut bound = List::new(alloc);
    'assigns: for assign in assigns {
        bound.push(bound_assign(alloc, table, assign)?)?;
    }
    Ok(bound)
}

/// What a column of SET and its value mean.
fn bound_assign(
    alloc: Global,
    table: &VisibleTable,
    assign: &Assign,
) -> Result<BoundAssign, AllocError>
    ensures { IfOk result (λ bound. bound ≡ bound_setting (visible_in table.now ∷ []) (setting_in assign.now)) }
{
    let scope = [*table];
    Ok(BoundAssign {
        column: table.place_or_first(assign.column.as_bytes()),
        first: operand(alloc, &scope, &assign.first)?,
        rest: steps(alloc, &scope, assign.rest.as_slice())?,
    })
}

/// What is added and taken away.
fn steps(
    alloc: Global,
    scope: &[VisibleTable],
    steps: &[Step],
) -> Result<List<BoundStep>, AllocError>
    requires { length scope.now ≤ 256 }
    ensures { IfOk result (λ bound. bound ≡ map (bound_change (map visible_in scope.now)) (map change_in steps.now)) }
{
    let mut bound = List::new(alloc);
    'steps: for step in steps {
        bound.push(bound_step(alloc, scope, step)?)?;
    }
    Ok(bound)
}

/// What is added or taken away.
fn bound_step(alloc: Global, scope: &[VisibleTable], step: &Step) -> Result<BoundStep, AllocError>
    requires { length scope.now ≤ 256 }
    ensures { IfOk result (λ bound. bound ≡ bound_change (map visible_in scope.now) (change_in step.now)) }
{
    Ok(BoundStep {
        minus: step.minus,
        operand: operand(alloc, scope, &step.operand)?,
    })
}
