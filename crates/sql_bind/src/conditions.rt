//! Operands and conditions: their values and columns in the place of what is written.
ghost use Rattle.std.specs.Prelude.{◌≡◌, ◌≤◌, length, map, IfOk};
ghost use Rattle.sql_grammar.specs.Views.{literal_in, operand_in, condition_in, filter_in};
ghost use Rattle.sql_bind.specs.Meaning.{value_of, bound_side, cmp_of, bound_cond, bound_filter};
ghost use Rattle.sql_bind.specs.Seen.{visible_in};
ghost use Rattle.sql_bind.specs.Views.{cond_in, bound_filter_in};

use crate::scope::{VisibleTable, column};
use crate::types::{BoundOperand, Cmp, Condition};
use cdb_values::{Bytes, Text, Value};
use sql_grammar::{Comparison, Literal, Operand, Seq, Test};
use std::alloc::{AllocError, Global};

/// The value of a literal.
pub(crate) fn value(alloc: Global, literal: &Literal) -> Result<Value, AllocError>
    ensures { IfOk result (λ value. value ≡ value_of (literal_in literal.now)) }
{
    match literal {
        Literal::Null => Ok(Value::Null),
        Literal::Int(number) => Ok(Value::Int(*number)),
        Literal::Text(text) => Ok(Value::Text(Text::copied(alloc, text.as_bytes())?)),
        Literal::Blob(blob) => Ok(Value::Blob(Bytes::copied(alloc, blob.as_bytes())?)),
    }
}

/// What an operand means.
pub(crate) fn operand(
    alloc: Global,
    scope: &[VisibleTable],
    side: &Operand,
) -> Result<BoundOperand, AllocError>
    requires { length scope.now ≤ 256 }
    ensures { IfOk result (λ operand. operand ≡ bound_side (map visible_in scope.now) (operand_in side.now)) }
{
    match side {
        Operand::Literal(literal) => Ok(BoundOperand::Value(value(alloc, literal)?)),
        Operand::Column(name) => Ok(BoundOperand::Column(column(scope, name))),
    }
}

/// What the operands of a comparison mean.
fn sides(
    alloc: Global,
    scope: &[VisibleTable],
    left: &Operand,
    right: &Operand,
) -> Result<(BoundOperand, BoundOperand), AllocError>
    requires { length scope.now ≤ 256 }
    ensures { IfOk result (λ both. (both.0 ≡ bound_side (map visible_in scope.now) (operand_in left.now))
        × (both.1 ≡ bound_side (map visible_in scope.now) (operand_in right.now))) }
{
    let left = operand(alloc, scope, left)?;
    let right = operand(alloc, scope, right)?;
    Ok((left, right))
}

/// The comparison of a sign.
fn comparison(sign: Comparison) -> Cmp
    ensures { result ≡ cmp_of sign }
{
    match sign {
        Comparison::Eq => Cmp::Eq,
        Comparison::Ne => Cmp::Ne,
        Comparison::Lt => Cmp::Lt,
        Comparison::Le => Cmp::Le,
        Comparison::Gt => Cmp::Gt,
        Comparison::Ge => Cmp::Ge,
    }
}

/// What a condition means, part by part.
pub(crate) fn condition(
    alloc: Global,
    scope: &[VisibleTable],
    test: &Test,
) -> Result<Condition, AllocError>
    requires { length scope.now ≤ 256 }
    ensures { IfOk result (λ condition. cond_in condition ≡ bound_cond (map visible_in scope.now) (condition_in test.now)) }
{
    match test {
        Test::Or(parts) => {
            let mut bound = Vec::new(alloc);
            'parts: for part in parts.as_slice() {
                bound.push(condition(alloc, scope, part)?)?;
            }
            Ok(Condition::Or(Seq::from_vec(bound)))
        }
        Test::And(parts) => {
            let mut bound = Vec::new(alloc);
            'parts: for part in parts.as_slice() {
                bound.push(condition(alloc, scope, part)?)?;
            }
            Ok(Condition::And(Seq::from_vec(bound)))
        }
        Test::Not(part) => Ok(Condition::Not(Box::new(alloc, condition(alloc, scope, part)?)?)),
        Test::Group(part) => Ok(Condition::Group(Box::new(alloc, condition(alloc, scope, part)?)?)),
        Test::Compare { op, left, right } => {
            let both = sides(alloc, scope, left, right)?;
            Ok(Condition::Compare {
                op: comparison(*op),
                left: both.0,
                right: both.1,
            })
        }
        Test::IsNull { side, negated } => Ok(Condition::IsNull {
            side: operand(alloc, scope, side)?,
            negated: *negated,
        }),
    }
}

/// What WHERE means, if there is one.
pub(crate) fn filter(
    alloc: Global,
    scope: &[VisibleTable],
    filter: &Option<Test>,
) -> Result<Option<Condition>, AllocError>
    requires { length scope.now ≤ 256 }
    ensures { IfOk result (λ bound. bound_filter_in bound ≡ bound_filter (map visible_in scope.now) (filter_in filter.now)) }
{
    match filter {
        None => Ok(None),
        Some(test) => Ok(Some(condition(alloc, scope, test)?)),
    }
}
