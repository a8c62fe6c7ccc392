//! Bound statements as texts: `#p.c` is the column at place `c` of the table at place `p` of FROM.

use crate::output::Output;
use crate::shown::{put_counted, put_value};
use cdb_values::{Level, Row};
use sql_bind::{
    Bound, BoundAssign, BoundColumn, BoundItem, BoundKey, BoundOperand, BoundSelect, Cmp, Condition,
};

/// Adds a line with a bound statement.
pub(crate) fn put_meaning(out: &mut Output, bound: &Bound) {
    out.put("  is ");
    put_bound(out, bound);
    out.put("\n");
}

fn put_bound(out: &mut Output, bound: &Bound) {
    match bound {
        Bound::Begin => out.put("begin"),
        Bound::Commit => out.put("commit"),
        Bound::Rollback => out.put("rollback"),
        Bound::SetLevel(Level::Snapshot) => out.put("set snapshot"),
        Bound::SetLevel(Level::Serializable) => out.put("set serializable"),
        Bound::Insert { table, rows } => {
            put_counted(out, "insert ", u64::from(*table));
            put_rows(out, rows.as_slice());
        }
        Bound::Update {
            table,
            assigns,
            filter,
        } => {
            put_counted(out, "update ", u64::from(*table));
            put_assigns(out, assigns.as_slice());
            put_filter(out, filter);
        }
        Bound::Delete { table, filter } => {
            put_counted(out, "delete ", u64::from(*table));
            put_filter(out, filter);
        }
        Bound::Select(query) => put_query(out, query),
    }
}

fn put_column(out: &mut Output, sign: &str, column: BoundColumn) {
    out.put(sign);
    put_counted(out, "#", u64::from(column.place));
    put_counted(out, ".", u64::from(column.column));
}

fn put_operand(out: &mut Output, side: &BoundOperand) {
    match side {
        BoundOperand::Value(value) => put_value(out, value),
        BoundOperand::Column(column) => put_column(out, "", *column),
    }
}

/// The rows of an INSERT; of more than twenty only how many there are.
fn put_rows(out: &mut Output, rows: &[Row]) {
    if rows.len() > 20 {
        put_counted(out, " ", rows.len() as u64);
        out.put(" rows");
        return;
    }
    for row in rows {
        put_inserted(out, row);
    }
}

fn put_inserted(out: &mut Output, row: &Row) {
    let mut before = " (";
    for value in row.as_slice() {
        out.put(before);
        put_value(out, value);
        before = ", ";
    }
    out.put(")");
}

fn put_assigns(out: &mut Output, assigns: &[BoundAssign]) {
    let mut before = " ";
    for assign in assigns {
        put_counted(out, before, u64::from(assign.column));
        out.put(" = ");
        put_sum(out, assign);
        before = ", ";
    }
}

/// Adds what a column is set to.
fn put_sum(out: &mut Output, assign: &BoundAssign) {
    put_operand(out, &assign.first);
    for step in assign.rest.as_slice() {
        out.put(if step.minus { " - " } else { " + " });
        put_operand(out, &step.operand);
    }
}

fn put_filter(out: &mut Output, filter: &Option<Condition>) {
    if let Some(condition) = filter {
        out.put(" where ");
        put_condition(out, condition);
    }
}

fn comparison(op: Cmp) -> &'static str {
    match op {
        Cmp::Eq => " = ",
        Cmp::Ne => " <> ",
        Cmp::Lt => " < ",
        Cmp::Le => " <= ",
        Cmp::Gt => " > ",
        Cmp::Ge => " >= ",
    }
}

fn put_condition(out: &mut Output, condition: &Condition) {
    match condition {
        Condition::Or(parts) => {
            let mut is_behind = false;
            for part in parts.as_slice() {
                out.put(if is_behind { "; " } else { "or(" });
                put_condition(out, part);
                is_behind = true;
            }
            out.put(")");
        }
        Condition::And(parts) => {
            let mut is_behind = false;
            for part in parts.as_slice() {
                out.put(if is_behind { "; " } else { "and(" });
                put_condition(out, part);
                is_behind = true;
            }
            out.put(")");
        }
        Condition::Not(part) => {
            out.put("not ");
            put_condition(out, part);
        }
        Condition::Group(part) => {
            out.put("(");
            put_condition(out, part);
            out.put(")");
        }
        Condition::Compare { op, left, right } => put_comparison(out, *op, left, right),
        Condition::IsNull { side, negated } => {
            put_operand(out, side);
            out.put(if *negated { " is not null" } else { " is null" });
        }
    }
}

fn put_comparison(out: &mut Output, op: Cmp, left: &BoundOperand, right: &BoundOperand) {
    put_operand(out, left);
    out.put(comparison(op));
    put_operand(out, right);
}

fn put_item(out: &mut Output, sign: &str, item: BoundItem) {
    out.put(sign);
    match item {
        BoundItem::Count => out.put("count"),
        BoundItem::Column(column) => put_column(out, "", column),
        BoundItem::Sum(column) => put_column(out, "sum ", column),
        BoundItem::Min(column) => put_column(out, "min ", column),
        BoundItem::Max(column) => put_column(out, "max ", column),
    }
}

fn put_query(out: &mut Output, query: &BoundSelect) {
    out.put(if query.selectv { "selectv" } else { "select" });
    for item in query.items.as_slice() {
        put_item(out, " ", *item);
    }
    out.put(" from");
    for table in query.tables.as_slice() {
        put_counted(out, " ", u64::from(*table));
    }
    put_filter(out, &query.filter);
    put_group(out, query.group.as_slice());
    put_order(out, query.order.as_slice());
    if let Some(limit) = query.limit {
        put_counted(out, " limit ", limit);
    }
}

fn put_group(out: &mut Output, columns: &[BoundColumn]) {
    let mut before = " group ";
    for column in columns {
        put_column(out, before, *column);
        before = ", ";
    }
}

fn put_order(out: &mut Output, keys: &[BoundKey]) {
    let mut before = " order ";
    for key in keys {
        put_item(out, before, key.item);
        out.put(if key.descending { " desc" } else { "" });
        before = ", ";
    }
}
